//! The column with a name, in the header of the lines.

ghost use Rattle.std.specs.Prelude.{◌≡◌, ◌<◌, ◌+◌, ℕ, List, Option, Ok, Err, IfErr, IfOk, Bool};
ghost use Rattle.irig_stamps.specs.HeaderSteps.{HasRead, IsNext, IsSoFar};
ghost use Rattle.irig_stamps.specs.Named.{Finds, IsPlace, has_name, is_named};

use crate::columns::{after_first, column};
use crate::cutting::{Until, cut};
use crate::fault::RunFault;
use crate::header::{newlines, read_header};
use crate::settings::Settings;
use std::alloc::Global;
use std::io::Read;

/// How many columns are looked at: as many as a number on the command line can name.
const COLUMN_LIMIT: usize = 65_536;

/// The column that was looked for, and what was read of the lines to find it.
#[derive(Drop)]
pub struct Found {
    /// All bytes that were read.
    pub bytes: Vec<u8>,
    /// The column, from 0.
    pub column: usize,
}

/// Reads the header of the lines, and finds the column with a name in its last line.
pub fn find<R: Read>(
    alloc: Global,
    lines: &mut R,
    settings: &Settings<'_>,
    name: &[u8],
) -> Result<Found, RunFault>
    requires { 0 < settings.now.header }
    ensures found { IfOk result (λ found. Finds settings.now name.now (R.remaining lines.old)
        (R.remaining lines.new) found.bytes.items (Ok found.column)) }
    ensures fault { IfErr result (λ fault. (bytes : List ℕ) × Finds settings.now name.now
        (R.remaining lines.old) (R.remaining lines.new) bytes (Err fault)) }
{
    let bytes = match read_header(alloc, lines, settings) {
        Ok(bytes) => bytes,
        Err(fault) => return Err(fault),
    };
    match find_in_bytes(settings, name, bytes.as_slice()) {
        Ok(column) => Ok(Found { bytes, column }),
        Err(fault) => Err(fault),
    }
}

/// The place of the column that has a name, in the last line of the header.
fn find_in_bytes(settings: &Settings<'_>, name: &[u8], bytes: &[u8]) -> Result<usize, RunFault>
    requires { 0 < settings.now.header }
    ensures { (lines : Option (List ℕ)) (left : Option (List ℕ))
        → HasRead settings.now lines left bytes.now
        → Finds settings.now name.now lines left bytes.now result }
{
    let ended = newlines(bytes) as u64;
    // The header's last line can be without a newline, so one newline fewer is enough.
    if ended + 1 < settings.header {
        return Err(RunFault::NoHeader);
    }
    // With a newline as the byte that parts columns, column `k` is line `k`, from 0.
    let line = column(Some(b'\n'), (settings.header - 1) as usize, bytes);
    // A last line without a newline is there only if it has a byte.
    if ended < settings.header && line.is_empty() {
        return Err(RunFault::NoHeader);
    }
    named_column(settings.comma, name, line)
}

/// The place of the column of a line that has a name: `NoColumn` if none has it, `TwoColumns` if
/// more than one has it.
fn named_column(comma: Option<u8>, name: &[u8], line: &[u8]) -> Result<usize, RunFault>
    ensures { IsPlace (has_name comma name.now line.now) 65536 result }
{
    let mut left = line;
    let mut found = None;
    for place in 0..COLUMN_LIMIT {
        let named = is_named(name, column(comma, 0, left));
        match found_up_to(found, place, named) {
            Ok(next) => found = next,
            Err(fault) => return Err(fault),
        }
        left = after_first(comma, left);
    }
    match found {
        Some(place) => Ok(place),
        None => Err(RunFault::NoColumn),
    }
}

/// The place of the column that has the name, of the columns up to `place`; `None` if none has it.
fn found_up_to(found: Option<usize>, place: usize, named: bool) -> Result<Option<usize>, RunFault>
    ensures { (has : ℕ → Bool) → named ≡ has place → IsSoFar has place found
        → IsNext has (place + 1) result }
{
    match (found, named) {
        (None, true) => Ok(Some(place)),
        (Some(_), true) => Err(RunFault::TwoColumns),
        (_, false) => Ok(found),
    }
}

/// Whether a text is the name, with or without white space before it and after it.
fn is_named(name: &[u8], text: &[u8]) -> bool
    ensures { result ≡ is_named name.now text.now }
{
    let (_, text) = cut(text, Until::NonBlank);
    if !text.starts_with(name) {
        return false;
    }
    let (_, rest) = cut(&text[name.len()..], Until::NonBlank);
    rest.is_empty()
}
