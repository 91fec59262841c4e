//! A text written to what is no regular file: a pipe, a device, the standard output.

ghost use Rattle.std.specs.Prelude.{◌≡◌, ◌+◌, ◌++◌, ℕ, List, [], true, length, IfOk, OnOk};
ghost use Rattle.std.specs.Io.KnownBytes.{Appends};

use irig_text::{ENOUGH, ShelfFault, Text};
use std::io::Write;

/// All of a text was written to a file that stays. Only `write_in_place` makes one.
#[derive(Drop)]
pub struct InPlace {
    count: u64,
}

impl InPlace {
    /// In bytes.
    pub fn count(&self) -> u64
        ensures { result ≡ self.now.count }
    {
        self.count
    }
}

/// Writes all of a text, block by block; `block` is the memory for one, and what it holds is lost.
/// After an error a front of the text may be written.
pub fn write_in_place<F: Write, T: Text>(
    file: &mut F,
    text: &mut T,
    block: &mut Vec<u8>,
) -> Result<InPlace, ShelfFault>
    ensures appended { OnOk result
        (Appends (F.contents file.old) (F.contents file.new) (T.rest text.old)) }
    ensures count { IfOk result (λ all. all.count ≡ length (T.rest text.old)) }
{
    let mut count = 0;
    for _ in 0..u64::MAX {
        if write_next(file, text, block, &mut count)? {
            return Ok(InPlace { count });
        }
    }
    // No text has that many blocks.
    Err(ShelfFault)
}

/// Writes the next block, of at least `ENOUGH` bytes (64 KiB) but for the last; returns whether it
/// is the last. Too many bytes are seen before they are written.
fn write_next<F: Write, T: Text>(
    file: &mut F,
    text: &mut T,
    block: &mut Vec<u8>,
    count: &mut u64,
) -> Result<bool, ShelfFault>
    ensures ok { OnOk result ((part : List ℕ)
        × (T.rest text.old ≡ part ++ T.rest text.new)
        × (count.new ≡ count.old + length part)
        × Appends (F.contents file.old) (F.contents file.new) part) }
    ensures end { IfOk result (λ ended. ended ≡ true → T.rest text.new ≡ []) }
{
    block.clear();
    let Ok(ended) = text.fill(block, ENOUGH) else {
        return Err(ShelfFault);
    };
    let Some(counted) = count.checked_add(block.len() as u64) else {
        return Err(ShelfFault);
    };
    *count = counted;
    match file.write_all(block) {
        Ok(()) => Ok(ended),
        Err(_) => Err(ShelfFault),
    }
}
