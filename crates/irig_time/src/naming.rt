//! The name of the column of times, which the program adds before each line.

ghost use Rattle.std.specs.Prelude.{◌≡◌, IfErr, IfOk, Some, codes};
ghost use Rattle.irig_time.specs.Faults.{HasFault};
ghost use Rattle.irig_time.specs.Samples.{HasName, IsComma};
ghost use Rattle.irig_time.specs.Names.{has, has_comma, is_name, is_of_bounds};
ghost use Rattle.irig_time.specs.Values.{whole_between};
ghost use Rattle.irig_words.specs.Formats.{text_or};

use crate::chosen::OptionFault;
use crate::raw_values::RawValues;
use irig_words::{is_same, text_or};

/// The name of the column of times (`--name`), `time` if none is given.
pub fn name_of<'a>(
    raw: &RawValues<'a>,
    comma: Option<u8>,
    header: u64,
) -> Result<&'a [u8], OptionFault>
    requires comma { IsComma raw.now comma }
    requires header { whole_between 0 4294967296 (text_or raw.now.header (codes "0"))
        ≡ Some header }
    ensures name { IfOk result (λ name. HasName raw.now comma header name.now) }
    ensures fault { IfErr result (HasFault raw.now) }
{
    let name = text_or(raw.name, "time");
    if !is_name(comma, name) {
        return Err(OptionFault::Name);
    }
    if is_of_bounds(raw.bound, name) {
        return Err(OptionFault::OfBounds);
    }
    if raw.name.is_some() && header == 0 {
        return Err(OptionFault::Unnamed);
    }
    Ok(name)
}

/// Whether the column of bounds is asked for, and has this name.
fn is_of_bounds(bound: bool, name: &[u8]) -> bool
    ensures { result ≡ is_of_bounds bound name.now }
{
    bound && is_same(name, b"bound_us")
}

fn is_name(comma: Option<u8>, name: &[u8]) -> bool
    ensures { result ≡ is_name comma name.now }
{
    !name.is_empty()
        && !has(b'"', name)
        && !has(b'\n', name)
        && !has(b'\r', name)
        && !has_comma(comma, name)
}

/// Whether a text has something that parts columns: `comma`, or without it a space or a tab.
fn has_comma(comma: Option<u8>, text: &[u8]) -> bool
    ensures { result ≡ has_comma comma text.now }
{
    match comma {
        Some(comma) => has(comma, text),
        None => has(b' ', text) || has(b'\t', text),
    }
}

fn has(byte: u8, text: &[u8]) -> bool
    ensures { result ≡ has byte text.now }
{
    text.contains(&byte)
}
