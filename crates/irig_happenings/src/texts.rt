//! The text of a listing: a line for each part, as an object of JSON if that is asked for.

mod json;
mod plain;
mod words;

ghost use Rattle.std.specs.Prelude.{◌≡◌, ◌++◌, IfOk, OnOk};
ghost use Rattle.irig_happenings.specs.Texts.{part_text, texts};

use crate::part::Part;
use json::put_json;
use plain::put_plain;
use std::alloc::{AllocError, Global};

/// The lines of some parts.
pub fn text_of(alloc: Global, json: bool, parts: &[Part]) -> Result<Vec<u8>, AllocError>
    ensures { IfOk result (λ text. text.items ≡ texts json parts.now) }
{
    let mut text = Vec::new(alloc);
    for part in parts {
        put_part(&mut text, json, part)?;
    }
    Ok(text)
}

fn put_part(text: &mut Vec<u8>, json: bool, part: &Part) -> Result<(), AllocError>
    ensures { OnOk result (text.new.items ≡ text.old.items ++ part_text json part.now) }
{
    if json {
        put_json(text, part)
    } else {
        put_plain(text, part)
    }
}
