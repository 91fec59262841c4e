//! The parts of a listing as objects of JSON.

ghost use Rattle.std.specs.Prelude.{◌≡◌, ◌++◌, OnOk, codes};
ghost use Rattle.irig_happenings.specs.JsonTexts.{json_cost, json_counts, json_element};
ghost use Rattle.irig_happenings.specs.JsonTexts.{json_elements, json_happening, json_margin};
ghost use Rattle.irig_happenings.specs.JsonTexts.{json_missing, json_noise, json_part, json_passed};
ghost use Rattle.irig_happenings.specs.JsonTexts.{json_rises, json_span, json_stretch, json_to};
ghost use Rattle.irig_happenings.specs.JsonTexts.{what_word};

use crate::happening::Happening;
use crate::noise::Noise;
use crate::part::Part;
use crate::stretch::Stretch;
use crate::texts::words::put_word;
use irig_explaining::Kind;
use std::alloc::AllocError;

pub fn put_json(text: &mut Vec<u8>, part: &Part) -> Result<(), AllocError>
    ensures { OnOk result (text.new.items ≡ text.old.items ++ json_part part.now) }
{
    match part {
        Part::Stretch(stretch) => put_stretch(text, stretch),
        Part::Happening(happening) => put_happening(text, happening),
        Part::Noise(noise) => put_noise(text, noise),
    }
}

fn put_span(text: &mut Vec<u8>, begin: u64, end: u64) -> Result<(), AllocError>
    ensures { OnOk result (text.new.items ≡ text.old.items ++ json_span begin end) }
{
    put_word(text, b"{\"begin\":", begin)?;
    put_word(text, b",\"end\":", end)
}

fn put_stretch(text: &mut Vec<u8>, stretch: &Stretch) -> Result<(), AllocError>
    ensures { OnOk result (text.new.items ≡ text.old.items ++ json_stretch stretch.now) }
{
    put_span(text, stretch.begin, stretch.end)?;
    put_elements(text, stretch.count)?;
    put_element(text, stretch.element)?;
    put_end(text)
}

fn put_elements(text: &mut Vec<u8>, count: u64) -> Result<(), AllocError>
    ensures { OnOk result (text.new.items ≡ text.old.items ++ json_elements count) }
{
    put_word(text, b",\"what\":\"elements\",\"count\":", count)
}

fn put_element(text: &mut Vec<u8>, element: u64) -> Result<(), AllocError>
    ensures { OnOk result (text.new.items ≡ text.old.items ++ json_element element) }
{
    put_word(text, b",\"element\":", element)
}

fn put_end(text: &mut Vec<u8>) -> Result<(), AllocError>
    ensures { OnOk result (text.new.items ≡ text.old.items ++ codes "}\n") }
{
    text.extend_from_slice(b"}\n")
}

fn put_noise(text: &mut Vec<u8>, noise: &Noise) -> Result<(), AllocError>
    ensures { OnOk result (text.new.items ≡ text.old.items ++ json_noise noise.now) }
{
    put_span(text, noise.begin, noise.end)?;
    put_rises(text, noise.count)?;
    put_end(text)
}

fn put_rises(text: &mut Vec<u8>, count: u64) -> Result<(), AllocError>
    ensures { OnOk result (text.new.items ≡ text.old.items ++ json_rises count) }
{
    put_word(text, b",\"what\":\"noise\",\"noise\":", count)
}

fn put_happening(text: &mut Vec<u8>, happening: &Happening) -> Result<(), AllocError>
    ensures { OnOk result (text.new.items ≡ text.old.items ++ json_happening happening.now) }
{
    put_span(text, happening.begin, happening.end)?;
    text.extend_from_slice(what_word(happening.kind, happening.missing))?;
    put_counts(text, happening)?;
    put_cost(text, happening)
}

/// The field of what happened.
fn what_word<'a>(kind: Kind, missing: u64) -> &'a [u8]
    ensures { result.now ≡ what_word kind missing }
{
    match kind {
        Kind::Next if missing == 0 => b",\"what\":\"damaged\"",
        Kind::Next => b",\"what\":\"missing\"",
        Kind::Step => b",\"what\":\"step\"",
        Kind::Jump => b",\"what\":\"jump\"",
    }
}

fn put_counts(text: &mut Vec<u8>, happening: &Happening) -> Result<(), AllocError>
    ensures { OnOk result (text.new.items ≡ text.old.items ++ json_counts happening.now) }
{
    put_element(text, happening.element)?;
    put_to(text, happening.to)?;
    put_missing(text, happening.missing)?;
    put_passed(text, happening.noise)
}

fn put_to(text: &mut Vec<u8>, element: u64) -> Result<(), AllocError>
    ensures { OnOk result (text.new.items ≡ text.old.items ++ json_to element) }
{
    put_word(text, b",\"to\":", element)
}

fn put_missing(text: &mut Vec<u8>, count: u64) -> Result<(), AllocError>
    ensures { OnOk result (text.new.items ≡ text.old.items ++ json_missing count) }
{
    put_word(text, b",\"missing\":", count)
}

fn put_passed(text: &mut Vec<u8>, count: u64) -> Result<(), AllocError>
    ensures { OnOk result (text.new.items ≡ text.old.items ++ json_passed count) }
{
    put_word(text, b",\"noise\":", count)
}

fn put_cost(text: &mut Vec<u8>, happening: &Happening) -> Result<(), AllocError>
    ensures { OnOk result (text.new.items ≡ text.old.items ++ json_cost happening.now) }
{
    put_word(text, b",\"cost\":", happening.cost)?;
    put_margin(text, happening.margin)?;
    text.extend_from_slice(b"}\n")
}

fn put_margin(text: &mut Vec<u8>, margin: Option<u64>) -> Result<(), AllocError>
    ensures { OnOk result (text.new.items ≡ text.old.items ++ json_margin margin) }
{
    match margin {
        Some(margin) => put_word(text, b",\"margin\":", margin),
        None => Ok(()),
    }
}
