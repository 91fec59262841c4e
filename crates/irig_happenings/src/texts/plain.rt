//! The parts of a listing as lines for people.

ghost use Rattle.std.specs.Prelude.{◌≡◌, ◌++◌, OnOk};
ghost use Rattle.irig_happenings.specs.Texts.{cost_text, happening_text, margin_text, noise_text};
ghost use Rattle.irig_happenings.specs.Texts.{noise_words, plain_part, span, stretch_text};
ghost use Rattle.irig_happenings.specs.Texts.{what_text};

use crate::happening::Happening;
use crate::noise::Noise;
use crate::part::Part;
use crate::stretch::Stretch;
use crate::texts::words::{put_number, put_word};
use irig_explaining::Kind;
use std::alloc::AllocError;

pub fn put_plain(text: &mut Vec<u8>, part: &Part) -> Result<(), AllocError>
    ensures { OnOk result (text.new.items ≡ text.old.items ++ plain_part part.now) }
{
    match part {
        Part::Stretch(stretch) => put_stretch(text, stretch),
        Part::Happening(happening) => put_happening(text, happening),
        Part::Noise(noise) => put_noise(text, noise),
    }
}

/// Two moments, with a tab after each.
fn put_span(text: &mut Vec<u8>, begin: u64, end: u64) -> Result<(), AllocError>
    ensures { OnOk result (text.new.items ≡ text.old.items ++ span begin end) }
{
    put_number(text, begin)?;
    put_word(text, b"\t", end)?;
    text.extend_from_slice(b"\t")
}

fn put_stretch(text: &mut Vec<u8>, stretch: &Stretch) -> Result<(), AllocError>
    ensures { OnOk result (text.new.items ≡ text.old.items ++ stretch_text stretch.now) }
{
    put_span(text, stretch.begin, stretch.end)?;
    put_word(text, b"elements ", stretch.count)?;
    put_word(text, b" from ", stretch.element)?;
    text.extend_from_slice(b"\n")
}

fn put_noise(text: &mut Vec<u8>, noise: &Noise) -> Result<(), AllocError>
    ensures { OnOk result (text.new.items ≡ text.old.items ++ noise_text noise.now) }
{
    put_span(text, noise.begin, noise.end)?;
    put_word(text, b"noise ", noise.count)?;
    text.extend_from_slice(b"\n")
}

fn put_happening(text: &mut Vec<u8>, happening: &Happening) -> Result<(), AllocError>
    ensures { OnOk result (text.new.items ≡ text.old.items ++ happening_text happening.now) }
{
    put_span(text, happening.begin, happening.end)?;
    put_what(text, happening)?;
    put_noise_words(text, happening.noise)?;
    put_cost(text, happening)
}

fn put_what(text: &mut Vec<u8>, happening: &Happening) -> Result<(), AllocError>
    ensures { OnOk result (text.new.items ≡ text.old.items ++ what_text happening.now) }
{
    match happening.kind {
        Kind::Next if happening.missing == 0 => text.extend_from_slice(b"damaged"),
        Kind::Next => put_word(text, b"missing ", happening.missing),
        Kind::Step => text.extend_from_slice(b"step"),
        Kind::Jump => {
            put_word(text, b"jump from ", happening.element)?;
            put_word(text, b" to ", happening.to)
        }
    }
}

/// Nothing, if there is no noise.
fn put_noise_words(text: &mut Vec<u8>, noise: u64) -> Result<(), AllocError>
    ensures { OnOk result (text.new.items ≡ text.old.items ++ noise_words noise) }
{
    if noise == 0 {
        return Ok(());
    }
    put_word(text, b", noise ", noise)
}

fn put_cost(text: &mut Vec<u8>, happening: &Happening) -> Result<(), AllocError>
    ensures { OnOk result (text.new.items ≡ text.old.items ++ cost_text happening.now) }
{
    put_word(text, b"\tcost ", happening.cost)?;
    put_margin(text, happening.margin)?;
    text.extend_from_slice(b"\n")
}

/// Nothing, if it was not asked for.
fn put_margin(text: &mut Vec<u8>, margin: Option<u64>) -> Result<(), AllocError>
    ensures { OnOk result (text.new.items ≡ text.old.items ++ margin_text margin) }
{
    match margin {
        Some(margin) => put_word(text, b"\tmargin ", margin),
        None => Ok(()),
    }
}
