//! What is printed before a line that is not in the header: its stamp.

ghost use Rattle.std.specs.Prelude.{◌≡◌, ◌<◌, ◌≤◌, ◌^◌, ◌++◌, ◌∷◌, [], Option, Some, IfSome, OnOk};
ghost use Rattle.std.specs.Prelude.{decimal, option_map};
ghost use Rattle.irig_stamps.specs.{Stamps.IsNone, Stamps.IsWord, StampTexts.stamp_text};
ghost use Rattle.irig_stamps.specs.{Offs.cell, Offs.is_wide, Offs.timed_word, Offs.wide_word};
ghost use Rattle.irig_stamps.specs.Texts.{word_of};
ghost use Rattle.irig_stamps.specs.Reasons.{IsKnownOf, why_text};
ghost use Rattle.irig_stamps.specs.{Numbers.capped, declared.picos.Picos.Picos};

use crate::moment::{time_of, why_of};
use crate::picos::Picos;
use crate::settings::Settings;
use crate::text::{put_number, put_time_or_hyphen};
use irig_codes::Format;
use irig_timed::{Known, Moment, off_of};
use irig_times::{Time, Why};
use irig_track::Lens;
use std::alloc::AllocError;

/// What is printed before a line: the time of year at its recorder's time, or a word if it has
/// none.
#[derive(Clone, Copy)]
pub enum Stamp<'a> {
    /// The time of year, and by how many microseconds it can be off, if that is asked for.
    Time(Time, u64),
    /// The word for no time: a hyphen, or the reason.
    Word(&'a [u8]),
}

/// The stamp of a line whose column has this number, in picoseconds (`number`): the time of year at
/// that recorder's time, or the word of `none_word` if it has none.
pub fn stamp_of<'a>(
    pulses: &mut Lens<'_>,
    known: &Known,
    format: Format,
    settings: &Settings<'_>,
    number: Option<Picos>,
) -> Stamp<'a>
    requires known { IsKnownOf format settings.now pulses.old.track.pulses known.now }
    requires century { settings.now.century ≤ 99 }
    requires offset { settings.now.offset ≤ 2 ^ 119 }
    ensures word { (v : Option Picos) → number ≡ option_map capped v
        → IsWord format pulses.old.track.pulses settings.now v (stamp_text settings.now result) }
    ensures pulses { pulses.new.track ≡ pulses.old.track }
{
    let Some(picos) = number else {
        return Stamp::Word(b"-");
    };
    match time_of(pulses, known, format, settings, picos) {
        Some(moment) => timed_stamp(pulses, known, format, settings, &moment),
        None => Stamp::Word(none_word(pulses, known, format, settings, picos)),
    }
}

/// The stamp of a moment that has a time: no time if it can be off too far.
fn timed_stamp<'a>(
    pulses: &mut Lens<'_>,
    known: &Known,
    format: Format,
    settings: &Settings<'_>,
    moment: &Moment,
) -> Stamp<'a>
    requires known { IsKnownOf format settings.now pulses.old.track.pulses known.now }
    requires low { (moment.now.from < 2 ^ 27) × (moment.now.to < 2 ^ 27)
        × (moment.now.bound ≤ 20000000000) }
    ensures word { stamp_text settings.now result
        ≡ timed_word format pulses.old.track.pulses settings.now moment.now }
    ensures pulses { pulses.new.track ≡ pulses.old.track }
{
    if !settings.bound && settings.within.is_none() {
        return Stamp::Time(moment.time, 0);
    }
    let off = off_of(pulses, known, format, moment);
    if is_wide(settings.within, off) {
        Stamp::Word(wide_word(settings.why))
    } else {
        Stamp::Time(moment.time, off)
    }
}

fn is_wide(within: Option<u64>, off: u64) -> bool
    ensures { result ≡ is_wide within off }
{
    match within {
        Some(most) => most < off,
        None => false,
    }
}

fn wide_word<'a>(why: bool) -> &'a [u8]
    ensures { result.now ≡ wide_word why }
{
    if why { b"wide" } else { b"-" }
}

/// The word for a recorder's time at which there is no time of year, as the caller has found: the
/// reason, if `settings.why` asks for it; else a hyphen.
fn none_word<'a>(
    pulses: &mut Lens<'_>,
    known: &Known,
    format: Format,
    settings: &Settings<'_>,
    picos: Picos,
) -> &'a [u8]
    requires known { IsKnownOf format settings.now pulses.old.track.pulses known.now }
    requires offset { settings.now.offset ≤ 2 ^ 119 }
    ensures word { (v : Picos) → picos ≡ capped v
        → IsNone settings.now.why format pulses.old.track.pulses settings.now v result.now }
    ensures pulses { pulses.new.track ≡ pulses.old.track }
{
    if settings.why {
        why_word(why_of(pulses, known, format, settings, picos))
    } else {
        b"-"
    }
}

/// The word that is printed for a reason why a moment has no time.
pub fn why_word<'a>(why: Why) -> &'a [u8]
    ensures { result.now ≡ why_text why }
{
    match why {
        // No pulse before the moment has a time, or none after it.
        Why::Before => b"before",
        Why::After => b"after",
        // Nothing there shows how the time goes on.
        Why::Hole => b"hole",
        // There was an event: a clock was set, or the recorder lost or repeated something.
        Why::Step => b"step",
        // A frame there has a time and is not believed.
        Why::Unbelieved => b"unbelieved",
    }
}

/// Adds a stamp to a text: a time in the form of the settings, or a word as it is.
pub fn put_stamp(
    text: &mut Vec<u8>,
    settings: &Settings<'_>,
    stamp: Stamp<'_>,
) -> Result<(), AllocError>
    requires century { settings.now.century ≤ 99 }
    requires year { IfSome settings.now.year (λ y. y ≤ 9998) }
    ensures { OnOk result (text.new.items ≡ text.old.items ++ stamp_text settings.now stamp.entry) }
{
    match stamp {
        Stamp::Time(time, off) => put_time_off(text, settings, time, off),
        Stamp::Word(word) => put_word(text, settings, word),
    }
}

fn put_time_off(
    text: &mut Vec<u8>,
    settings: &Settings<'_>,
    time: Time,
    off: u64,
) -> Result<(), AllocError>
    requires century { settings.now.century ≤ 99 }
    requires year { IfSome settings.now.year (λ y. y ≤ 9998) }
    ensures { OnOk result (text.new.items ≡ text.old.items
        ++ (word_of settings.now (Some time) ++ cell settings.now (decimal off))) }
{
    put_time_or_hyphen(text, settings, Some(time))?;
    if settings.bound {
        text.extend_from_slice(&[settings.comma.unwrap_or(b'\t')])?;
        put_number(text, off)?;
    }
    Ok(())
}

fn put_word(text: &mut Vec<u8>, settings: &Settings<'_>, word: &[u8]) -> Result<(), AllocError>
    ensures { OnOk result (text.new.items ≡ text.old.items
        ++ (word.now ++ cell settings.now (45 ∷ []))) }
{
    text.extend_from_slice(word)?;
    put_cell(text, settings, b"-")
}

/// Adds a word in the column of bounds, if there is one.
pub fn put_cell(text: &mut Vec<u8>, settings: &Settings<'_>, word: &[u8]) -> Result<(), AllocError>
    ensures { OnOk result (text.new.items ≡ text.old.items ++ cell settings.now word.now) }
{
    if settings.bound {
        text.extend_from_slice(&[settings.comma.unwrap_or(b'\t')])?;
        text.extend_from_slice(word)?;
    }
    Ok(())
}
