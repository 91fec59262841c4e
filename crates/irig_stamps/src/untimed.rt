//! The stretches of a track without a time are found, from rise to rise.

ghost use Rattle.std.specs.Prelude.{◌≡◌, ◌≤◌, ◌*◌, ◌^◌, None, ℕ, IfOk, IfSome, OnOk};
ghost use Rattle.irig_times.specs.declared.time.Time.{Time};
ghost use Rattle.irig_timed.specs.{Moments.IsTimed, Reasons.HasNoTime};
ghost use Rattle.irig_stamps.specs.{HoleTexts.IsUpTo, Holes.HasBegun, Holes.IsBetween};
ghost use Rattle.irig_stamps.specs.Reasons.{IsKnownOf};

use crate::pending::Pending;
use crate::settings::Settings;
use crate::stretch::Stretch;
use irig_codes::Format;
use irig_timed::{Known, time_at, why_at};
use irig_times::Why;
use irig_track::Lens;
use std::alloc::{AllocError, Global};

/// The picoseconds of a microsecond.
const PICOS: u64 = 1_000_000;

/// The stretches of the whole track, the last of which is pending.
pub fn walk(
    alloc: Global,
    pulses: &mut Lens<'_>,
    known: &Known,
    format: Format,
    settings: &Settings<'_>,
    json: bool,
) -> Result<Pending, AllocError>
    requires known { IsKnownOf format settings.now pulses.old.track.pulses known.now }
    requires century { settings.now.century ≤ 99 }
    ensures { IfOk result (IsUpTo (HasNoTime format settings.now.alone settings.now.century
        pulses.old.track.pulses) json settings.now.comma pulses.old.track.micros) }
{
    let mut pending = Pending::new(alloc);
    let mut begin = 0;
    for place in 0..pulses.len() {
        let end = pulses.pulse(place).rise;
        add_between(
            &mut pending,
            pulses,
            known,
            format,
            settings,
            json,
            begin,
            end,
        )?;
        begin = end;
    }
    add_last(pending, pulses, known, format, settings, json, begin)
}

/// The stretches with what is after the last rise.
fn add_last(
    mut pending: Pending,
    pulses: &mut Lens<'_>,
    known: &Known,
    format: Format,
    settings: &Settings<'_>,
    json: bool,
    begin: u64,
) -> Result<Pending, AllocError>
    requires known { IsKnownOf format settings.now pulses.old.track.pulses known.now }
    requires century { settings.now.century ≤ 99 }
    requires between { (risen : ℕ) × IsBetween pulses.old.track.pulses risen begin
        pulses.old.track.micros }
    requires order { begin ≤ pulses.old.track.micros }
    requires up { IsUpTo (HasNoTime format settings.now.alone settings.now.century
        pulses.old.track.pulses) json settings.now.comma begin
        pending }
    ensures { IfOk result (IsUpTo (HasNoTime format settings.now.alone settings.now.century
        pulses.old.track.pulses) json settings.now.comma pulses.old.track.micros) }
{
    let end = pulses.length();
    add_between(
        &mut pending,
        pulses,
        known,
        format,
        settings,
        json,
        begin,
        end,
    )?;
    Ok(pending)
}

/// Adds what is between two rises that follow each other, or between a rise and an end of the
/// track, if it has no time.
fn add_between(
    pending: &mut Pending,
    pulses: &mut Lens<'_>,
    known: &Known,
    format: Format,
    settings: &Settings<'_>,
    json: bool,
    begin: u64,
    end: u64,
) -> Result<(), AllocError>
    requires known { IsKnownOf format settings.now pulses.old.track.pulses known.now }
    requires century { settings.now.century ≤ 99 }
    requires between { (risen : ℕ) × IsBetween pulses.old.track.pulses risen begin end }
    requires order { begin ≤ end }
    requires small { end ≤ 2 ^ 40 }
    ensures grown { OnOk result (IsUpTo (HasNoTime format settings.now.alone settings.now.century
        pulses.old.track.pulses) json settings.now.comma begin pending.old
        → IsUpTo (HasNoTime format settings.now.alone settings.now.century
        pulses.old.track.pulses) json settings.now.comma end pending.new) }
    ensures pulses { pulses.new.track ≡ pulses.old.track }
{
    if begin == end {
        return Ok(());
    }
    match why_untimed(pulses, known, format, settings, begin) {
        None => Ok(()),
        Some(why) => pending.add(json, settings.comma, Stretch { begin, end, why }),
    }
}

/// Why a microsecond has no time at its begin; `None` if it has one.
fn why_untimed(
    pulses: &mut Lens<'_>,
    known: &Known,
    format: Format,
    settings: &Settings<'_>,
    at: u64,
) -> Option<Why>
    requires known { IsKnownOf format settings.now pulses.old.track.pulses known.now }
    requires century { settings.now.century ≤ 99 }
    requires small { at ≤ 2 ^ 40 }
    ensures timed { result ≡ None → (x : Time) × IsTimed format settings.now.alone
        settings.now.century pulses.old.track.pulses 1000000
        (1000000 * at) x }
    ensures why { IfSome result (HasNoTime format settings.now.alone settings.now.century
        pulses.old.track.pulses 1000000 (1000000 * at)) }
    ensures pulses { pulses.new.track ≡ pulses.old.track }
{
    let picos = PICOS * at;
    match time_at(pulses, known, format, settings.century, picos) {
        Some(_) => None,
        None => Some(why_at(pulses, known, format, picos)),
    }
}
