//! The moment of a recorder's time, or why that has no time of year.

ghost use Rattle.std.specs.Prelude.{◌≡◌, ◌↔◌, ◌<◌, ◌≤◌, ◌^◌, ◌-◌, Option, Some, IfSome, min};
ghost use Rattle.std.specs.Prelude.{option_map};
ghost use Rattle.irig_timed.specs.declared.moment.Moment.{Moment};
ghost use Rattle.irig_stamps.specs.{Looks.moment_of, Reasons.IsKnownOf};
ghost use Rattle.irig_stamps.specs.Stamps.{IsTimeOf, IsWhyOf, added, taken};
ghost use Rattle.irig_stamps.specs.{Numbers.capped, declared.picos.Picos.Picos};

use crate::picos::Picos;
use crate::settings::Settings;
use irig_codes::Format;
use irig_timed::{Known, Moment, time_at, why_at};
use irig_times::Why;
use irig_track::Lens;

/// A moment so late, in picoseconds after the start of a track, has no time: 2^62.
const LATE: u128 = 4_611_686_018_427_387_904;

/// A moment after the end of each track, in picoseconds after its start: 2^62, as `LATE`.
const END: u64 = 4_611_686_018_427_387_904;

/// A microsecond, in picoseconds.
const PICOS: u128 = 1_000_000;

/// A recorder's time less the offset, as two numbers of picoseconds without a sign: the first less
/// the second.
fn span(settings: &Settings<'_>, picos: Picos) -> (u128, u128)
    requires { settings.now.offset ≤ 2 ^ 119 }
    ensures added { result.0 ≡ min (added settings.now picos) (2 ^ 128 - 1) }
    ensures taken { result.1 ≡ min (taken settings.now picos) (2 ^ 128 - 1) }
{
    match (settings.early, picos.negative) {
        (false, false) => (picos.size, settings.offset),
        (false, true) => (0, picos.size.saturating_add(settings.offset)),
        (true, false) => (picos.size.saturating_add(settings.offset), 0),
        (true, true) => (settings.offset, picos.size),
    }
}

/// When a recorder's time is, in picoseconds after the start of the track: that of the number in a
/// column, if there is one.
pub fn moment_of(settings: &Settings<'_>, number: Option<Picos>) -> Option<u128>
    requires { settings.now.offset ≤ 2 ^ 119 }
    ensures { (v : Option Picos) → number ≡ option_map capped v
        → result ≡ moment_of settings.now v }
{
    let Some(picos) = number else {
        return None;
    };
    let (added, taken) = span(settings, picos);
    if added < taken {
        return None;
    }
    let since = added - taken;
    if since < PICOS * settings.micros as u128 {
        Some(since)
    } else {
        None
    }
}

/// The moment of a recorder's time, with its time of year; `None` if it has none, is before the
/// track starts, or is later than any track is long (`LATE`).
pub fn time_of(
    pulses: &mut Lens<'_>,
    known: &Known,
    format: Format,
    settings: &Settings<'_>,
    picos: Picos,
) -> Option<Moment>
    requires known { IsKnownOf format settings.now pulses.old.track.pulses known.now }
    requires century { settings.now.century ≤ 99 }
    requires offset { settings.now.offset ≤ 2 ^ 119 }
    ensures exact { (v : Picos) → picos ≡ capped v → (x : Moment) → (result ≡ Some x)
        ↔ IsTimeOf format pulses.old.track.pulses settings.now v x }
    ensures low { IfSome result (λ x.
        (x.from < 2 ^ 27) × (x.to < 2 ^ 27) × (x.bound ≤ 20000000000)) }
    ensures pulses { pulses.new.track ≡ pulses.old.track }
{
    // The count is not used: the call's contract bounds the track, and the proof needs that.
    let _count = pulses.len();
    let (added, taken) = span(settings, picos);
    if added < taken {
        return None;
    }
    let since = added - taken;
    if since >= LATE {
        return None;
    }
    time_at(pulses, known, format, settings.century, since as u64)
}

/// Why a recorder's time has no time of year: `Before` if it is before the track starts, else what
/// `why_at` gives for its moment.
pub fn why_of(
    pulses: &mut Lens<'_>,
    known: &Known,
    format: Format,
    settings: &Settings<'_>,
    picos: Picos,
) -> Why
    requires known { IsKnownOf format settings.now pulses.old.track.pulses known.now }
    requires offset { settings.now.offset ≤ 2 ^ 119 }
    ensures why { (v : Picos) → picos ≡ capped v
        → IsWhyOf format pulses.old.track.pulses settings.now v result }
    ensures pulses { pulses.new.track ≡ pulses.old.track }
{
    // The count is not used: the call's contract bounds the track, and the proof needs that.
    let _count = pulses.len();
    let (added, taken) = span(settings, picos);
    if added < taken {
        return Why::Before;
    }
    let since = added - taken;
    if since >= LATE {
        return why_at(pulses, known, format, END);
    }
    why_at(pulses, known, format, since as u64)
}
