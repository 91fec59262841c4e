//! The time of a moment, and how far it can be off.

ghost use Rattle.std.specs.Prelude.{◌≡◌, ◌↔◌, ◌<◌, ◌≤◌, ◌+◌, ◌^◌, ◌/◌, ℕ, Bool, List, Some, IfSome};
ghost use Rattle.std.specs.Prelude.{length};
ghost use Rattle.irig_law.specs.declared.frame.Frame.{Frame};
ghost use Rattle.irig_track.specs.{Looks.LookedThrough, Splices.risen_by};
ghost use Rattle.irig_timed.specs.{Knowns.IsKnownBy, Moments.IsMomentOn, Reasons.IsWhyBy};
ghost use Rattle.irig_timed.specs.{Reasons.reason_in, declared.moment.Moment.Moment};

use crate::apart::elements_after;
use crate::around::Around;
use crate::gap::Gap;
use crate::known::Known;
use crate::line::time_on;
use irig_codes::Format;
use irig_times::{Time, Why};
use irig_track::Lens;

/// The picoseconds of a microsecond.
const PICOS: u64 = 1_000_000;

/// The time of a moment between two pulses, and by how many trillionths of an interval the line
/// between them can be off.
#[derive(Clone, Copy)]
pub struct Moment {
    pub time: Time,
    pub bound: u64,
    /// The number of the first pulse, from 0.
    pub from: usize,
    pub to: usize,
}

/// The time `picos` picoseconds after the start of a track. `None` unless a line that is nearly
/// right goes from the last pulse with a time that has risen by then to the next one.
pub fn time_at(
    pulses: &mut Lens<'_>,
    known: &Known,
    format: Format,
    century: u32,
    picos: u64,
) -> Option<Moment>
    requires century { century ≤ 99 }
    requires known { (believed : List Frame) × (held : List Bool)
        × IsKnownBy format century pulses.old.track.pulses believed held known.now }
    ensures exact { (believed : List Frame) (held : List Bool)
        → IsKnownBy format century pulses.old.track.pulses believed held known.now
        → (x : Moment) → (result ≡ Some x)
        ↔ IsMomentOn format century pulses.old.track.pulses believed 1000000 picos x }
    ensures low { IfSome result (λ x.
        (x.from < 2 ^ 27) × (x.to < 2 ^ 27) × (x.bound ≤ 20000000000)) }
    ensures pulses { pulses.new.track ≡ pulses.old.track }
    ensures looked { (digits : ℕ) → length pulses.old.track.pulses < 2 ^ digits →
        LookedThrough pulses.old pulses.new (digits + 2) }
{
    let risen = pulses.find(picos / PICOS);
    let around = Around::of(&known.runs, &known.gaps, risen);
    let Some(line) = around.line() else {
        return None;
    };
    let begin = pulses.pulse(line.from.number).rise;
    let end = pulses.pulse(line.to.number).rise;
    let elements = elements_after(format, century, &line.from.point, &line.to.point);
    let part = picos - PICOS * begin;
    let whole = PICOS * (end - begin);
    let time = time_on(
        format,
        &line.from.point,
        &line.to.point,
        elements,
        part,
        whole,
    );
    Some(Moment {
        time,
        bound: line.bound,
        from: line.from.number,
        to: line.to.number,
    })
}

/// Why the moment `picos` picoseconds after the start has no time. The answer means nothing if the
/// moment has one.
pub fn why_at(pulses: &mut Lens<'_>, known: &Known, format: Format, picos: u64) -> Why
    requires known { (century : ℕ) × (believed : List Frame) × (held : List Bool)
        × IsKnownBy format century pulses.old.track.pulses believed held known.now }
    ensures why { (century : ℕ) (believed : List Frame) (held : List Bool)
        → IsKnownBy format century pulses.old.track.pulses believed held known.now
        → IsWhyBy format century pulses.old.track.pulses believed held
        (risen_by (picos / 1000000) pulses.old.track.pulses) result }
    ensures pulses { pulses.new.track ≡ pulses.old.track }
{
    let risen = pulses.find(picos / PICOS);
    let around = Around::of(&known.runs, &known.gaps, risen);
    reason_in(around.gap)
}

/// The reason of what is between two pulses.
fn reason_in(gap: Gap) -> Why
    ensures { result ≡ reason_in gap }
{
    match gap {
        Gap::Line(_) => Why::Hole,
        Gap::Untimed(why) => why,
    }
}
