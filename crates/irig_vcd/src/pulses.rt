//! Pulses that are read in one step: a rise and a fall, each as `#120` and `1!` on two lines.

ghost use Rattle.std.specs.Prelude.{◌≡◌, ◌≤◌, ◌<◌, ◌+◌, ◌∷◌, [], true, false, length};
ghost use Rattle.std.specs.Prelude.{IfSome, IfOk, OnErr};
ghost use Rattle.irig_vcd.specs.Code.Along.{LiesOn, TakesEdge, at_micros};
ghost use Rattle.irig_vcd.specs.Code.Scanned.{IsTraced, Passes};
ghost use Rattle.irig_vcd.specs.{Scan.Scan, Scan.closed, Code.Time.IsTime, Words.is_code};

use crate::edge::{Edge, edge_at};
use crate::stretch::Stretch;
use crate::time::Clock;
use crate::token::Tokens;
use crate::trace::Trace;
use crate::unit::Unit;
use std::alloc::AllocError;

/// Two edges have at most 40 bytes, and `edge_at` reads up to 32 from an edge on.
const LONGEST_PULSE: usize = 64;

/// The rise and the fall at the place `at`, in microseconds later than `after` and up to `limit`.
/// `back` and `room` are what `edge_at` needs for both.
#[inline(always)]
fn pulse_at(
    source: &[u8],
    at: usize,
    code: u8,
    unit: Unit,
    after: u64,
    limit: u64,
) -> Option<(Edge, Edge)>
    requires back { 16 ≤ at }
    requires room { at + 64 ≤ length source.now }
    requires dark { is_code (code ∷ []) ≡ true }
    ensures rise { IfSome result (λ p. TakesEdge source.now at true code unit p.0) }
    ensures fall { IfSome result (λ p. TakesEdge source.now p.0.end false code unit p.1) }
    ensures late { IfSome result (λ p. (after < p.0.time.whole)
        × (p.0.time.whole < p.1.time.whole) × (p.1.time.whole ≤ limit)) }
{
    let Some(rise) = edge_at(source, at, true, code, unit) else {
        return None;
    };
    let Some(fall) = edge_at(source, rise.end, false, code, unit) else {
        return None;
    };
    let (up, down) = (rise.time.whole, fall.time.whole);
    if up <= after || down <= up || down > limit {
        return None;
    }
    Some((rise, fall))
}

/// Takes the pulses that come next into the trace, and returns the time of the last fall, or `from`
/// if there are none. A microsecond (9) and a nanosecond (6) are passed on as constants: so times
/// are cut faster. Never inlined, for speed: so its state stays in registers.
#[inline(never)]
pub fn take_pulses(
    tokens: &mut Tokens,
    code: u8,
    unit: Unit,
    from: Clock,
    trace: &mut Trace,
    stretch: Stretch,
) -> Result<Clock, AllocError>
    requires unit { unit ≤ 9 }
    requires dark { is_code (code ∷ []) ≡ true }
    requires here { LiesOn stretch trace.old }
    requires late { trace.old.time ≤ from.whole }
    requires time { IsTime unit from }
    ensures passes { IfOk result (λ now. (s : Scan) → s.opened ≡ closed
        → IsTraced unit s trace.old from
        → Passes (code ∷ []) unit s tokens.old trace.new now tokens.new) }
    ensures fewer { length tokens.new ≤ length tokens.old }
    ensures extent { trace.new.extent ≡ trace.old.extent }
    ensures kept { OnErr result (stretch.is_kept ≡ true) }
{
    if unit.is_microsecond() {
        let whole = take_in_micros(tokens, code, from.whole, trace, stretch)?;
        return Ok(Clock { whole, rest: 0 });
    }
    if unit.is_nanosecond() {
        return take_in_unit(tokens, code, Unit::new(6), from, trace, stretch);
    }
    take_in_unit(tokens, code, unit, from, trace, stretch)
}

/// What `take_pulses` does if the unit is the microsecond: then a time has no rest.
#[inline(never)]
fn take_in_micros(
    tokens: &mut Tokens,
    code: u8,
    from: u64,
    trace: &mut Trace,
    stretch: Stretch,
) -> Result<u64, AllocError>
    requires dark { is_code (code ∷ []) ≡ true }
    requires here { LiesOn stretch trace.old }
    requires late { trace.old.time ≤ from }
    ensures passes { IfOk result (λ time. (s : Scan) → s.opened ≡ closed
        → IsTraced 9 s trace.old (at_micros from)
        → Passes (code ∷ []) 9 s tokens.old trace.new (at_micros time) tokens.new) }
    ensures fewer { length tokens.new ≤ length tokens.old }
    ensures extent { trace.new.extent ≡ trace.old.extent }
    ensures kept { OnErr result (stretch.is_kept ≡ true) }
{
    let from = Clock {
        whole: from,
        rest: 0,
    };
    let clock = take_in_unit(tokens, code, Unit::new(9), from, trace, stretch)?;
    Ok(clock.whole)
}

/// The loop over the pulses. It stops at the first place that has no pulse (`pulse_at`), that has
/// not 16 bytes before it and 64 after it, or for which the trace has no room. What is not taken
/// here is read in the slower way.
#[inline(always)]
fn take_in_unit(
    tokens: &mut Tokens,
    code: u8,
    unit: Unit,
    from: Clock,
    trace: &mut Trace,
    stretch: Stretch,
) -> Result<Clock, AllocError>
    requires unit { unit ≤ 9 }
    requires dark { is_code (code ∷ []) ≡ true }
    requires here { LiesOn stretch trace.old }
    requires late { trace.old.time ≤ from.whole }
    ensures passes { IfOk result (λ now. (s : Scan) → s.opened ≡ closed
        → IsTraced unit s trace.old from
        → Passes (code ∷ []) unit s tokens.old trace.new now tokens.new) }
    ensures fewer { length tokens.new ≤ length tokens.old }
    ensures extent { trace.new.extent ≡ trace.old.extent }
    ensures kept { OnErr result (stretch.is_kept ≡ true) }
{
    let source = tokens.source;
    // The proof alone uses this.
    let base = tokens.base;
    let mut at = tokens.at;
    if at < 16 {
        return Ok(from);
    }
    let mut clock = from;
    while source.len() - at >= LONGEST_PULSE {
        let Some((rise, fall)) = pulse_at(source, at, code, unit, clock.whole, stretch.limit) else {
            break;
        };
        if stretch.is_kept && !trace.has_room(stretch) {
            break;
        }
        trace.put_pulse(rise.time.whole, fall.time.whole, stretch)?;
        clock = fall.time;
        at = fall.end;
    }
    tokens.at = at;
    Ok(clock)
}
