//! The short way: tokens of a wire's changes that are read in one step, which is fast.

ghost use Rattle.std.specs.Prelude.{◌≡◌, ◌↔◌, ◌≤◌, ◌<◌, List, Option, true, length, slice_index};
ghost use Rattle.std.specs.Prelude.{IfOk, OnErr};
ghost use Rattle.irig_vcd.specs.Code.Scanned.{IsTraced, Leads, Passes, Puts, Scans};
ghost use Rattle.irig_vcd.specs.{Code.Reached.IsOn, Code.Short.TakesBit, Code.Time.IsTime};
ghost use Rattle.irig_vcd.specs.{Code.Time.units_of, Code.Trace.EdgeBefore, Code.Trace.Follows};
ghost use Rattle.irig_vcd.specs.{Level.Change, Scan.Scan, Scan.closed, Times.micros_of, Words.Word};
ghost use Rattle.irig_vcd.specs.{Words.is_code, declared.fault.VcdFault.VcdFault};
ghost use Rattle.irig_vcd.specs.{declared.journals.Journals.Journals};
ghost use Rattle.irig_vcd.specs.{declared.pending.Pending.Pending};

use crate::fault::VcdFault;
use crate::pulses::take_pulses;
use crate::short::{LONGEST_CODE, Short};
use crate::time::{Clock, micros, time_of_number};
use crate::token::Tokens;
use crate::trace::Trace;
use crate::unit::Unit;
use crate::variable::is_code;
use std::alloc::AllocError;

/// Whether a code is plain: it has 1 to 18 printable bytes, from `!` to `~`.
pub fn is_plain(code: &[u8]) -> bool
    ensures some { result ≡ true → 0 < length code.now }
    ensures few { result ≡ true → length code.now ≤ 18 }
    ensures dark { result ≡ true → is_code code.now ≡ true }
{
    !code.is_empty() && code.len() <= LONGEST_CODE && is_code(code)
}

/// Whether whole pulses are taken: the unit is a microsecond or less, the code one plain byte.
pub fn is_quick(is_plain: bool, unit: Unit, code: &[u8]) -> bool
    ensures plain { result ≡ true → is_plain ≡ true }
    ensures unit { result ≡ true → unit ≤ 9 }
    ensures one { result ≡ true → length code.now ≡ 1 }
{
    is_plain && unit.divides_microsecond() && code.len() == 1
}

/// Takes tokens as long as they are short, and returns the time after them; `from` is the time
/// before them. `Backward` for a time before the last one, `TimeTooLarge` for one above 2^40
/// microseconds. `is_plain` and `is_quick` are asked once, by the caller.
#[inline(always)]
pub fn follow_short(
    is_plain: bool,
    is_quick: bool,
    tokens: &mut Tokens,
    unit: Unit,
    code: &[u8],
    from: Clock,
    trace: &mut Trace,
) -> Result<Clock, VcdFault>
    requires some { is_plain ≡ true → 0 < length code.now }
    requires few { is_plain ≡ true → length code.now ≤ 18 }
    requires dark { is_plain ≡ true → is_code code.now ≡ true }
    requires plain { is_quick ≡ true → is_plain ≡ true }
    requires unit { is_quick ≡ true → unit ≤ 9 }
    requires one { is_quick ≡ true → length code.now ≡ 1 }
    requires time { IsOn unit trace.old from }
    ensures time { IfOk result (λ now. IsOn unit trace.new now) }
    ensures scans { (end : Scan × Option VcdFault) (journals : Journals) (pending : Pending)
        → Leads code.now unit end trace.old from journals pending tokens.old
        → Scans unit end result
        (λ now. Leads code.now unit end trace.new now journals pending tokens.new) }
    ensures fewer { length tokens.new ≤ length tokens.old }
    ensures extent { trace.new.extent ≡ trace.old.extent }
{
    let mut clock = from;
    'tokens: loop {
        match tokens.next_short(code, is_plain) {
            Short::Time(number) => match time_of_number(unit, clock, number.value, number.offset) {
                Ok(now) => clock = now,
                Err(fault) => return Err(fault),
            },
            Short::Bit(high) => match take_bit(high, is_quick, tokens, unit, code, clock, trace) {
                Ok(now) => clock = now,
                Err(_) => return Err(VcdFault::OutOfMemory),
            },
            Short::Apart => {}
            Short::Other => return Ok(clock),
        }
    }
}

/// Whether a time begins at the place `at`.
#[inline(always)]
fn has_sign(source: &[u8], at: usize) -> bool
    ensures { result ≡ true ↔ (at < length source.now) × (slice_index source.now at ≡ 35) }
{
    at < source.len() && source[at] == b'#'
}

/// Takes the whole pulses that come next, and returns the time of the last fall, or `clock` without
/// any. It takes none unless `is_quick` is true, the level is low and the trace has a stretch.
#[inline(always)]
fn take_ahead(
    is_quick: bool,
    tokens: &mut Tokens,
    unit: Unit,
    code: &[u8],
    clock: Clock,
    trace: &mut Trace,
) -> Result<Clock, AllocError>
    requires unit { is_quick ≡ true → unit ≤ 9 }
    requires one { is_quick ≡ true → length code.now ≡ 1 }
    requires dark { is_quick ≡ true → is_code code.now ≡ true }
    requires time { IsTime unit clock }
    requires late { trace.old.time ≤ micros_of unit (units_of unit clock) }
    ensures passes { IfOk result (λ now. (s : Scan) → s.opened ≡ closed
        → IsTraced unit s trace.old clock
        → Passes code.now unit s tokens.old trace.new now tokens.new) }
    ensures fewer { length tokens.new ≤ length tokens.old }
    ensures extent { trace.new.extent ≡ trace.old.extent }
    ensures memory { OnErr result ((changes : List Change) → Follows changes trace.old
        → EdgeBefore (micros_of unit (units_of unit clock)) changes) }
{
    if is_quick && trace.is_low() && has_sign(tokens.source, tokens.at) {
        let Some(stretch) = trace.stretch() else {
            return Ok(clock);
        };
        let now = take_pulses(tokens, code[0], unit, clock, trace, stretch)?;
        return Ok(now);
    }
    Ok(clock)
}

/// Takes a value on the code, which was read just now: the trace gets its level (`high`) at the
/// time `clock`. Then takes the pulses after it, and returns the time of the last fall.
#[inline(always)]
fn take_bit(
    high: bool,
    is_quick: bool,
    tokens: &mut Tokens,
    unit: Unit,
    code: &[u8],
    clock: Clock,
    trace: &mut Trace,
) -> Result<Clock, AllocError>
    requires unit { is_quick ≡ true → unit ≤ 9 }
    requires one { is_quick ≡ true → length code.now ≡ 1 }
    requires dark { is_quick ≡ true → is_code code.now ≡ true }
    requires some { 0 < length code.now }
    requires time { IsOn unit trace.old clock }
    ensures time { IfOk result (λ now. IsOn unit trace.new now) }
    ensures scans { (words : List Word) (end : Scan × Option VcdFault) (journals : Journals)
        (pending : Pending) → TakesBit words tokens.old code.now high
        → Leads code.now unit end trace.old clock journals pending words
        → Puts unit end result
        (λ now. Leads code.now unit end trace.new now journals pending tokens.new) }
    ensures fewer { length tokens.new ≤ length tokens.old }
    ensures extent { trace.new.extent ≡ trace.old.extent }
{
    match trace.put(micros(unit, clock), high) {
        Ok(()) => take_ahead(is_quick, tokens, unit, code, clock, trace),
        Err(fault) => Err(fault),
    }
}
