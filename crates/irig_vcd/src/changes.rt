//! The changes of a wire, token by token: what comes after the declarations of a dump.

ghost use Rattle.std.specs.Prelude.{◌≡◌, ◌≤◌, ◌∷◌, [], Option, length, IfOk, OnOk};
ghost use Rattle.irig_vcd.specs.Code.Token.{kind_view, word_of};
ghost use Rattle.irig_vcd.specs.Code.Scanned.{IsAt, Leads, Scans};
ghost use Rattle.irig_vcd.specs.Scan.{Scan, scan_words};
ghost use Rattle.irig_vcd.specs.declared.fault.VcdFault.{VcdFault};
ghost use Rattle.irig_vcd.specs.{Code.Event.is_hash, Code.Reached.IsOn, Words.rest_of};

use crate::event::{take_level, take_open};
use crate::fault::VcdFault;
use crate::journals::Journals;
use crate::pending::Pending;
use crate::short_way::{follow_short, is_plain, is_quick};
use crate::time::{Clock, micros, time_of_digits};
use crate::token::{Kind, Token, Tokens};
use crate::trace::Trace;
use crate::unit::Unit;

/// Reads all tokens of a part, or of a whole dump, and returns the time after them; `from` is the
/// time before them. First come those that belong to what is open from the part before. Never
/// inlined, for speed: so it has all registers of the machine.
#[inline(never)]
pub fn follow(
    tokens: &mut Tokens,
    unit: Unit,
    code: &[u8],
    from: Clock,
    trace: &mut Trace,
    journals: &mut Journals,
    pending: &mut Pending,
) -> Result<Clock, VcdFault>
    requires time { IsOn unit trace.old from }
    ensures time { IfOk result (λ now. IsOn unit trace.new now) }
    ensures scans { (s : Scan) → IsAt unit s trace.old from journals.old pending.old
        → Scans unit (scan_words code.now unit s tokens.old) result
        (λ now. Leads code.now unit (scan_words code.now unit s tokens.old) trace.new now
        journals.new pending.new []) }
    ensures extent { trace.new.extent ≡ trace.old.extent }
{
    match resume(tokens, unit, code, from, trace, journals, pending) {
        Ok(()) => follow_on(tokens, unit, code, from, trace, journals, pending),
        Err(fault) => Err(fault),
    }
}

/// Takes the tokens that end the value or the comment that is open from the part before, if one is.
/// If it is still open then, no token is left.
fn resume(
    tokens: &mut Tokens,
    unit: Unit,
    code: &[u8],
    clock: Clock,
    trace: &mut Trace,
    journals: &mut Journals,
    pending: &mut Pending,
) -> Result<(), VcdFault>
    requires time { IsOn unit trace.old clock }
    ensures time { OnOk result (IsOn unit trace.new clock) }
    ensures scans { (s : Scan) → IsAt unit s trace.old clock journals.old pending.old
        → Scans unit (scan_words code.now unit s tokens.old) result
        (λ _. Leads code.now unit (scan_words code.now unit s tokens.old) trace.new clock
        journals.new pending.new tokens.new) }
    ensures fewer { length tokens.new ≤ length tokens.old }
    ensures extent { trace.new.extent ≡ trace.old.extent }
{
    if let Some(high) = take_open(code, tokens, journals, pending)? {
        trace.put(micros(unit, clock), high)?;
    }
    Ok(())
}

/// As `follow`, with nothing open before: in turns all that can be taken fast, and one token of any
/// kind. `is_plain` says that values on the code are taken fast, `is_quick` that whole pulses are.
#[inline(always)]
fn follow_on(
    tokens: &mut Tokens,
    unit: Unit,
    code: &[u8],
    from: Clock,
    trace: &mut Trace,
    journals: &mut Journals,
    pending: &mut Pending,
) -> Result<Clock, VcdFault>
    requires time { IsOn unit trace.old from }
    ensures time { IfOk result (λ now. IsOn unit trace.new now) }
    ensures scans { (end : Scan × Option VcdFault)
        → Leads code.now unit end trace.old from journals.old pending.old tokens.old
        → Scans unit end result
        (λ now. Leads code.now unit end trace.new now journals.new pending.new []) }
    ensures extent { trace.new.extent ≡ trace.old.extent }
{
    let is_plain = is_plain(code);
    let is_quick = is_quick(is_plain, unit, code);
    let mut clock = from;
    'tokens: loop {
        match follow_short(is_plain, is_quick, tokens, unit, code, clock, trace) {
            Ok(now) => clock = now,
            Err(fault) => return Err(fault),
        }
        let Some(token) = tokens.next() else {
            return Ok(clock);
        };
        match take_token(token, tokens, unit, code, clock, trace, journals, pending) {
            Ok(now) => clock = now,
            Err(fault) => return Err(fault),
        }
    }
}

/// Takes `token`, which is of any kind, with what belongs to it, and returns the time after it. A
/// level that the wire gets by it goes into the trace. Never inlined: so the loop of `follow_short`
/// keeps its values in registers.
#[inline(never)]
fn take_token(
    token: Token<'_>,
    tokens: &mut Tokens,
    unit: Unit,
    code: &[u8],
    clock: Clock,
    trace: &mut Trace,
    journals: &mut Journals,
    pending: &mut Pending,
) -> Result<Clock, VcdFault>
    requires time { IsOn unit trace.old clock }
    ensures time { IfOk result (λ now. IsOn unit trace.new now) }
    ensures scans { (end : Scan × Option VcdFault)
        → Leads code.now unit end trace.old clock journals.old pending.old
        (word_of token.entry ∷ tokens.old)
        → Scans unit end result
        (λ now. Leads code.now unit end trace.new now journals.new pending.new tokens.new) }
    ensures fewer { length tokens.new ≤ length tokens.old }
    ensures extent { trace.new.extent ≡ trace.old.extent }
{
    if is_hash(token.kind) {
        return time_of_digits(unit, clock, digits_of(token.slice), token.offset);
    }
    if let Some(high) = take_level(code, token, tokens, journals, pending)? {
        trace.put(micros(unit, clock), high)?;
    }
    Ok(clock)
}

fn is_hash(kind: Kind) -> bool
    ensures { result ≡ is_hash (kind_view kind) }
{
    matches!(kind, Kind::Hash)
}

/// A word without its first byte, as the digits of `#120`; empty if the word is.
fn digits_of(word: &[u8]) -> &[u8]
    ensures { result.now ≡ rest_of word.now }
{
    match word {
        [_, digits @ ..] => digits,
        [] => word,
    }
}
