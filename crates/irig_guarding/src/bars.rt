//! Which repairs of a script are barred, as what was kept with them did not agree with the
//! recording.

ghost use Rattle.std.specs.Prelude.{◌≡◌, ◌≤◌, ◌<◌, ℕ, List, Some, None, OnOk, get_or, length, slice_get};
ghost use Rattle.irig_codes.specs.Format.{FormatView};
ghost use Rattle.irig_agreement.specs.declared.fault.Fault.{Fault as SomeFault};
ghost use Rattle.irig_guarding.specs.{Agreeing.HasLedTo, Bars.AreBars, Bars.HaveLedTo, Bars.IsRepairAt};
ghost use Rattle.irig_recording.specs.declared.pulse.Pulse.{Pulse as SomePulse};

use crate::kept::KeptAt;
use irig_agreement::Fault;
use irig_safety::Shown;
use std::alloc::AllocError;

/// From this on rounds are late: this project's own choice.
const FEW: u64 = 8;

/// Why the repair is barred that begins at this line, from 0; `None` if it is not.
pub fn bar_at(bars: &[Option<Fault>], at: usize) -> Option<Fault>
    ensures { result ≡ get_or bars.now at None }
{
    if at < bars.len() { bars[at] } else { None }
}

/// Bars repairs that were kept at faults (`bar_by`).
pub fn bar_near(
    bars: &mut Vec<Option<Fault>>,
    kept: &[KeptAt],
    frames: &[Shown],
    faults: &[Fault],
    times: u64,
) -> Result<(), AllocError>
    ensures { (recorded : List SomePulse) (f : FormatView) (lines : List (List ℕ))
        → ((i : ℕ) (why : SomeFault) → slice_get faults.now i ≡ Some why
        → HaveLedTo recorded f lines kept.now why) → AreBars recorded f lines bars.old.items
        → OnOk result (AreBars recorded f lines bars.new.items) }
{
    for fault in faults {
        bar_by(bars, kept, frames, *fault, times)?;
    }
    Ok(())
}

/// Bars what was kept around a fault (`span_of`).
fn bar_by(
    bars: &mut Vec<Option<Fault>>,
    kept: &[KeptAt],
    frames: &[Shown],
    fault: Fault,
    times: u64,
) -> Result<(), AllocError>
    ensures { (recorded : List SomePulse) (f : FormatView) (lines : List (List ℕ))
        → HaveLedTo recorded f lines kept.now fault → AreBars recorded f lines bars.old.items
        → OnOk result (AreBars recorded f lines bars.new.items) }
{
    let (begin, end) = span_of(kept, frames, fault.moment, times);
    bar_between(bars, kept, begin, end, fault)
}

/// From where to before where repairs are barred: between the `frames` around a moment. If none was
/// kept there, or in a late round, it is from the nearest one on each side on, and all up to that
/// many times as far.
fn span_of(kept: &[KeptAt], frames: &[Shown], moment: u64, times: u64) -> (u64, u64) {
    let (begin, end) = stretch_of(frames, moment);
    if times <= FEW && is_any_between(kept, begin, end) {
        return (begin, end);
    }
    let before = nearest(kept, moment, true).saturating_mul(times);
    let after = nearest(kept, moment, false).saturating_mul(times);
    let last = moment.saturating_add(after);
    (moment.saturating_sub(before), last.saturating_add(1))
}

fn is_any_between(kept: &[KeptAt], begin: u64, end: u64) -> bool {
    for at in kept {
        if begin <= at.moment && at.moment < end {
            return true;
        }
    }
    false
}

/// When the last frame begins that begins by a moment, and the next one.
fn stretch_of(frames: &[Shown], moment: u64) -> (u64, u64) {
    let mut begin = 0;
    for frame in frames {
        if frame.rise > moment {
            return (begin, frame.rise);
        }
        begin = frame.rise;
    }
    (begin, u64::MAX)
}

/// How far it is from a moment to the nearest repair before it, or after it; the largest number if
/// there is none.
fn nearest(kept: &[KeptAt], moment: u64, is_before: bool) -> u64 {
    let mut least = u64::MAX;
    for at in kept {
        if is_before == (at.moment <= moment) {
            least = least.min(at.moment.abs_diff(moment));
        }
    }
    least
}

/// Bars those that were kept from one moment to before another.
fn bar_between(
    bars: &mut Vec<Option<Fault>>,
    kept: &[KeptAt],
    begin: u64,
    end: u64,
    fault: Fault,
) -> Result<(), AllocError>
    ensures { (recorded : List SomePulse) (f : FormatView) (lines : List (List ℕ))
        → HaveLedTo recorded f lines kept.now fault → AreBars recorded f lines bars.old.items
        → OnOk result (AreBars recorded f lines bars.new.items) }
{
    for at in kept {
        bar_if(bars, at.line, fault, begin <= at.moment && at.moment < end)?;
    }
    Ok(())
}

/// Bars the repair that begins at a line, if so.
fn bar_if(
    bars: &mut Vec<Option<Fault>>,
    line: usize,
    fault: Fault,
    so: bool,
) -> Result<(), AllocError>
    ensures { (recorded : List SomePulse) (f : FormatView) (lines repair : List (List ℕ))
        → IsRepairAt lines line repair → HasLedTo recorded f repair fault
        → AreBars recorded f lines bars.old.items
        → OnOk result (AreBars recorded f lines bars.new.items) }
{
    if so {
        return bar(bars, line, fault);
    }
    Ok(())
}

/// Bars the repair that begins at a line.
fn bar(bars: &mut Vec<Option<Fault>>, line: usize, fault: Fault) -> Result<(), AllocError>
    ensures { (recorded : List SomePulse) (f : FormatView) (lines repair : List (List ℕ))
        → IsRepairAt lines line repair → HasLedTo recorded f repair fault
        → AreBars recorded f lines bars.old.items
        → OnOk result (AreBars recorded f lines bars.new.items) }
{
    lengthen(bars, line)?;
    if line < bars.len() {
        bars[line] = Some(fault);
        return Ok(());
    }
    bars.push(Some(fault))?;
    Ok(())
}

/// Makes a list that long, with repairs that are not barred: it has none past the last one that is.
fn lengthen(bars: &mut Vec<Option<Fault>>, many: usize) -> Result<(), AllocError>
    ensures long { OnOk result (many ≤ length bars.new.items) }
    ensures same { OnOk result ((at : ℕ) → get_or bars.new.items at None
        ≡ get_or bars.old.items at None) }
{
    for _place in bars.len()..many {
        bars.push(None)?;
    }
    Ok(())
}
