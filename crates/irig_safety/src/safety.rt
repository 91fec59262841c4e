//! Whether frames are safe, and why they are not: the new ones are judged in order by the former
//! ones.

ghost use Rattle.std.specs.Prelude.{◌≡◌, ◌↔◌, ◌-◌, ◌≤◌, ◌+◌, ◌∷◌, List, IsTrue, None, Option, Some};
ghost use Rattle.std.specs.Prelude.{Err, IfErr, IfOk, Ok, OnErr, OnOk, drop, if◌then◌else◌, length};
ghost use Rattle.std.specs.Prelude.{slice_get};
ghost use Rattle.irig_safety.specs.Faults.{FaultFrom, IsFault, JudgedAt};
ghost use Rattle.irig_safety.specs.Safety.{AreOfThemselves, IsSafe, IsSafeFrom, LeadOn, Stays};
ghost use Rattle.irig_safety.specs.Safety.{behind};
ghost use Rattle.irig_safety.specs.declared.fault.Fault.{Fault as SomeFault};
ghost use Rattle.irig_safety.specs.{Witnesses.is_borne, declared.shown.Shown.Shown as ShownFrame};

use crate::bearing::leads;
use crate::fault::Fault;
use crate::mended::mends;
use crate::near::{frame_at, frame_before, near_between};
use crate::shown::{Shown, is_same};
use crate::terms::Others;
use crate::witnesses::{Witnesses, is_borne};
use irig_codes::Format;

/// Whether the frames that read well now (`new`) are safe by those that did at first (`old`) and by
/// `others`. `Err` is the first fault, which is `Alone` if none read well at first.
pub fn check_safe(
    format: Format,
    others: &Others,
    old: &[Shown],
    new: &[Shown],
) -> Result<(), Fault>
    ensures safe { OnOk result (IsSafe format others.now old.now new.now) }
    ensures unsafe_so { OnErr result (IsSafe format others.now old.now new.now → ⊥) }
    ensures fault { IfErr result (IsFault format others.now old.now new.now) }
{
    if !old.is_empty() {
        return check_from(format, others, old, new);
    }
    if are_of_themselves(format, new) {
        Ok(())
    } else {
        Err(Fault::Alone)
    }
}

/// None, or at least three, each of which leads to the next: this project's own, as two can fit by
/// chance.
fn are_of_themselves(format: Format, new: &[Shown]) -> bool
    ensures { IsTrue result ↔ AreOfThemselves format new.now }
{
    new.is_empty() || new.len() >= 3 && lead_on(format, new)
}

/// True of fewer than two.
fn lead_on(format: Format, frames: &[Shown]) -> bool
    ensures { IsTrue result ↔ LeadOn format frames.now }
{
    for place in 1..frames.len() {
        if !leads(format, &frames[place - 1], &frames[place]) {
            return false;
        }
    }
    true
}

/// The first fault of the new frames; `Lost` if they are in order and a former one is left.
fn check_from(format: Format, others: &Others, old: &[Shown], new: &[Shown]) -> Result<(), Fault>
    ensures safe { OnOk result (IsSafeFrom format others.now None None old.now new.now) }
    ensures fault { IfErr result (FaultFrom format others.now None None old.now new.now) }
{
    let mut kept = 0;
    for frame in new {
        match passed(format, others, old, kept, frame) {
            Ok(count) => kept = count,
            Err(why) => return Err(why),
        }
    }
    match frame_at(old, kept) {
        Some(former) => Err(Fault::Lost(former)),
        None => Ok(()),
    }
}

/// Judges one more new frame. `kept` is how many former ones are passed so far, `Ok` how many are
/// then. A former one that begins earlier than `frame` is `Lost`; one that begins with it stays or
/// is `Changed`.
fn passed(
    format: Format,
    others: &Others,
    old: &[Shown],
    kept: usize,
    frame: &Shown,
) -> Result<usize, Fault>
    requires { kept ≤ length old.now }
    ensures within { IfOk result (λ place. place ≤ length old.now) }
    ensures safe { (rest : List ShownFrame) (found : Option SomeFault) → IfOk result (λ place.
        JudgedAt format others.now old.now place rest found
        → JudgedAt format others.now old.now kept (frame.now ∷ rest) found) }
    ensures fault { (rest : List ShownFrame) → IfErr result (λ why.
        JudgedAt format others.now old.now kept (frame.now ∷ rest) (Some why)) }
{
    let Some(former) = frame_at(old, kept) else {
        return passed_between(format, old, kept, frame);
    };
    if frame.rise < former.rise {
        return passed_between(format, old, kept, frame);
    }
    if former.rise < frame.rise {
        return Err(Fault::Lost(former));
    }
    if stays(format, others, old, kept, &former, frame) {
        Ok(kept + 1)
    } else {
        Err(Fault::Changed(former))
    }
}

/// Judges a frame that begins after `kept` former ones, when none does. It passes none.
fn passed_between(format: Format, old: &[Shown], kept: usize, frame: &Shown) -> Result<usize, Fault>
    requires { kept ≤ length old.now }
    ensures { result ≡ if is_borne format (behind (kept - 1) old.now) (behind kept old.now)
        (slice_get old.now kept) (slice_get old.now (kept + 1)) frame.now
        then Ok kept else Err (Fault.Unsupported frame.now) }
{
    if is_borne(format, &near_between(old, kept), frame) {
        Ok(kept)
    } else {
        Err(Fault::Unsupported(*frame))
    }
}

/// Whether `frame`, which begins when `former` does, is the same in all fields or mends it.
fn stays(
    format: Format,
    others: &Others,
    old: &[Shown],
    place: usize,
    former: &Shown,
    frame: &Shown,
) -> bool
    requires { slice_get old.now place ≡ Some former.now }
    ensures { IsTrue result ↔ Stays format others.now (behind (place - 1) old.now)
        (behind place old.now) former.now (drop (place + 1) old.now) frame.now }
{
    if is_same(former, frame) {
        return true;
    }
    let near = Witnesses {
        before2: frame_before(old, place.saturating_sub(1)),
        before: frame_before(old, place),
        after: frame_at(old, place + 1),
        after2: frame_at(old, place + 2),
    };
    mends(format, others, &near, former, frame)
}
