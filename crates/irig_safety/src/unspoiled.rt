//! Whether the frames that read well before an edit (`last`) still do after it (`new`).

ghost use Rattle.std.specs.Prelude.{◌≤◌, ◌∷◌, List, Option, Some};
ghost use Rattle.std.specs.Prelude.{IfErr, IfOk, OnErr, OnOk, drop, length};
ghost use Rattle.irig_safety.specs.Faults.{Finds, IsSpoiledBy};
ghost use Rattle.irig_safety.specs.Safety.{NoneIsSpoiled};
ghost use Rattle.irig_safety.specs.declared.fault.Fault.{Fault as SomeFault};
ghost use Rattle.irig_safety.specs.{declared.shown.Shown.Shown as ShownFrame};

use crate::fault::Fault;
use crate::near::frame_at;
use crate::shown::Shown;

/// Whether one of `new` begins when each of `last` does; what they say is not compared.
pub fn check_unspoiled(last: &[Shown], new: &[Shown]) -> Result<(), Fault>
    ensures kept { OnOk result (NoneIsSpoiled last.now new.now) }
    ensures spoiled { OnErr result (NoneIsSpoiled last.now new.now → ⊥) }
    ensures fault { IfErr result (IsSpoiledBy last.now new.now) }
{
    let mut found = 0;
    for frame in new {
        match found_after(last, found, frame) {
            Ok(count) => found = count,
            Err(why) => return Err(why),
        }
    }
    match frame_at(last, found) {
        Some(former) => Err(Fault::Lost(former)),
        None => Ok(()),
    }
}

/// Looks at one more new frame: `Ok` is how many of `last` are found with it, and `Lost` the next
/// one if that begins earlier.
fn found_after(last: &[Shown], found: usize, frame: &Shown) -> Result<usize, Fault>
    requires { found ≤ length last.now }
    ensures within { IfOk result (λ place. place ≤ length last.now) }
    ensures kept { (rest : List ShownFrame) (why : Option SomeFault) → IfOk result (λ place.
        Finds (drop place last.now) rest why → Finds (drop found last.now) (frame.now ∷ rest) why) }
    ensures fault { (rest : List ShownFrame) → IfErr result (λ why.
        Finds (drop found last.now) (frame.now ∷ rest) (Some why)) }
{
    let Some(former) = frame_at(last, found) else {
        return Ok(found);
    };
    if frame.rise < former.rise {
        return Ok(found);
    }
    if former.rise < frame.rise {
        Err(Fault::Lost(former))
    } else {
        Ok(found + 1)
    }
}
