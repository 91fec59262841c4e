//! Which of the frames next to a place are heard: those that may bear out a frame there.

ghost use Rattle.std.specs.Prelude.{◌≡◌};
ghost use Rattle.irig_safety.specs.Heard.{heard, is_disputed, is_overruled, witnesses};

use crate::bearing::allows;
use crate::shown::Shown;
use crate::witnesses::Witnesses;
use irig_codes::Format;

/// Whether `before` and `after` contradict a frame, and do not contradict each other.
fn is_overruled(
    format: Format,
    before: Option<Shown>,
    frame: Option<Shown>,
    after: Option<Shown>,
) -> bool
    ensures { result ≡ is_overruled format before frame after }
{
    match (before, frame, after) {
        (Some(before), Some(frame), Some(after)) => {
            !allows(format, &before, &frame)
                && !allows(format, &frame, &after)
                && allows(format, &before, &after)
        }
        _ => false,
    }
}

/// Whether one side has no frame (`opposite`), and the two of the other contradict each other.
fn is_disputed(
    format: Format,
    opposite: Option<Shown>,
    first: Option<Shown>,
    second: Option<Shown>,
) -> bool
    ensures { result ≡ is_disputed format opposite first second }
{
    match (opposite, first, second) {
        (None, Some(first), Some(second)) => !allows(format, &first, &second),
        _ => false,
    }
}

fn witnesses(
    before2: Option<Shown>,
    before: Option<Shown>,
    after: Option<Shown>,
    after2: Option<Shown>,
) -> Witnesses
    ensures { result ≡ witnesses before2 before after after2 }
{
    Witnesses {
        before2,
        before,
        after,
        after2,
    }
}

/// If just one of the two nearest is overruled, the next one on its side replaces it. None is heard
/// if one side has no frame and the two of the other are disputed.
pub fn heard(format: Format, near: &Witnesses) -> Witnesses
    ensures { result
        ≡ heard format near.now.before2 near.now.before near.now.after near.now.after2 }
{
    let without_after = is_overruled(format, near.before, near.after, near.after2);
    let without_before = is_overruled(format, near.before2, near.before, near.after);
    if without_after && !without_before {
        witnesses(near.before2, near.before, near.after2, None)
    } else if without_before && !without_after {
        witnesses(None, near.before2, near.after, near.after2)
    } else if is_disputed(format, near.before, near.after, near.after2)
        || is_disputed(format, near.after, near.before2, near.before)
    {
        witnesses(None, None, None, None)
    } else {
        *near
    }
}
