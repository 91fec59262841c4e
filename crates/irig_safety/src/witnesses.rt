//! Whether the frames on both sides of a frame bear out its time.

ghost use Rattle.std.specs.Prelude.{◌≡◌, Some};
ghost use Rattle.irig_safety.specs.Witnesses.{allows_from, allows_to, bears, is_borne, is_led};
ghost use Rattle.irig_safety.specs.Witnesses.{sides_suffice};

use crate::bearing::{allows, is_within, leads};
use crate::heard::heard;
use crate::own_clock::is_on_own_clock;
use crate::shown::Shown;
use crate::timed::is_timed;
use irig_codes::Format;

/// The two frames before a place, the nearer one last, and the two after it, the nearer one first.
#[derive(Clone, Copy)]
pub struct Witnesses {
    pub before2: Option<Shown>,
    pub before: Option<Shown>,
    pub after: Option<Shown>,
    pub after2: Option<Shown>,
}

fn is_led(format: Format, before: Option<Shown>, after: Option<Shown>, frame: &Shown) -> bool
    ensures { result ≡ is_led format before after frame.now }
{
    match (before, after) {
        (None, None) => false,
        (Some(before), None) => leads(format, &before, frame),
        (None, Some(after)) => leads(format, frame, &after),
        (Some(before), Some(after)) => is_led_by(format, &before, &after, frame),
    }
}

/// Whether `before` leads to `frame` or `frame` to `after`, and strays little more than the whole.
fn is_led_by(format: Format, before: &Shown, after: &Shown, frame: &Shown) -> bool
    ensures { result ≡ is_led format (Some before.now) (Some after.now) frame.now }
{
    leads(format, before, frame) && is_within(format, before, after, before, frame)
        || leads(format, frame, after) && is_within(format, before, after, frame, after)
}

/// False if the frame before contradicts it; true if there is none.
pub fn allows_from(format: Format, before: Option<Shown>, frame: &Shown) -> bool
    ensures { result ≡ allows_from format before frame.now }
{
    match before {
        Some(before) => allows(format, &before, frame),
        None => true,
    }
}

/// False if the frame after contradicts it; true if there is none.
pub fn allows_to(format: Format, frame: &Shown, after: Option<Shown>) -> bool
    ensures { result ≡ allows_to format frame.now after }
{
    match after {
        Some(after) => allows(format, frame, &after),
        None => true,
    }
}

/// One side suffices, but for an inserted second 60: by one side alone, second 0 of the next minute
/// (from before) or 59 (from after) fits just as well.
fn sides_suffice(near: &Witnesses, frame: &Shown) -> bool
    ensures { result ≡ sides_suffice near.now.before near.now.after frame.now }
{
    frame.fields.seconds <= 59 || near.before.is_some() && near.after.is_some()
}

/// There have to be enough sides. Then the recording's own clock is enough; without it no nearest
/// frame may contradict it, and one must lead (`is_led`), or a clock of theirs fit (`is_timed`).
fn bears(format: Format, near: &Witnesses, frame: &Shown) -> bool
    ensures { result ≡ bears format near.now frame.now }
{
    ((is_led(format, near.before, near.after, frame) || is_timed(format, near, frame))
        && (allows_from(format, near.before, frame) && allows_to(format, frame, near.after))
        || is_on_own_clock(format, near, frame))
        && sides_suffice(near, frame)
}

/// Whether those of the frames next to a frame that are heard bear out its time.
pub fn is_borne(format: Format, near: &Witnesses, frame: &Shown) -> bool
    ensures { result ≡ is_borne format near.now.before2 near.now.before near.now.after
        near.now.after2 frame.now }
{
    bears(format, &heard(format, near), frame)
}
