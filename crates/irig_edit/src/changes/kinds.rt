//! How single changes turn, in the track and in the marks alone.

ghost use Rattle.std.specs.Prelude.{◌≡◌, ◌≤◌, ◌<◌, ◌+◌, ◌-◌, neg_ℤ, length, get_or, slice_set};
ghost use Rattle.std.specs.Prelude.{None, IsTrue};
ghost use Rattle.std.specs.List.{AllByRecursion};
ghost use Rattle.irig_codes.specs.Format.{is_permitted};
ghost use Rattle.irig_track.specs.Shifts.{CanShift, count_to, shifted};
ghost use Rattle.irig_track.specs.Toggles.{CanToggle, toggled};
ghost use Rattle.irig_track.specs.{Splices.IsSpan, Splices.risen_by, Edges.edges_of};
ghost use Rattle.irig_edit.specs.Changes.Looks.{standing_in};
ghost use Rattle.irig_edit.specs.{State.Marks.marks_moved, State.State.IsMark};

use crate::state::marks::move_marks;
use irig_codes::{Format, Kind};
use irig_saved::{Letters, Marks};
use irig_track::{Span, Track};

/// Inverts the level from time `a` to time `b`, as `can_toggle` allows; the same toggle leads back.
/// The track has one free place. Of the pulses that touch the stretch afterwards at most one rose
/// before `a`, and at most one is new (`few`), which bounds the looks.
pub(crate) fn turn_toggle(track: &mut Track, a: u64, b: u64) -> Span
    requires can { CanToggle track.old.micros a b track.old.pulses }
    requires spare { 0 < track.old.spare }
    ensures micros { track.new.micros ≡ track.old.micros }
    ensures pulses { edges_of track.new.pulses ≡ toggled a b (edges_of track.old.pulses) }
    ensures places { length track.new.pulses + track.new.spare
        ≡ length track.old.pulses + track.old.spare }
    ensures size { result.new ≡ standing_in a b track.new.pulses }
    ensures few { (result.new ≤ length track.old.pulses + 1)
        × (result.new ≤ risen_by b track.old.pulses - risen_by a track.old.pulses + 2) }
    ensures spanned { IsSpan result.at result.old result.new track.old.pulses track.new.pulses }
{
    let _before = track.len();
    let span = track.toggle(a, b);
    let _after = track.len();
    span
}

/// Moves the pulses `i` to `j`, both included and from 0, with the marks of the letters that are
/// true in `letters`. As the shift can be made, `by` is no longer than the track, and `-by` does
/// not overflow.
pub(crate) fn turn_shift(
    track: &mut Track,
    marks: &mut Marks,
    i: usize,
    j: usize,
    by: &mut i64,
    letters: &Letters,
) -> Span
    requires can { CanShift track.old.micros i j by.old track.old.pulses }
    requires marks { AllByRecursion (IsMark track.old.micros) marks.old }
    ensures track { (track.new.micros ≡ track.old.micros)
        × (track.new.pulses ≡ shifted i j by.old track.old.pulses) }
    ensures marks { marks.new ≡ marks_moved by.old letters.now marks.old }
    ensures back { by.new ≡ neg_ℤ by.old }
    ensures places { length track.new.pulses + track.new.spare
        ≡ length track.old.pulses + track.old.spare }
    ensures size { result.new ≡ count_to i j }
    ensures spanned { IsSpan result.at result.old result.new track.old.pulses track.new.pulses }
{
    let distance = *by;
    let _len = track.len();
    move_marks(marks, letters, distance);
    let span = track.shift(i, j, distance);
    *by = -distance;
    span
}

/// Swaps the mark of a letter, 0 (a) to 25, with `time`, which is then the former mark.
pub(crate) fn turn_mark(marks: &mut Marks, letter: usize, time: &mut Option<u64>)
    requires { letter < 26 }
    ensures marks { marks.new ≡ slice_set marks.old letter time.old }
    ensures back { time.new ≡ get_or marks.old letter None }
{
    let before = marks[letter];
    marks[letter] = *time;
    *time = before;
}

/// The format that has this kind of time code, such as B, and this coded expression, 0 to 7. The
/// caller has tested that the kind permits the expression, so `Format::new` has no error.
pub(crate) fn permitted(kind: Kind, expression: u8) -> Format
    requires { IsTrue (is_permitted kind expression) }
    ensures { (result.kind ≡ kind) × (result.expression ≡ expression) }
{
    match Format::new(kind, expression) {
        Ok(format) => format,
        Err(_) => unreachable!(),
    }
}
