//! Marks, and times that are moved.

ghost use Rattle.std.specs.Prelude.{◌≡◌, ◌≤◌, ◌^◌, ◌↔◌, IsTrue, map};
ghost use Rattle.std.specs.List.{AllByRecursion};
ghost use Rattle.irig_edit.specs.State.Marks.{AllMayMove, MayMove, marks_moved, moved_if};
ghost use Rattle.irig_edit.specs.State.Marks.{moved_time, stands};
ghost use Rattle.irig_edit.specs.State.State.{IsMark};

use irig_saved::{Letters, Marks};

/// A time moved by `by`, both in microseconds. No time is above 2^40, so the sum does not overflow.
pub(crate) fn moved_time(time: u64, by: i64) -> u64
    requires { time ≤ 2 ^ 40 }
    ensures { result ≡ moved_time by time }
{
    if by < 0 {
        time.saturating_sub(by.unsigned_abs())
    } else {
        time + by.unsigned_abs()
    }
}

/// The mark moved by `by`, if it is set and `named` is true.
fn moved_if(mark: Option<u64>, named: bool, by: i64) -> Option<u64>
    requires { IsMark (2 ^ 40) mark }
    ensures { result ≡ moved_if by named mark }
{
    match mark {
        Some(time) if named => Some(moved_time(time, by)),
        unmoved => unmoved,
    }
}

/// Moves the marks of the letters that are true in `letters`.
pub(crate) fn move_marks(marks: &mut Marks, letters: &Letters, by: i64)
    requires { AllByRecursion (IsMark (2 ^ 40)) marks.old }
    ensures { marks.new ≡ marks_moved by letters.now marks.old }
{
    for letter in 0..26 {
        marks[letter] = moved_if(marks[letter], letters[letter], by);
    }
}

fn stands(mark: Option<u64>, low: u64, high: u64) -> bool
    ensures { result ≡ stands low high mark }
{
    match mark {
        None => false,
        Some(time) => low <= time && time <= high,
    }
}

/// For each letter whether its mark is set and from `low` to `high`, both included.
pub(crate) fn letters_from(marks: &Marks, low: u64, high: u64) -> Letters
    ensures { result ≡ map (stands low high) marks.now }
{
    let mut letters = [false; 26];
    for letter in 0..26 {
        letters[letter] = stands(marks[letter], low, high);
    }
    letters
}

/// Whether a mark is set and stays within the length `micros` if it is moved by `by`.
fn may_move(mark: Option<u64>, by: i64, micros: u64) -> bool
    requires within { IsMark micros mark }
    requires short { micros ≤ 2 ^ 40 }
    ensures { IsTrue result ↔ MayMove micros by mark }
{
    let distance = by.unsigned_abs();
    match mark {
        None => false,
        Some(time) => {
            if by < 0 {
                distance <= time
            } else {
                distance <= micros - time
            }
        }
    }
}

/// The same of each mark whose letter is true in `letters`.
pub(crate) fn all_may_move(marks: &Marks, letters: &Letters, by: i64, micros: u64) -> bool
    requires within { AllByRecursion (IsMark micros) marks.now }
    requires short { micros ≤ 2 ^ 40 }
    ensures { IsTrue result ↔ AllMayMove micros by letters.now marks.now }
{
    for letter in 0..26 {
        if letters[letter] && !may_move(marks[letter], by, micros) {
            return false;
        }
    }
    true
}
