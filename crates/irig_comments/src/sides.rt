//! The frames of two recordings at one place.

ghost use Rattle.std.specs.Prelude.{◌≡◌, ◌↔◌, ◌==◌, IsTrue};
ghost use Rattle.irig_comments.specs.Same.{cause_number, name_number, same_fields, same_note};
ghost use Rattle.irig_comments.specs.Same.{same_part, same_verdict};
ghost use Rattle.irig_comments.specs.Sides.{differs, place};

use crate::shown::Shown;
use irig_codes::{Fields, Name, Note};
use irig_index::{Cause, Verdict};

/// The frames that begin at one place. One of them is there at least.
#[derive(Clone, Copy)]
pub struct Sides {
    pub before: Option<Shown>,
    pub after: Option<Shown>,
}

impl Sides {
    /// Whether only one side has a frame, or something else is reported of one than of the other;
    /// their numbers do not count.
    pub(crate) fn differ(&self) -> bool
        ensures { result ≡ differs self.now }
    {
        match (self.before, self.after) {
            (None, None) => false,
            (None, Some(_)) => true,
            (Some(_), None) => true,
            (Some(before), Some(after)) => !is_same(&before.verdict, &after.verdict),
        }
    }

    /// When the markers rise, in microseconds; 0 if there is none, which does not come.
    pub(crate) fn place(&self) -> u64
        ensures { result ≡ place self.now }
    {
        match (self.before, self.after) {
            (Some(before), _) => before.rise,
            (None, Some(after)) => after.rise,
            (None, None) => 0,
        }
    }
}

/// Whether the same is reported of two frames; `exact` adds to `is_same_by_parts` that they are
/// equal.
fn is_same(one: &Verdict, other: &Verdict) -> bool
    ensures value { result ≡ same_verdict one.now other.now }
    ensures exact { IsTrue result ↔ (one.now ≡ other.now) }
{
    is_same_by_parts(one, other)
}

fn is_same_by_parts(one: &Verdict, other: &Verdict) -> bool
    ensures { result ≡ same_verdict one.now other.now }
{
    match (one, other) {
        (Verdict::Broken(element, why), Verdict::Broken(other_element, other_why)) => {
            element == other_element && is_same_cause(*why, *other_why)
        }
        (Verdict::Read(fields, note), Verdict::Read(other_fields, other_note)) => {
            are_same_fields(fields, other_fields) && is_same_note(note, other_note)
        }
        _ => false,
    }
}

/// Whether two causes are the same. A frame is broken by one of just these three.
fn is_same_cause(one: Cause, other: Cause) -> bool
    ensures { result ≡ (cause_number one == cause_number other) }
{
    matches!(
        (one, other),
        (Cause::Ended, Cause::Ended) | (Cause::Step, Cause::Step) | (Cause::Class, Cause::Class)
    )
}

fn are_same_fields(one: &Fields, other: &Fields) -> bool
    ensures { result ≡ same_fields one.now other.now }
{
    is_same_part(one.hundredths, other.hundredths)
        && one.seconds == other.seconds
        && one.minutes == other.minutes
        && one.hours == other.hours
        && one.days == other.days
        && is_same_part(one.year, other.year)
        && is_same_part(one.sbs, other.sbs)
        && is_same_control(one.control, other.control)
}

/// Whether both have a part and it is the same, or neither has it.
fn is_same_part(one: Option<u32>, other: Option<u32>) -> bool
    ensures { result ≡ same_part one other }
{
    match (one, other) {
        (None, None) => true,
        (Some(one), Some(other)) => one == other,
        _ => false,
    }
}

/// The same for control functions, a number of 64 bits.
fn is_same_control(one: Option<u64>, other: Option<u64>) -> bool
    ensures { result ≡ same_part one other }
{
    match (one, other) {
        (None, None) => true,
        (Some(one), Some(other)) => one == other,
        _ => false,
    }
}

/// Whether the same is noted of two frames, with the field or the element.
fn is_same_note(one: &Note, other: &Note) -> bool
    ensures { result ≡ same_note one.now other.now }
{
    match (one, other) {
        (Note::Fine, Note::Fine) => true,
        (Note::SbsDisagrees, Note::SbsDisagrees) => true,
        (Note::Field(one), Note::Field(other)) => number_of(*one) == number_of(*other),
        (Note::Stray(one), Note::Stray(other)) => one == other,
        _ => false,
    }
}

/// A number for each field: only whether two are equal counts.
fn number_of(name: Name) -> u8
    ensures { result ≡ name_number name }
{
    match name {
        Name::Hundredths => 0,
        Name::Seconds => 1,
        Name::Minutes => 2,
        Name::Hours => 3,
        Name::Days => 4,
        Name::Year => 5,
    }
}
