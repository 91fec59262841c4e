//! What is counted of the lines of a run, but for those of the header.

ghost use Rattle.std.specs.Prelude.{◌≡◌, ◌++◌, ◌∷◌, ◌||◌, [], List};
ghost use Rattle.irig_stamps.specs.declared.look.Look.{Look};
ghost use Rattle.irig_stamps.specs.Tallies.{IsTally, add_one, no_tally, widened};
ghost use Rattle.irig_stamps.specs.Uneven.{first_of, headed, uneven_next};

use crate::look::Look;

/// A part of a track, from a moment to another one or the same.
#[derive(Clone, Copy)]
pub struct Span {
    /// Its first moment, in picoseconds after the start of the track.
    pub first: u128,
    /// Its last one.
    pub last: u128,
}

/// A line that has another number of columns than the header.
#[derive(Clone, Copy)]
pub struct Uneven {
    /// The number of the line, from 1; 2^64 - 1 means that or more.
    pub number: u64,
    /// How many columns it has.
    pub width: usize,
    /// How many the last line of the header has.
    pub header: usize,
}

/// What is counted of lines after the header.
#[derive(Clone, Copy)]
pub struct Tally {
    /// How many there are.
    pub lines: u64,
    /// How many of them have a time.
    pub timed: u64,
    /// How many have no number in their column.
    pub unnumbered: u64,
    /// From the first moment to the last one of those that are in the track, if any is.
    pub span: Option<Span>,
    /// How many columns the last line of the header has, if a byte parts them.
    pub width: Option<usize>,
    /// The first line that has another number of columns, if one has.
    pub uneven: Option<Uneven>,
    /// Whether the header names another unit of the recorder's time than the one asked for.
    pub other_unit: bool,
}

impl Tally {
    /// No line is counted yet.
    pub(crate) fn new() -> Tally
        ensures { result ≡ no_tally }
    {
        Tally {
            lines: 0,
            timed: 0,
            unnumbered: 0,
            span: None,
            width: None,
            uneven: None,
            other_unit: false,
        }
    }

    /// Counts one more line, by what is seen of it.
    pub(crate) fn add(&mut self, look: Look)
        ensures { (xs : List Look) → IsTally xs self.old → IsTally (xs ++ look ∷ []) self.new }
    {
        self.lines = add_one(self.lines, !look.header);
        self.timed = add_one(self.timed, look.timed);
        self.unnumbered = add_one(self.unnumbered, !look.numbered);
        self.span = widened(self.span, look.moment);
        self.uneven = first_of(self.uneven, uneven_next(self.width, look));
        self.width = headed(self.width, look);
        self.other_unit = either(self.other_unit, look.other_unit);
    }
}

fn either(one: bool, other: bool) -> bool
    ensures { result ≡ (one || other) }
{
    one || other
}

/// How many columns the last line of the header has, if it had `width` before this line.
fn headed(width: Option<usize>, look: Look) -> Option<usize>
    ensures { result ≡ headed width look }
{
    if look.header { look.width } else { width }
}

/// A line, if it is after the header and has another number of columns than the last line of the
/// header, which has `width`.
fn uneven_next(width: Option<usize>, look: Look) -> Option<Uneven>
    ensures { result ≡ uneven_next width look }
{
    match (width, look.width) {
        (Some(header), Some(width)) if !look.header && width != header => Some(Uneven {
            number: look.number,
            width,
            header,
        }),
        _ => None,
    }
}

fn first_of(one: Option<Uneven>, other: Option<Uneven>) -> Option<Uneven>
    ensures { result ≡ first_of one other }
{
    match one {
        Some(_) => one,
        None => other,
    }
}

fn add_one(count: u64, more: bool) -> u64
    ensures { result ≡ add_one count more }
{
    if more { count.saturating_add(1) } else { count }
}

fn widened(span: Option<Span>, moment: Option<u128>) -> Option<Span>
    ensures { result ≡ widened span moment }
{
    match (span, moment) {
        (_, None) => span,
        (None, Some(moment)) => Some(Span {
            first: moment,
            last: moment,
        }),
        (Some(span), Some(moment)) => Some(Span {
            first: span.first.min(moment),
            last: span.last.max(moment),
        }),
    }
}
