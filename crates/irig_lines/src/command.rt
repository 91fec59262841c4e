//! What a line of a script asks for.

use crate::address::Address;
use crate::range::Range;
use crate::time::Time;
use irig_codes::{Element, Kind};
use irig_moment::Moment;
use irig_saved::Letter;

/// A command; `docs/SCRIPT.md` says how it is written.
#[derive(Clone, Copy)]
pub enum Command {
    /// A blank line, or a comment.
    Nothing,
    /// Move the cursor to a pulse, and list it.
    Show(Address),
    List(Range),
    Delete(Range),
    /// By this many microseconds.
    Shift(Range, i64),
    Join(Range),
    /// Make the level low between two times inside of a pulse.
    Split(Address, Time, Time),
    /// Give a pulse the width of an element.
    Force(Address, Element),
    Insert(Time, Time),
    Invert(Time, Time),
    /// This many frames from a time on. The first has the moment; the lowest bit of the last number
    /// is the first control function.
    Regen(Time, u64, Moment, u64),
    /// A kind of time code and the number of a coded expression.
    Format(Kind, u8),
    Mark(Letter, Time),
    Unmark(Letter),
    Undo,
    Redo,
    Begin,
    /// Make one step of what was done since `begin`.
    End,
    /// Undo what was done since `begin`.
    Abort,
    Frames,
    Marks,
    Info,
    /// Write the track's dump to the shelf.
    Write,
    /// Write the dump and the journal to the shelf.
    Save,
    Quit,
}

/// S1: a line that is not valid.
#[derive(Clone, Copy)]
pub struct BadLine;
