//! A change that is no group.

ghost use Rattle.std.specs.Prelude.{◌≡◌, ◌<◌, ◌^◌, length};
ghost use Rattle.irig_saved.specs.SavedText.{single_lines};

use crate::letter::{Letter, Letters};
use crate::pulses::Pulses;
use irig_codes::Kind;

/// One change of a session; whether a track permits it is not judged here.
#[derive(Drop)]
pub enum Single {
    /// Removes `count` pulses from `at` on, and inserts the pulses `put` there.
    Splice {
        at: u64,
        count: u64,
        put: Pulses,
    },
    /// Inverts the level from `a` to `b`.
    Toggle {
        a: u64,
        b: u64,
    },
    /// Moves the pulses `i` to `j`, both included, by `by` microseconds, with these marks.
    Shift {
        i: u64,
        j: u64,
        by: i64,
        marks: Letters,
    },
    /// Sets a format.
    SetFormat {
        kind: Kind,
        expression: u8,
    },
    /// Sets the mark of a letter to a time, or clears it if that is `None`.
    SetMark {
        letter: Letter,
        time: Option<u64>,
    },
}

impl Single {
    /// Lines in the text of a journal; a splice has one for each pulse that it inserts, too.
    pub(crate) fn lines(&self) -> usize
        requires { length (single_lines self.now) < 2 ^ 63 }
        ensures { result ≡ length (single_lines self.now) }
    {
        match self {
            Single::Splice { put, .. } => 1 + put.len(),
            _ => 1,
        }
    }
}
