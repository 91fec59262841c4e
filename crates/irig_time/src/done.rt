//! What was done with the lines, as the program says it at the end.

use crate::seconds::Seconds;
use irig_stamps::{Span, Tally};
use std::fmt;
use std::fmt::{Display, Formatter, Write};

const PICOS: u128 = 1_000_000;

/// What was done with the lines of a run.
#[derive(Clone, Copy)]
pub struct Done {
    /// What is counted of them, but for those of the header.
    pub tally: Tally,
    /// How long the track is, in microseconds.
    pub micros: u64,
    /// Whether this is not said.
    pub quiet: bool,
}

impl Done {
    /// Writes which part of the track the lines cover: how long it is from the first one to the
    /// last one of those that are in the track.
    fn write_part<W: Write>(&self, f: &mut Formatter<W>) -> fmt::Result {
        let all = Seconds(self.micros as u128);
        match self.tally.span {
            Some(span) => {
                let part = Seconds(length(span));
                let cover = if self.tally.lines == 1 {
                    "it covers"
                } else {
                    "they cover"
                };
                write!(f, "; {cover} {part} s of {all} s of the track")
            }
            None => write!(f, "; none is within the {all} s of the track"),
        }
    }
}

impl Display for Done {
    // Writes how many lines there are, how many have a time, how many have none, and how many have
    // no number, if some have none; then the part of the track. It fails only if `f` does.
    fn fmt<W: Write>(&self, f: &mut Formatter<W>) -> fmt::Result {
        let lines = self.tally.lines;
        let timed = self.tally.timed;
        let untimed = lines.saturating_sub(timed);
        let unnumbered = self.tally.unnumbered;
        let noun = if lines == 1 { "line" } else { "lines" };
        write!(f, "{lines} {noun}, {timed} with a time, {untimed} without")?;
        if unnumbered > 0 {
            write!(f, ", {unnumbered} of these without a number")?;
        }
        self.write_part(f)
    }
}

/// How long a span is, in microseconds, rounded down.
fn length(span: Span) -> u128 {
    span.last.saturating_sub(span.first) / PICOS
}
