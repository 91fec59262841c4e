//! What was found of a track whose stretches without a time were listed.

use crate::seconds::Seconds;
use irig_stamps::Holes;
use std::fmt;
use std::fmt::{Display, Formatter, Write};

/// How much of the track at a path has no time.
#[derive(Clone, Copy)]
pub struct Found<'a> {
    pub path: &'a str,
    pub holes: Holes,
    /// Its length in microseconds.
    pub micros: u64,
    pub quiet: bool,
}

impl<'a> Display for Found<'a> {
    fn fmt<W: Write>(&self, f: &mut Formatter<W>) -> fmt::Result {
        let none = Seconds(self.holes.untimed as u128);
        let all = Seconds(self.micros as u128);
        let count = self.holes.count;
        let noun = if count == 1 { "stretch" } else { "stretches" };
        write!(
            f,
            "{count} {noun}, {none} s of {all} s of the track have no time"
        )
    }
}
