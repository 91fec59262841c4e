//! How far lines were read, byte by byte.

ghost use Rattle.std.specs.Prelude.{◌≡◌, []};
ghost use Rattle.irig_stamps.specs.Tallies.{no_tally};

use crate::tally::Tally;
use std::alloc::Global;

/// How far lines were read.
#[derive(Drop)]
pub struct Progress {
    /// The front of the line that is being read.
    pub line: Vec<u8>,
    /// How many lines have ended; 2^64 - 1 means that many or more.
    pub count: u64,
    /// What is counted of those that are none of the header.
    pub tally: Tally,
}

impl Progress {
    /// Nothing is read yet: before the first line.
    pub fn new(alloc: Global) -> Progress
        ensures line { result.line.items ≡ [] }
        ensures count { result.count ≡ 0 }
        ensures tally { result.tally ≡ no_tally }
    {
        Progress {
            line: Vec::new(alloc),
            count: 0,
            tally: Tally::new(),
        }
    }
}
