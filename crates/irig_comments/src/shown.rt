//! A frame, as a line shows it.

use irig_index::Verdict;

#[derive(Clone, Copy)]
pub struct Shown {
    /// Its number, from 1.
    pub number: usize,
    /// When its marker, its first pulse, rises, in microseconds: its place.
    pub rise: u64,
    /// What it says, or where it is broken.
    pub verdict: Verdict,
}
