//! A frame of a session's track.

use irig_index::Verdict;

/// A frame of the present track.
#[derive(Clone, Copy)]
pub struct Frame {
    /// From 1, the pulse with which it begins.
    pub marker: usize,
    /// What it says, or where and why it is broken.
    pub verdict: Verdict,
}
