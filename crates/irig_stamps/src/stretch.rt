//! A stretch of a track in which no moment has a time, all for one reason.

use irig_times::Why;

/// From a microsecond up to another one, which is not in it.
#[derive(Clone, Copy)]
pub struct Stretch {
    pub begin: u64,
    pub end: u64,
    /// Why it has no time.
    pub why: Why,
}
