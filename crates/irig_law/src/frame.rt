//! A frame that is believed to show its time.

use irig_times::Time;

/// A believed frame: the number of its marker in the track, from 0, and the time that it shows
/// there.
#[derive(Clone, Copy)]
pub struct Frame {
    pub marker: usize,
    pub time: Time,
}
