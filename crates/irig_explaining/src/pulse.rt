//! A pulse of a recording.

/// A pulse, from a rise of the wire to its fall, in microseconds.
#[derive(Clone, Copy)]
pub struct Pulse {
    pub rise: u64,
    pub fall: u64,
}
