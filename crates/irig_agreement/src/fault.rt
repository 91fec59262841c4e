//! A moment at which a result does not agree with a recording.

#[derive(Clone, Copy)]
pub enum Change {
    /// It has a time in the recording, and none in the result.
    Lost,
    /// Its time is further from that in the recording than both can be off.
    Other,
    /// It has none in the recording, and a pulse next to it is doubted.
    Doubted,
}

#[derive(Clone, Copy)]
pub struct Fault {
    /// In microseconds since the start.
    pub moment: u64,
    pub what: Change,
}
