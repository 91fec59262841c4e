//! A time of the recorder.

/// A time of the recorder, in picoseconds from its zero.
#[derive(Clone, Copy)]
pub struct Picos {
    /// Whether it is before zero.
    pub negative: bool,
    /// How far from zero it is.
    pub size: u128,
}
