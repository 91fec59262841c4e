//! The reasons of the law of time.

/// Why a moment has no time.
#[derive(Clone, Copy)]
pub enum Why {
    /// No pulse before it has one.
    Before,
    /// No pulse after it has one.
    After,
    /// Nothing shows how the time goes between the pulses around it.
    Hole,
    /// The times of the pulses around it are not as far apart as the recorder's clock says.
    Step,
    /// A frame there reads well and is not believed.
    Unbelieved,
}
