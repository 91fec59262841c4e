//! What happened between two elements.

use irig_explaining::Kind;

/// What happened from the rise of an element to that of the next one that there is.
#[derive(Clone, Copy)]
pub struct Happening {
    /// Both rises, in microseconds.
    pub begin: u64,
    pub end: u64,
    pub kind: Kind,
    /// Both elements, in their frames.
    pub element: u64,
    pub to: u64,
    /// How many elements without a rise are between them.
    pub missing: u64,
    /// How many rises between them are no element.
    pub noise: u64,
    pub cost: u64,
    /// How much dearer the next best explanation is; `None` if it was not asked for.
    pub margin: Option<u64>,
}
