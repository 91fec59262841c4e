//! What a saved journal says.

use crate::letter::Marks;
use crate::steps::Steps;
use irig_codes::Kind;

/// The history of a session.
#[derive(Drop)]
pub struct Saved {
    pub kind: Kind,
    /// From 0 to 7; whether the kind permits it is not judged.
    pub expression: u8,
    /// A pulse from 1, or 0 before the first.
    pub cursor: u64,
    pub marks: Marks,
    /// The oldest first.
    pub past: Steps,
    /// The next redo first.
    pub future: Steps,
}
