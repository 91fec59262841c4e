//! What an explanation says of one rise.

/// What a step to a claim says of the element number and the time.
#[derive(Clone, Copy)]
pub enum Kind {
    /// Both the element number and the time go on.
    Next,
    /// The time steps, the element number goes on.
    Step,
    /// The element number jumps.
    Jump,
}

/// A rise is that of an element. Nothing reads the kind of an explanation's first claim.
#[derive(Clone, Copy)]
pub struct Claim {
    /// The number of the rise in the recording, from 0.
    pub rise: u32,
    /// The number of the element, from 0. What else the caller wants to part can be in it.
    pub element: u32,
    /// The kind of the step from the claim before.
    pub kind: Kind,
}
