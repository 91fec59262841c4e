//! Steps that are too long to be cheap.

/// The rises before one, or those from it on: what each step from them, or to them, costs at least.
#[derive(Clone, Copy)]
pub struct Remote {
    /// The number of that rise.
    pub rise: usize,
    /// What each step costs at least.
    pub least: u32,
}
