//! A file in memory, open to be described.

#[derive(Drop)]
pub struct SeenFile {
    /// How many calls were done before it was made.
    pub number: usize,
}
