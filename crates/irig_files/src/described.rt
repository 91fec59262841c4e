//! What a call of the system says of a file.

#[derive(Clone, Copy)]
pub struct Described {
    pub is_file: bool,
    /// The bits that say who may read and write it.
    pub mode: u32,
    /// Numbers that no other file has: of the device, and of the file on it.
    pub id: (u64, u64),
}
