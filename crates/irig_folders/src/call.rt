//! A call that was done on a folder in memory.

/// A call that was done. The number of a file is how many calls were done before it was made.
#[derive(Drop)]
pub enum Call {
    /// A new file of this name, with this mode.
    Make(Vec<u8>, u32),
    /// Bytes were added at the end of the file of this number; those that were written, if it
    /// failed.
    Append(usize, Vec<u8>),
    /// The file of this number has this mode.
    TakeMode(usize, u32),
    /// A crash leaves what the file of this number holds.
    SyncFile(usize),
    /// The file of the first name has the second one.
    Rename(Vec<u8>, Vec<u8>),
    /// After it no file has the name.
    Remove(Vec<u8>),
    /// A crash leaves the names that begin with this as they are seen.
    SyncNames(Vec<u8>),
}
