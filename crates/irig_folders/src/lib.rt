//! Folders in memory, for tests: one with names alone, and many with links and other files.
#![tactic(auto)]

mod call;
mod layout;
mod left;
mod memory;
mod memory_fault;
mod memory_folder;
mod memory_system;
mod names;
mod seen_file;
mod tree;
mod tree_paths;
mod tree_reads;
mod tree_system;

pub use call::Call;
pub use left::{bytes_of, is_kept, mode_of};
pub use memory::{Memory, MemoryFile, USUAL};
pub use memory_fault::MemoryFault;
pub use names::file_at;
pub use tree::{Plain, Tree, TreeDir};
