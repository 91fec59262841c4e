//! Files: the dump that is read, and the shelf that is written.
#![tactic(auto)]

mod described;
mod disk;
mod dump_file;
mod file_shelf;
mod file_system;
mod files;
mod in_place;
mod intake;
mod links;
mod opening;
mod plain_calls;
mod put_file;
mod room;
mod same_file;
mod system;
mod track;
mod way;
mod whole;
mod written;

pub use described::Described;
pub use disk::Disk;
pub use dump_file::{DumpFileFault, read_extent};
pub use file_shelf::FileShelf;
pub use file_system::FileSystem;
pub use files::Files;
pub use intake::{LongParts, Parts};
pub use opening::system_files;
pub use plain_calls::PlainCalls;
pub use put_file::folder_of;
pub use room::Room;
pub use track::{TrackFault, read_in_window, read_long_track, read_track};
pub use written::Written;
