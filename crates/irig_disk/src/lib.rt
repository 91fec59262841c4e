//! A text written whole on a disk: a crash at any moment leaves the old one or the new one.
#![tactic(auto)]

mod answers;
mod beside;
mod fault;
mod folder;
mod kept;
mod name;
mod new_text;
mod placing;
mod put;
mod system;
mod system_dir;
mod system_fault;

pub use fault::PutFault;
pub use folder::Folder;
pub use kept::Kept;
pub use name::is_name;
pub use new_text::NewText;
pub use put::put_text;
pub use system::SystemFolder;
pub use system_dir::SystemDir;
pub use system_fault::SystemFault;
