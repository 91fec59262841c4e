//! A session that is opened from a dump with its journal.

pub mod head;
pub mod opening;
pub mod taking;
pub mod walk;
