//! The session: its calls, groups and getters.

pub mod frame;
pub mod getters;
pub mod groups;
pub mod parts;
pub mod refusal;
pub mod session;
