//! A patch between two recordings, made on a session.
#![tactic(auto)]

mod law;
mod patching;

pub use law::{commented_patches_are_scripts, patches_are_scripts};
pub use patching::patch;
