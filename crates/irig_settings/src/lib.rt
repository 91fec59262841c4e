//! The settings that a command line asks for.
#![tactic(auto)]

mod chosen;
mod command_line;
mod part;

pub use chosen::{OptionFault, Settings};
pub use command_line::{command, settings};
