//! The editor, from the words of its command line to what is printed and written.
#![tactic(auto)]

mod ending;
mod file_run;
mod help;
mod script_run;
mod serving;
mod statuses;

pub use help::program;
pub use serving::{serve, start};
