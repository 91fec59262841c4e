//! Lines of a script, and the command that each asks for.
#![tactic(auto)]

mod address;
mod addresses;
mod arguments;
mod command;
mod cutting;
mod keyword;
mod numbers;
mod orders;
mod parsing;
mod purpose;
mod range;
mod table;
mod time;
mod words;

pub use address::{Address, Base};
pub use command::{BadLine, Command};
pub use parsing::parse_line;
pub use purpose::Purpose;
pub use range::Range;
pub use time::Time;
