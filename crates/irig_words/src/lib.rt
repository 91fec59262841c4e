//! The words of a command line, as `clap` reads them, and what a program says of them.
#![tactic(auto)]

mod arguments;
mod errors;
mod formats;
mod next;
mod system;
mod telling;
mod usage;
mod values;
mod version;
mod windows;

pub use arguments::{Argument, command_of};
pub use errors::{matches_of, matches_with, not_text};
pub use formats::{FormatFault, format_named, text_or};
pub use system::given;
pub use telling::Program;
pub use usage::UsageFault;
pub use values::{PartValues, is_on, part_values};
pub use version::{asks_version, is_same};
pub use windows::{WindowFault, window_named};
