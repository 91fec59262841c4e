//! The text of a saved journal: its lines written, and the whole read.
#![tactic(auto)]

mod change;
mod change_writer;
mod cut;
mod law;
mod letter;
mod lines;
mod parts;
mod pulse_lines;
mod pulses;
mod reader;
mod saved;
mod single;
mod single_lines;
mod singles;
mod step;
mod steps;
mod stop;
mod word_writer;
mod words;
mod writer;

pub use change::Change;
pub use law::readable;
pub use letter::{Letter, Letters, Marks};
pub use pulses::Pulses;
pub use reader::{Fault, parse};
pub use saved::Saved;
pub use single::Single;
pub use single_lines::SingleLines;
pub use singles::Singles;
pub use step::SavedStep;
pub use steps::Steps;
pub use writer::{put_future, put_head, put_step};
