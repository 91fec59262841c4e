//! Scripts of edits: what is done for what their lines ask for, and what is printed.
#![tactic(auto)]

mod law;
mod memory_shelf;
mod obey;
mod print;

pub use irig_lines::{Address, BadLine, Base, Command, Range, Time, parse_line};
pub use irig_text::{Shelf, ShelfFault};
pub use law::{lines_ask_for_one_command, saved_sessions_run_on, scripts_have_one_run};
pub use memory_shelf::MemoryShelf;
pub use obey::dump_run::{DumpRunFault, run_on_dump, run_on_parts};
pub use obey::engine::run;
pub use obey::obeying::obey as obey_command;
pub use obey::pulse_numbers::{ends, number_at, time};
pub use obey::status::{RunFault, Status};
pub use print::reply::Reply;
pub use print::screen::Screen;
pub use print::witness::{NoWitness, Witness};
