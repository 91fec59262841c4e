//! What is printed: bytes written whole, blocks, and the lines of frames and of pulses.
#![tactic(auto)]

mod backwards;
mod block;
mod frame_line;
mod output;
mod pulse_line;
mod row;
mod verdict_text;

pub use block::Block;
pub use frame_line::{put_frame, put_time};
pub use output::{PrintFault, put_all};
pub use pulse_line::{LINE_ROOM, write_pulse};
pub use row::Row;
pub use verdict_text::put_verdict_text;
