//! What answers print.

pub mod fine;
pub mod info_line;
pub mod listing;
pub mod mark_lines;
pub mod pulse_lines;
pub mod reply;
pub mod screen;
pub mod witness;
