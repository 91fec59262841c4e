//! Commands as calls of a session, and the run of a script.

pub mod bytes;
pub mod calls;
pub mod dump_run;
pub mod engine;
pub mod line;
pub mod obeying;
pub mod pulse_numbers;
pub mod status;
pub mod writing;
