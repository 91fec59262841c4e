//! Dumps of a digital wire: what a value change dump says of one wire, read and written.
#![tactic(auto)]

mod apart;
mod changes;
mod choice;
mod decimal;
mod dump_reader;
mod edge;
mod event;
mod extent;
mod fault;
mod header;
mod journals;
mod lanes;
mod last_part;
mod law;
mod next_part;
mod part;
mod pending;
mod progress;
mod pulses;
mod reader;
mod reading;
mod section;
mod short;
mod short_way;
mod stages;
mod stretch;
mod time;
mod timescale;
mod token;
mod trace;
mod unit;
mod values;
mod variable;
mod window;

pub use dump_reader::DumpReader;
pub use extent::Extent;
pub use fault::VcdFault;
pub use irig_recording::{Pulse, Recording, TextWriter, text};
pub use law::{
    edges_tell_levels, long_recordings_tell_levels, read_back, read_back_parts, windows_tell_levels,
};
pub use reader::{read, read_parts};
pub use token::{Kind, Token, Tokens};
pub use window::Window;
