//! Lines with a recorder's time, and the time of day before each.
#![tactic(auto)]

mod aligning;
mod columns;
mod cutting;
mod dates;
mod fault;
mod finding;
mod first_day;
mod header;
mod header_unit;
mod hole_list;
mod holes;
mod law;
mod look;
mod moment;
mod numbers;
mod outcome;
mod pending;
mod picos;
mod point;
mod printing;
mod progress;
mod reading;
mod running;
mod settings;
mod stamp;
mod stamping;
mod stretch;
mod table;
mod taking;
mod tally;
mod text;
mod unit_names;
mod untimed;

pub use aligning::align;
pub use fault::RunFault;
pub use hole_list::list_holes;
pub use holes::Holes;
pub use law::{digits_tell_times, printed_times_are_true};
pub use numbers::{number, whole};
pub use outcome::{Outcome, Standing};
pub use picos::Picos;
pub use settings::{Form, Settings};
pub use table::list;
pub use tally::{Span, Tally, Uneven};
