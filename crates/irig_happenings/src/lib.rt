//! What happened in a recording, by its cheapest explanation, as a list of parts and as a text.
#![tactic(auto)]

mod happened;
mod happening;
mod listing;
mod margins;
mod noise;
mod part;
mod parts;
mod pulses;
mod roles;
mod run;
mod stretch;
mod texts;

pub use happening::Happening;
pub use listing::happenings;
pub use noise::Noise;
pub use part::Part;
pub use parts::is_quiet;
pub use stretch::Stretch;
pub use texts::text_of;
