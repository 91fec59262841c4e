//! The law of time: what a recording shows of the time of its pulses, and when that is true.
#![tactic(auto)]

mod believed;
mod calendar;
mod chain;
mod chains;
mod clock;
mod clocks;
mod denials;
mod doubting;
mod doubts;
mod ends;
mod fine;
mod fits;
mod frame;
mod happened;
mod hours;
mod law;
mod middle;
mod names;
mod of_one;
mod part;
mod point;
mod points;
mod row;
mod seens;
mod sides;
mod stretch;
mod told;
mod wanted;

pub use believed::believed_frames;
pub use calendar::{micros_after, periods_apart};
pub use clock::{Clock, hop_over};
pub use clocks::clock_between;
pub use doubting::doubted_in;
pub use frame::Frame;
pub use law::times_are_true;
pub use names::{Seen, names_in};
pub use part::{part_begin, part_points};
pub use point::Point;
pub use points::Points;
pub use row::{Row, is_clean, micros_between};
pub use sides::{Sides, sides_of};
