//! The changes of a state, their turns, and the room that these need.

pub mod kinds;
pub mod reversible;
pub mod room;
pub mod turn;
pub mod turns;
