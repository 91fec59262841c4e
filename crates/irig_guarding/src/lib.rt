//! A guard for proposed repairs: a repair is kept only if it is safe.
#![tactic(auto)]

mod anchors;
mod bars;
mod commands;
mod controls;
mod copying;
mod cutting;
mod elements;
mod fillings;
mod fines;
mod frame_text;
mod guarding;
mod holding;
mod judging;
mod kept;
mod known;
mod law;
mod line;
mod lines;
mod mending;
mod obeying;
mod odd;
mod opening;
mod others;
mod place;
mod printing;
mod product;
mod pulses;
mod reading;
mod reason;
mod reason_text;
mod rounds;
mod run;
mod seen;
mod steps;
mod undoing;

pub use law::{printed_scripts_are_obeyed, safe_states_are_kept_or_borne_out};
pub use others::add_frames;
pub use product::{GuardFault, Kept, Product};
pub use run::guard_on_parts;
