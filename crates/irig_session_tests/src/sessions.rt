//! Rows of what a session answers, holds, looks at and saves.

mod grouping;
mod held;
pub mod helpers;
mod looks;
mod opening;
mod parts;
mod saving;
