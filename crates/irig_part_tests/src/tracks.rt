//! Worked rows of edits, and texts in parts.

mod helpers;
mod parts;
mod rows;
