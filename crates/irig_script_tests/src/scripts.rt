//! Scripts and their answers, and what failing ends and refused growths leave.

mod failing_ends;
pub mod helpers;
mod refused_growths;
mod row;
mod rows;
mod slow_output;
mod stopped_disks;
mod stops;
mod watched_files;
