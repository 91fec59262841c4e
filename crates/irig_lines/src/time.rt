//! Times as a script writes them.

use irig_saved::Letter;

#[derive(Clone, Copy)]
pub enum Time {
    /// In microseconds.
    At(u64),
    Mark(Letter),
}
