//! Addresses of pulses as a script writes them.

use irig_saved::Letter;

/// What an address counts from.
#[derive(Clone, Copy)]
pub enum Base {
    /// A number: pulses count from 1.
    Number(u64),
    /// `.`: the cursor.
    Current,
    /// `$`: the last pulse.
    Last,
    /// `'x`: how many pulses rise at or before a mark.
    Mark(Letter),
}

/// This many pulses after what it counts from, or before.
#[derive(Clone, Copy)]
pub struct Address {
    pub base: Base,
    pub offset: i64,
}
