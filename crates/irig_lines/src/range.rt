//! Ranges of pulses as a script writes them.

use crate::address::Address;

/// A range of pulses. A missing one is the address `.`, and `,` alone is `1,$`.
#[derive(Clone, Copy)]
pub enum Range {
    /// One address: that pulse alone; for `join` that pulse and the next.
    One(Address),
    Two(Address, Address),
}
