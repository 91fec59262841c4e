//! A row of scripts.

use irig_script::Status;

/// A script on two pulses in format G, what it prints, and how it ends.
#[derive(Clone, Copy)]
pub struct Row<'a> {
    pub script: &'a [u8],
    pub printed: &'a [u8],
    pub status: Status,
}
