//! A length as it is printed.

use std::fmt;
use std::fmt::{Display, Formatter, Write};

const MICROS: u128 = 1_000_000;

/// Some microseconds, which are written as seconds: with six decimals, or with none if these are
/// zeros.
#[derive(Drop)]
pub struct Seconds(pub u128);

impl Display for Seconds {
    fn fmt<W: Write>(&self, f: &mut Formatter<W>) -> fmt::Result {
        let whole = self.0 / MICROS;
        let part = self.0 % MICROS;
        if part == 0 {
            return write!(f, "{whole}");
        }
        write!(f, "{whole}.{part:06}")
    }
}
