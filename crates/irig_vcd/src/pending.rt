//! What is open after a word of a dump: something that only later words end.

ghost use Rattle.irig_vcd.specs.{Code.Pending.Means, Scan.IsClosed, Scan.Open, Scan.left_open};

use crate::fault::VcdFault;

/// A value without its code: its place, in bytes from 0, and the level that it gives the wire.
/// `Ok(None)` is no level, as of a real; the error is that of a vector without a bit at its end.
#[derive(Clone, Copy)]
pub struct Value {
    pub offset: usize,
    pub level: Result<Option<bool>, VcdFault>,
}

/// `Rest` has the place of a comment's first word, if it begins a journal.
#[derive(Clone, Copy)]
pub enum Pending {
    Nothing,
    Code(Value),
    Comment,
    Rest(Option<usize>),
}

/// `BadToken` at the place of an open value, `Unclosed` for an open comment.
pub fn closed(pending: Pending) -> Result<(), VcdFault>
    ensures { (now : Open) → Means pending now → IsClosed result (left_open now) }
{
    match pending {
        Pending::Nothing => Ok(()),
        Pending::Code(value) => Err(VcdFault::BadToken(value.offset)),
        Pending::Comment => Err(VcdFault::Unclosed),
        Pending::Rest(_) => Err(VcdFault::Unclosed),
    }
}
