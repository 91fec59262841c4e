//! Why a run over lines is broken off.

use irig_print::PrintFault;
use thiserror::Error;

/// Why a run over lines was broken off.
#[derive(Clone, Copy, Debug, Error)]
pub enum RunFault {
    #[error("cannot read the lines")]
    ReadFailed,
    #[error("too many reads")]
    TooManyReads,
    #[error("standard output: output failed")]
    PrintFailed(PrintFault),
    #[error("line {0}: too long")]
    TooLong(u64),
    #[error("out of memory")]
    OutOfMemory,
    #[error("the lines end before the header does")]
    NoHeader,
    #[error("the header has more than 1 MiB")]
    LongHeader,
    #[error("no column of the header has this name")]
    NoColumn,
    #[error("two columns of the header have this name")]
    TwoColumns,
}

/// Why a line was not taken.
#[derive(Clone, Copy)]
pub enum TakeFault {
    /// The line has more than 1 MiB.
    TooLong,
    /// There is no memory.
    OutOfMemory,
}
