//! How the run of a script ends.

use thiserror::Error;

/// How a run ended that came to its end.
#[derive(Clone, Copy, PartialEq, Eq)]
pub enum Status {
    /// No line was refused.
    AllAccepted,
    /// Some line was refused.
    SomeRefused,
}

/// Why a run was broken off.
#[derive(Clone, Copy, Debug, PartialEq, Eq, Error)]
pub enum RunFault {
    /// A read of the script failed.
    #[error("S4 ReadFailed")]
    ReadFailed,
    /// The script took 2^32 reads and was not at its end.
    #[error("S5 TooManyReads")]
    TooManyReads,
    /// A write of the output failed, or took no byte.
    #[error("S6 PrintFailed")]
    PrintFailed,
}
