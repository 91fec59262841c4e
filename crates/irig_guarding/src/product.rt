//! What a run under guard writes, and why it is broken off.

use irig_script::Status;
use irig_vcd::VcdFault;
use thiserror::Error;

/// What is written of the session that the kept repairs leave.
#[derive(Clone, Copy, PartialEq, Eq)]
pub enum Product {
    /// Nothing.
    Nothing,
    /// The track.
    Track,
    /// The track with its journal.
    Session,
}

/// How a run under guard ended: whether each repair was kept, how many frames have a control
/// function then that is not in the recording, and whether there was a frame to go by: one of the
/// recording read well, or one does then.
#[derive(Clone, Copy)]
pub struct Kept {
    pub status: Status,
    pub filled: usize,
    pub judged: bool,
}

/// Why a run under guard did not come to its end.
#[derive(Clone, Copy, Debug, Error)]
pub enum GuardFault {
    /// The dump was not opened: no line of the script was read.
    #[error("{0}")]
    Dump(VcdFault),
    /// A read of the script failed, or memory ran out for it.
    #[error("S4 ReadFailed")]
    ReadFailed,
    /// The script has more bytes than it may.
    #[error("S7 ScriptTooLong")]
    ScriptTooLong,
    /// Memory ran out for the frames, for what is printed, or for the text that is kept before.
    #[error("E11 OutOfMemory")]
    OutOfMemory,
    /// A write of the output failed, or took no byte.
    #[error("S6 PrintFailed")]
    PrintFailed,
    /// The track could not be written.
    #[error("S3 WriteFailed")]
    WriteFailed,
}
