//! How the program ends.

use crate::chosen::OptionFault;
use crate::done::Done;
use crate::found::Found;
use irig_files::TrackFault;
use irig_stamps::RunFault;
use irig_words::UsageFault;

/// How the program ends, before it is reported.
#[derive(Drop)]
pub enum Ending<'a> {
    /// The words ask for help, or are not valid, or memory ran out for them.
    Usage(UsageFault<OptionFault>),
    /// The track at this path was not read.
    Unread(&'a str, TrackFault),
    /// All lines were printed.
    Aligned(Done),
    /// The table was printed.
    Listed,
    /// The stretches without a time were printed.
    Holed(Found<'a>),
    /// All lines were printed, or the table (`None`), but no frame of the track at this path is
    /// fine.
    Timeless(&'a str, Option<Done>),
    /// All lines were printed, or the table (`None`), but this many frames of the track at this
    /// path have a time and are not believed.
    Doubted(&'a str, usize, Option<Done>),
    /// The run was broken off.
    Broken(RunFault),
    /// The path to write leads to the track.
    OverTrack,
    /// It leads to the file from which the lines come.
    OverLines,
    /// It cannot be found out whether it leads to one of them.
    Unknown,
    /// What came out could not be written to this path.
    Unwritten(&'a str),
}
