//! How the program ends.

use crate::chosen::OptionFault;
use irig_files::TrackFault;
use irig_print::PrintFault;
use irig_words::UsageFault;

/// How the program ends, before it is reported.
#[derive(Drop)]
pub enum Ending<'a> {
    Usage(UsageFault<OptionFault>),
    /// The track at this path was not read.
    Unread(&'a str, TrackFault),
    /// The patch between the two tracks was printed.
    Compared(bool),
    /// The output failed, or memory ran out for what is printed.
    Unprinted(PrintFault),
}
