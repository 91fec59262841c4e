//! How the program ends.

use crate::chosen::OptionFault;
use crate::other_fault::OtherFault;
use irig_files::DumpFileFault;
use irig_guarding::{GuardFault, Kept};
use irig_words::UsageFault;

/// How the program ends, before it is reported.
#[derive(Drop)]
pub enum Ending<'a> {
    Usage(UsageFault<OptionFault>),
    /// The file at this path is no dump that can be read.
    Unread(&'a str, DumpFileFault),
    /// The path to write leads to the dump.
    Over,
    /// It cannot be found out whether the path to write leads to the dump, or to another recording.
    Unknown,
    /// The path to write leads to the other recording at this path.
    OverOther(&'a str),
    /// The other recording at this path cannot be used.
    UnusableOther(&'a str, OtherFault),
    /// The script ran under guard on the dump at this path, and this is how the run ended.
    Ran(&'a str, Result<Kept, GuardFault>),
}
