//! How the program ends.

use irig_files::DumpFileFault;
use irig_script::{DumpRunFault, Status};
use irig_settings::OptionFault;
use irig_words::UsageFault;

/// How the program ends, before it is reported.
#[derive(Drop)]
pub enum Ending<'a> {
    /// The command line asks for no run: it asks for help or is not valid, or memory ran out for
    /// it.
    Usage(UsageFault<OptionFault>),
    /// The file at this path is no dump that can be read.
    Unread(&'a str, DumpFileFault),
    /// A window is asked for, and the path to write leads to the dump: a part would replace the
    /// whole.
    Over,
    /// A window is asked for, and it cannot be found out whether the path to write leads to the
    /// dump.
    Unknown,
    /// A window is asked for of the dump at this path, which holds a saved session.
    Saved(&'a str),
    /// The script ran on the dump at this path, and this is how the run ended.
    Ran(&'a str, Result<Status, DumpRunFault>),
}
