//! What a command line asks for, or which value is wrong.

use irig_codes::Format;
use irig_vcd::Window;
use irig_words::{FormatFault, WindowFault};
use thiserror::Error;

/// What a command line asks for.
#[derive(Drop)]
pub struct Settings<'a> {
    pub track: &'a str,
    pub wire: Option<&'a str>,
    pub window: Option<Window>,
    /// The paths of other recordings of the same code (`--with`), in their order.
    pub others: Vec<&'a str>,
    /// The path at which the track is written that the kept repairs leave, if one is given.
    pub out: Option<&'a str>,
    /// Whether the journal, the history of the edits, is written with it.
    pub save: bool,
    /// Whether frames that are fine may move.
    pub moved: bool,
    /// The format in which frames are read: B with expression 2, if none is given.
    pub format: Format,
}

/// An option with a value that it cannot have.
#[derive(Clone, Copy, Debug, Error)]
pub enum OptionFault {
    #[error(transparent)]
    Window(WindowFault),
    #[error(transparent)]
    Format(FormatFault),
    /// The track is to be written over.
    #[error("--out: is TRACK, which is not written over")]
    Out,
    /// Nothing is to be written.
    #[error("--save: nothing is written without --out")]
    Save,
}
