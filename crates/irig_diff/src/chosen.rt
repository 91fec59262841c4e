//! What a command line asks for, or which value is wrong.

use irig_codes::Format;
use irig_vcd::Window;
use irig_words::{FormatFault, WindowFault};
use thiserror::Error;

/// What a command line asks for.
#[derive(Drop)]
pub struct Settings<'a> {
    pub before: &'a str,
    /// The name of its wire, if one is given.
    pub wire: Option<&'a str>,
    pub after: &'a str,
    /// The name of its wire, if one is given.
    pub wire_after: Option<&'a str>,
    pub window: Option<Window>,
    /// The format of the frames that comments show, if they are asked for.
    pub frames: Option<Format>,
}

/// An option with a value that it cannot have.
#[derive(Clone, Copy, Debug, Error)]
pub enum OptionFault {
    #[error(transparent)]
    Window(WindowFault),
    #[error(transparent)]
    Format(FormatFault),
    /// A format, and no frames that are shown.
    #[error("--format, --expression: no frames are shown without --frames")]
    Alone,
}
