//! What a command line asks for, or which value is wrong.

use irig_codes::Format;
use irig_vcd::Window;
use irig_words::{FormatFault, WindowFault};
use thiserror::Error;

#[derive(Drop)]
pub struct Chosen<'a> {
    pub track: &'a str,
    /// The name of its wire, if one is given.
    pub wire: Option<&'a str>,
    /// The window of the dump that is read, if not all is.
    pub window: Option<Window>,
    pub format: Format,
    /// Whether each happening has its margin.
    pub sure: bool,
    pub json: bool,
}

/// An option with a value that it cannot have.
#[derive(Clone, Copy, Debug, Error)]
pub enum OptionFault {
    #[error(transparent)]
    Window(WindowFault),
    #[error(transparent)]
    Format(FormatFault),
}
