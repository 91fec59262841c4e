//! What a command line asks for, or which value of its options is wrong.

use irig_codes::Format;
use irig_vcd::Window;
use irig_words::WindowFault;
use thiserror::Error;

/// What a command line asks for.
#[derive(Drop)]
pub struct Settings<'a> {
    pub track: &'a str,
    pub wire: Option<&'a str>,
    /// What is read of the dump, if not all is.
    pub window: Option<Window>,
    /// The path that `write` writes: that of the dump, if none is given. With a window one is.
    pub out: &'a str,
    /// B with expression 2, if none is given.
    pub format: Format,
}

/// An option with a value that it cannot have.
#[derive(Clone, Copy, Debug, Error)]
pub enum OptionFault {
    #[error(transparent)]
    Window(WindowFault),
    /// A window is asked for, and no path for what is written of it.
    #[error("--out: not given, and a part does not replace TRACK")]
    Out,
    #[error("E6 BadExpression")]
    BadExpression,
}
