//! What a command line asks for: what the values of its options mean (`Chosen`), or which value is
//! wrong (`OptionFault`).

use crate::task::Task;
use irig_codes::Format;
use irig_stamps::Settings;
use irig_vcd::Window;
use irig_words::{FormatFault, WindowFault};
use std::fmt;
use std::fmt::{Display, Formatter, Write};

const NO_YEAR: &str = "--form calendar: frames of this expression have no year, so give --year";

const TABLE: &str = "--table: reads no lines, so without --unit, --offset, --column, --header, \
     --name, --why, --bound and --within";

const HOLES: &str = "--holes: reads no lines, so without --table, --unit, --offset, --column, \
     --header, --name, --why, --bound and --within";

/// What a command line asks for.
#[derive(Drop)]
pub struct Chosen<'a> {
    /// The path of the track.
    pub track: &'a str,
    /// The name of its wire, if one is given.
    pub wire: Option<&'a str>,
    /// The window of the dump that is read, if not all is.
    pub window: Option<Window>,
    /// The format in which frames are read.
    pub format: Format,
    /// The path of the file to which all goes, if it is not the standard output.
    pub out: Option<&'a str>,
    /// How lines are read and stamped.
    pub settings: Settings<'a>,
    /// What is done with the track.
    pub task: Task,
    /// Whether what was done with the lines is not said.
    pub quiet: bool,
}

/// An option with a value that it cannot have.
#[derive(Clone, Copy)]
pub enum OptionFault {
    /// An option of the window has it.
    Window(WindowFault),
    /// An option of the format has it.
    Format(FormatFault),
    Unit,
    Offset,
    Column,
    /// A column has a name, and there is no header in which it could be.
    Headless,
    Comma,
    Header,
    Name,
    /// The column of times would have the name of that of the bounds.
    OfBounds,
    /// There is no header for the name.
    Unnamed,
    Year,
    Within,
    Form,
    /// Dates are asked for, and nothing has a year.
    NoYear,
    Table,
    Holes,
    Json,
}

impl OptionFault {
    fn text(self) -> &'static str {
        match self {
            Self::Unit => "--unit: not s, ms, us, ns or ps, nor 10 or 100 of it, as 100ns",
            Self::Offset => "--offset: not a number in the unit",
            Self::Column => "--column: not a number from 1 to 65536",
            Self::Headless => "--column: a name is looked for in the header, so give --header",
            Self::Comma => "--comma: not one character of ASCII that no number, word or time has",
            Self::Header => "--header: not a number of lines",
            Self::Name => "--name: has a separator, a quote or an end of a line, or nothing",
            Self::OfBounds => "--name: bound_us is the name of the column of --bound",
            Self::Unnamed => "--name: there is no header, so give --header",
            Self::Year => "--year: not a year of four digits, from 1000 to 9998",
            Self::Within => "--within: not a number of microseconds",
            Self::Form => "--form: not ordinal, calendar or seconds",
            Self::NoYear => NO_YEAR,
            Self::Table => TABLE,
            Self::Holes => HOLES,
            Self::Json => "--json: is the form of --holes, so give --holes",
            // These have a text of their own.
            Self::Window(_) | Self::Format(_) => "",
        }
    }
}

impl Display for OptionFault {
    fn fmt<W: Write>(&self, f: &mut Formatter<W>) -> fmt::Result {
        match self {
            Self::Window(fault) => fault.fmt(f),
            Self::Format(fault) => fault.fmt(f),
            _ => f.write_str(self.text()),
        }
    }
}
