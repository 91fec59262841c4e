//! The values of a command line as text, before it is tested what they mean.

use irig_words::PartValues;

/// The values of a command line, as they are written; `None` for an option that is not given, and
/// `false` for one without a value.
#[derive(Drop)]
pub struct RawValues<'a> {
    pub track: &'a str,
    pub part: PartValues<'a>,
    pub unit: Option<&'a str>,
    pub offset: Option<&'a str>,
    pub column: Option<&'a str>,
    pub comma: Option<&'a str>,
    pub header: Option<&'a str>,
    pub name: Option<&'a str>,
    pub year: Option<&'a str>,
    pub form: Option<&'a str>,
    pub out: Option<&'a str>,
    pub alone: bool,
    pub why: bool,
    pub bound: bool,
    pub within: Option<&'a str>,
    pub table: bool,
    pub holes: bool,
    pub json: bool,
    pub quiet: bool,
}
