//! The values of a command line as text, before it is tested what they mean.

use irig_words::PartValues;

/// The values of a command line, as they are written.
#[derive(Clone, Copy)]
pub struct RawValues<'a> {
    pub track: &'a str,
    pub part: PartValues<'a>,
    pub sure: bool,
    pub json: bool,
}
