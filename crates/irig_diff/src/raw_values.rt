//! The values of a command line as text, before it is tested what they mean.

use irig_words::PartValues;

/// The values of a command line, as they are written; `None` for an option that is not given.
#[derive(Clone, Copy)]
pub struct RawValues<'a> {
    pub before: &'a str,
    pub after: &'a str,
    /// Its wire is that of the dump before.
    pub part: PartValues<'a>,
    pub wire_after: Option<&'a str>,
    pub frames: bool,
}
