//! The values of a command line as they are written.

ghost use Rattle.std.specs.Prelude.{◌≡◌};
ghost use Rattle.clap.specs.Words.{first_value, found_of};
ghost use Rattle.irig_words.specs.Values.{AreOfPart, is_on};

use crate::version::is_same;
use clap::ArgMatches;

/// Which part of which wire of a dump is read, and how: the values of the options of the same
/// names; `None` for one that is not given.
#[derive(Clone, Copy)]
pub struct PartValues<'a> {
    pub wire: Option<&'a str>,
    pub from: Option<&'a str>,
    pub to: Option<&'a str>,
    pub format: Option<&'a str>,
    pub expression: Option<&'a str>,
}

pub fn part_values<'a>(matches: &ArgMatches<'a>) -> PartValues<'a>
    ensures { AreOfPart (found_of matches.now) result }
{
    PartValues {
        wire: matches.get_str("wire"),
        from: matches.get_str("from"),
        to: matches.get_str("to"),
        format: matches.get_str("format"),
        expression: matches.get_str("expression"),
    }
}

/// Whether an option without a value is given.
pub fn is_on(matches: &ArgMatches<'_>, name: &str) -> bool
    ensures { result ≡ is_on (first_value (found_of matches.now) name.now) }
{
    match matches.get_str(name) {
        Some(text) => is_same(text.as_bytes(), b"true"),
        None => false,
    }
}
