//! The format that the options `--format` and `--expression` name.

ghost use Rattle.std.specs.Prelude.{◌≡◌, IfErr, IfOk};
ghost use Rattle.irig_words.specs.Formats.{HasFormatFault, IsFormat, digit_named, given, text_or};

use irig_codes::{Format, kind_named};
use thiserror::Error;

/// An option of the format with a value that it cannot have.
#[derive(Clone, Copy, Debug, Error)]
pub enum FormatFault {
    #[error("--format: not A, B, E or G")]
    Format,
    /// No expression, or one that the format does not permit.
    #[error("--expression: not one of the format")]
    Expression,
}

/// The format with a letter, B if none is given, and an expression, 2 if none is given. The letter
/// is tested first.
pub fn format_named(letter: Option<&str>, number: Option<&str>) -> Result<Format, FormatFault>
    ensures format { IfOk result (IsFormat (given letter.entry) (given number.entry)) }
    ensures fault { IfErr result (HasFormatFault (given letter.entry) (given number.entry)) }
{
    let Some(kind) = kind_named(text_or(letter, "B")) else {
        return Err(FormatFault::Format);
    };
    let Some(expression) = digit_named(text_or(number, "2")) else {
        return Err(FormatFault::Expression);
    };
    match Format::new(kind, expression) {
        Ok(format) => Ok(format),
        Err(_) => Err(FormatFault::Expression),
    }
}

/// The bytes of an option's value, or those of `other` if it is not given.
pub fn text_or<'a>(value: Option<&'a str>, other: &'a str) -> &'a [u8]
    ensures { result.now ≡ text_or value.entry other.entry.now }
{
    match value {
        Some(text) => text.as_bytes(),
        None => other.as_bytes(),
    }
}

/// One digit, 0 to 9; which of these a format permits is tested after that.
fn digit_named(text: &[u8]) -> Option<u8>
    ensures { result ≡ digit_named text.now }
{
    match text {
        [digit @ b'0'..=b'9'] => Some(*digit - b'0'),
        _ => None,
    }
}
