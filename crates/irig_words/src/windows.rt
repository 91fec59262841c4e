//! The window of a dump that the options `--from` and `--to` name.

ghost use Rattle.std.specs.Prelude.{◌≡◌, ◌||◌, IfErr, IfOk, is_some};
ghost use Rattle.irig_words.specs.Formats.{given};
ghost use Rattle.irig_words.specs.Windows.{HasWindowFault, IsWindow, end_of, first_of, spelt};
ghost use Rattle.irig_words.specs.Windows.{time_named};

use crate::formats::text_or;
use irig_vcd::Window;
use thiserror::Error;

/// The options of a window with a value that they cannot have.
#[derive(Clone, Copy, Debug, Error)]
pub enum WindowFault {
    #[error("--from: not a whole number of microseconds")]
    From,
    #[error("--to: not a whole number of microseconds")]
    To,
    /// A window that ends before it begins.
    #[error("--to: before --from")]
    Early,
}

/// 2^64, the least number that is no time; a greater one is read as this.
const NUMBER_LIMIT: u128 = 18_446_744_073_709_551_616;

/// The window between two times in microseconds. Without `from` it begins at 0, and without `to` it
/// ends at the greatest time. With two equal times it is empty.
pub fn window_named(from: Option<&str>, to: Option<&str>) -> Result<Option<Window>, WindowFault>
    ensures window { IfOk result (IsWindow (given from.entry) (given to.entry)) }
    ensures fault { IfErr result (HasWindowFault (given from.entry) (given to.entry)) }
{
    if !is_given(from, to) {
        return Ok(None);
    }
    let Some(first) = first_of(from) else {
        return Err(WindowFault::From);
    };
    let Some(end) = end_of(to) else {
        return Err(WindowFault::To);
    };
    if end < first {
        return Err(WindowFault::Early);
    }
    Ok(Some(Window {
        from: first,
        to: end,
    }))
}

fn is_given(from: Option<&str>, to: Option<&str>) -> bool
    ensures { result ≡ (is_some from.entry || is_some to.entry) }
{
    from.is_some() || to.is_some()
}

/// Without a text it is 0.
fn first_of(from: Option<&str>) -> Option<u64>
    ensures { result ≡ first_of (given from.entry) }
{
    let text = text_or(from, "0");
    time_named(text)
}

/// Without a text it is the greatest number.
fn end_of(to: Option<&str>) -> Option<u64>
    ensures { result ≡ end_of (given to.entry) }
{
    let text = text_or(to, "18446744073709551615");
    time_named(text)
}

fn time_named(text: &[u8]) -> Option<u64>
    ensures { result ≡ time_named text.now }
{
    if text.is_empty() {
        return None;
    }
    let Some(number) = spelt(text) else {
        return None;
    };
    if number < NUMBER_LIMIT {
        Some(number as u64)
    } else {
        None
    }
}

/// The decimal number that digits spell; 2^64 for each greater one, so that no step overflows. In
/// the contract, 0 is the number before the first digit.
fn spelt(digits: &[u8]) -> Option<u128>
    ensures { result ≡ spelt 0 digits.now }
{
    let mut number = 0;
    for digit in digits {
        if *digit < b'0' || *digit > b'9' {
            return None;
        }
        number = (10 * number + (*digit - b'0') as u128).min(NUMBER_LIMIT);
    }
    Some(number)
}
