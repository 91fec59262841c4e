//! The unit of time that the name of a column has, as `ms` in `Time (ms) rel` and `t_ms`.

ghost use Rattle.std.specs.Prelude.{◌≡◌, ◌≤◌, IfSome};
ghost use Rattle.irig_stamps.specs.HeaderUnits.{before_word, differs, header_unit, in_brackets};
ghost use Rattle.irig_stamps.specs.HeaderUnits.{is_bracketed, is_other_tick, is_other_unit};
ghost use Rattle.irig_stamps.specs.HeaderUnits.{last_word, names_comma, names_other_unit};
ghost use Rattle.irig_stamps.specs.HeaderUnits.{word_unit, word_zeros};

use crate::columns::column;
use crate::cutting::{Until, cut, cut_back};
use crate::settings::Settings;
use crate::unit_names::{unit_places, with_zeros, zeros_of};

/// Whether a line of the header names another unit for the column of the recorder's time.
pub fn names_other_unit(settings: &Settings<'_>, line: &[u8]) -> bool
    ensures { result ≡ names_other_unit settings.now line.now }
{
    let comma = names_comma(settings.comma, line);
    is_other_unit(settings.places, column(comma, settings.column, line))
}

fn names_comma(comma: Option<u8>, line: &[u8]) -> Option<u8>
    ensures { result ≡ names_comma comma line.now }
{
    if comma.is_none() && line.contains(&b'\t') {
        Some(b'\t')
    } else {
        comma
    }
}

fn is_other_unit(places: usize, name: &[u8]) -> bool
    ensures { result ≡ is_other_unit places name.now }
{
    is_bracketed(name) && is_other_tick(in_brackets(name)) || differs(places, header_unit(name))
}

fn is_bracketed(name: &[u8]) -> bool
    ensures { result ≡ is_bracketed name.now }
{
    let (before, opened) = cut_back(name, Until::Opening);
    let (_, left) = cut(opened, Until::Closing);
    let (words, _) = cut_back(left, Until::Alphanumeric);
    !before.is_empty() && !left.is_empty() && words.is_empty()
}

fn in_brackets(name: &[u8]) -> &[u8]
    ensures { result.now ≡ in_brackets name.now }
{
    let (_, opened) = cut_back(name, Until::Opening);
    let (inside, _) = cut(opened, Until::Closing);
    let (_, text) = cut(inside, Until::NonBlank);
    text
}

/// Whether a text is a number and a word that are no unit, as `25 ns` and `10 MHz`.
fn is_other_tick(text: &[u8]) -> bool
    ensures { result ≡ is_other_tick text.now }
{
    let (number, left) = cut(text, Until::NonDigit);
    let (word, _) = cut_back(left, Until::Letter);
    let (_, unit) = cut(left, Until::NonBlank);
    let (unit, _) = cut_back(unit, Until::NonBlank);
    !number.is_empty()
        && !word.is_empty()
        && with_zeros(zeros_of(number), unit_places(unit)).is_none()
}

/// Whether a unit of 10^`unit` femtoseconds is another one than 10^`places` picoseconds.
fn differs(places: usize, unit: Option<usize>) -> bool
    ensures { result ≡ differs places unit }
{
    match unit {
        Some(unit) => places as u128 + 3 != unit as u128,
        None => false,
    }
}

/// The unit of the last word that has one.
fn header_unit(name: &[u8]) -> Option<usize>
    ensures { result ≡ header_unit name.now }
{
    let mut left = name;
    for passed in 0..name.len() {
        let (before, word) = cut_word(left);
        let (_, previous) = cut_word(before);
        match word_unit(previous, word) {
            Some(unit) => return Some(unit),
            None => left = before,
        }
    }
    None
}

/// What is before the last word of a text, and the word.
fn cut_word(text: &[u8]) -> (&[u8], &[u8])
    ensures before { result.0.now ≡ before_word text.now }
    ensures word { result.1.now ≡ last_word text.now }
{
    let (named, _) = cut_back(text, Until::Alphanumeric);
    cut_back(named, Until::NonAlphanumeric)
}

/// The unit that a word has, as `us`, `10us`, or `us` after the word `10`.
fn word_unit(previous: &[u8], word: &[u8]) -> Option<usize>
    ensures { result ≡ word_unit previous.now word.now }
{
    let (number, letters) = cut(word, Until::NonDigit);
    with_zeros(word_zeros(previous, number), unit_places(letters))
}

/// The zeros of the number of a unit; if the unit has none, of that in the word before it.
fn word_zeros(previous: &[u8], number: &[u8]) -> Option<usize>
    ensures value { result ≡ word_zeros previous.now number.now }
    ensures range { IfSome result (λ n. n ≤ 2) }
{
    if number.is_empty() {
        Some(zeros_of(previous).unwrap_or(0))
    } else {
        zeros_of(number)
    }
}
