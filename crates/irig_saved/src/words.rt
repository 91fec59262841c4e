//! Reads words of a saved journal.

ghost use Rattle.std.specs.Prelude.{◌≡◌, ◌≤◌, decimal, length};
ghost use Rattle.std.specs.Fmt.{signed_decimal};
ghost use Rattle.irig_saved.specs.Ranges.{IsNumber, IsDistance, IsTime};
ghost use Rattle.irig_saved.specs.ChangeWords.{moved_word, time_word};
ghost use Rattle.irig_saved.specs.Reading.{Decodes, AreLetters};

use crate::letter::Letters;
use itoa::Buffer;

/// The number below 2^64 that a word is. `parse` also takes a sign and leading zeros, which no
/// number of a journal has, so the number is written again and compared.
pub fn number(word: &[u8]) -> Option<u64>
    ensures { Decodes IsNumber (λ n. decimal n) word.now result }
{
    let Ok(text) = str::from_utf8(word) else {
        return None;
    };
    let Ok(number) = text.parse::<u64>() else {
        return None;
    };
    let mut buffer = Buffer::new();
    if buffer.format(number).as_bytes() == word {
        Some(number)
    } else {
        None
    }
}

/// The distance in microseconds that a word is; `None` also for `+5`, `05` and `-0`.
pub fn distance(word: &[u8]) -> Option<i64>
    ensures { Decodes IsDistance (λ d. signed_decimal d) word.now result }
{
    let Ok(text) = str::from_utf8(word) else {
        return None;
    };
    let Ok(number) = text.parse::<i64>() else {
        return None;
    };
    let mut buffer = Buffer::new();
    if buffer.format(number).as_bytes() == word {
        Some(number)
    } else {
        None
    }
}

/// The coded expression that a word is: one digit, 0 to 7.
pub fn expression(word: &[u8]) -> Option<u8>
    ensures { Decodes (λ n. n ≤ 7) (λ n. decimal n) word.now result }
{
    let value = number(word)?;
    if value <= 7 { Some(value as u8) } else { None }
}

/// The time in microseconds that a word is; `Some(None)` for the word `-`.
pub fn time(word: &[u8]) -> Option<Option<u64>>
    ensures { Decodes IsTime time_word word.now result }
{
    if word == b"-".as_slice() {
        return Some(None);
    }
    let Some(time) = number(word) else {
        return None;
    };
    Some(Some(time))
}

/// The marks whose letters a word has, in their order and each once; `-` has none.
pub fn moved(word: &[u8]) -> Option<Letters>
    ensures { Decodes AreLetters moved_word word.now result }
{
    let mut marks = [false; 26];
    if word == b"-".as_slice() {
        return Some(marks);
    }
    // Each letter is taken if it comes next, so one out of order or twice is left over.
    let mut rest = word;
    for letter in 0..26 {
        if let [first, others @ ..] = rest {
            if *first == b'a' + letter {
                marks[letter as usize] = true;
                rest = others;
            }
        }
    }
    if rest.is_empty() && !word.is_empty() {
        Some(marks)
    } else {
        None
    }
}
