//! Reads lines of a saved journal, of which only the form is judged.

ghost use Rattle.std.specs.Prelude.{◌≡◌, ◌<◌, ◌+◌, ◌++◌, ◌∷◌, [], ℕ, List, MatchOption, decimal};
ghost use Rattle.std.specs.Prelude.{codes};
ghost use Rattle.std.specs.Fmt.{signed_decimal};
ghost use Rattle.irig_saved.specs.Ranges.{IsNumber, IsPulse};
ghost use Rattle.irig_saved.specs.ChangeWords.{moved_word, single_line};
ghost use Rattle.irig_saved.specs.Reading.{Decodes, IsWordy, IsShort};
ghost use Rattle.irig_saved.specs.Values.{AreThree, AreTwo, IsFormat, IsMark, IsMove, IsShift};
ghost use Rattle.irig_saved.specs.Values.{words_of_format, words_of_mark, words_of_shift};
ghost use Rattle.irig_saved.specs.Values.{words_of_three, words_of_two};
ghost use Rattle.irig_saved.specs.{Lines.numbered, Lines.line, SavedText.pulse_line};

use crate::cut::word_of;
use crate::letter::{Letter, Letters};
use crate::single::Single;
use crate::words::{distance, expression, moved, number, time};
use irig_codes::{Kind, kind_named};
use irig_track::Pulse;

/// What comes in a line after its first word, `head`, and a space.
fn behind<'a>(head: &[u8], text: &'a [u8]) -> Option<&'a [u8]>
    requires { IsWordy head.now }
    ensures { MatchOption result ((rest : List ℕ) → text.now ≡ head.now ++ 32 ∷ rest → ⊥)
        (λ rest. text.now ≡ head.now ++ 32 ∷ rest.now) }
{
    let Some((first, rest)) = word_of(text) else {
        return None;
    };
    if first == head { Some(rest) } else { None }
}

/// The number in a line of two words, `head` and a number.
pub fn counted(head: &[u8], text: &[u8]) -> Option<u64>
    requires { IsWordy head.now }
    ensures { Decodes IsNumber (λ n. numbered head.now (n ∷ [])) text.now result }
{
    let Some(word) = behind(head, text) else {
        return None;
    };
    number(word)
}

/// The format in a line of three words: `head`, a kind such as `B`, and an expression, 0 to 7.
pub fn format(head: &[u8], text: &[u8]) -> Option<(Kind, u8)>
    requires { IsWordy head.now }
    ensures { Decodes IsFormat (λ f. line head.now (words_of_format f)) text.now result }
{
    let (name, rest) = word_of(behind(head, text)?)?;
    Some((kind_named(name)?, expression(rest)?))
}

/// The time in a line `mark x TIME`, if x is this letter, `a` to `z`.
pub fn mark(letter_byte: u8, text: &[u8]) -> Option<u64>
    requires { (32 < letter_byte) × (letter_byte < 127) }
    ensures { Decodes IsNumber
        (λ t. line (codes "mark") ((letter_byte ∷ []) ∷ decimal t ∷ [])) text.now result }
{
    let (name, rest) = word_of(behind(b"mark", text)?)?;
    if name == [letter_byte].as_slice() {
        number(rest)
    } else {
        None
    }
}

/// The number in the first word of a text, and what is after the space that ends this word.
fn leading(text: &[u8]) -> Option<(u64, &[u8])>
    ensures { MatchOption result
        ((n : ℕ) (rest : List ℕ) → IsNumber n → text.now ≡ decimal n ++ 32 ∷ rest → ⊥)
        (λ x. IsNumber x.0 × (text.now ≡ decimal x.0 ++ 32 ∷ x.1.now)) }
{
    let Some((word, rest)) = word_of(text) else {
        return None;
    };
    match number(word) {
        Some(number) => Some((number, rest)),
        None => None,
    }
}

/// The two numbers in a text of two numbers with a space between.
fn pair(text: &[u8]) -> Option<(u64, u64)>
    ensures { Decodes AreTwo (λ t. numbered (decimal t.0) (t.1 ∷ [])) text.now result }
{
    let Some((first, second)) = leading(text) else {
        return None;
    };
    match number(second) {
        Some(second) => Some((first, second)),
        None => None,
    }
}

/// The pulse in a line `RISE FALL`.
pub fn pulse(text: &[u8]) -> Option<Pulse>
    ensures { Decodes IsPulse pulse_line text.now result }
{
    let Some((rise, fall)) = pair(text) else {
        return None;
    };
    Some(Pulse { rise, fall })
}

/// The numbers in a line `splice AT COUNT K`; the pulses that come are in the lines after it.
pub fn splice(text: &[u8]) -> Option<(u64, u64, u64)>
    ensures { Decodes AreThree (λ t. line (codes "splice") (words_of_three t)) text.now result }
{
    let Some(numbers) = behind(b"splice", text) else {
        return None;
    };
    let Some((at, rest)) = leading(numbers) else {
        return None;
    };
    match pair(rest) {
        Some((count, put)) => Some((at, count, put)),
        None => None,
    }
}

/// The change in a line, if it is of a kind that has one line. The kinds begin with different
/// words, so the order of the tests does not matter.
pub fn short(text: &[u8]) -> Option<Single>
    ensures { Decodes IsShort single_line text.now result }
{
    if let Some((a, b)) = toggle(text) {
        return Some(Single::Toggle { a, b });
    }
    if let Some((kind, expression)) = format(b"setformat", text) {
        return Some(Single::SetFormat { kind, expression });
    }
    if let Some((letter, time)) = set_mark(text) {
        return Some(Single::SetMark { letter, time });
    }
    let (i, j, by, marks) = shift(text)?;
    Some(Single::Shift { i, j, by, marks })
}

/// The two times in a line `toggle A B`.
fn toggle(text: &[u8]) -> Option<(u64, u64)>
    ensures { Decodes AreTwo (λ t. line (codes "toggle") (words_of_two t)) text.now result }
{
    let Some(words) = behind(b"toggle", text) else {
        return None;
    };
    pair(words)
}

/// What a line `setmark x TIME` says; the time is `None` in `setmark x -`.
fn set_mark(text: &[u8]) -> Option<(Letter, Option<u64>)>
    ensures { Decodes IsMark (λ t. line (codes "setmark") (words_of_mark t)) text.now result }
{
    let (name, rest) = word_of(behind(b"setmark", text)?)?;
    Some((Letter::named(name)?, time(rest)?))
}

/// What a line `shift I J D MARKS` says.
fn shift(text: &[u8]) -> Option<(u64, u64, i64, Letters)>
    ensures { Decodes IsShift (λ t. line (codes "shift") (words_of_shift t)) text.now result }
{
    let Some(words) = behind(b"shift", text) else {
        return None;
    };
    let Some((i, words)) = leading(words) else {
        return None;
    };
    let Some((j, words)) = leading(words) else {
        return None;
    };
    let (by, marks) = move_in(words)?;
    Some((i, j, by, marks))
}

/// The last two words of this line: a distance, and the marks that move; `-` says that none does.
fn move_in(text: &[u8]) -> Option<(i64, Letters)>
    ensures { Decodes IsMove
        (λ t. line (signed_decimal t.0) (moved_word t.1 ∷ [])) text.now result }
{
    let (by, marks) = word_of(text)?;
    Some((distance(by)?, moved(marks)?))
}
