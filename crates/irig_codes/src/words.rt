//! What people call kinds of time code and classes of pulses.

ghost use Rattle.std.specs.Prelude.{◌≡◌, ◌≤◌, MatchOption, Some, length, drop};
ghost use Rattle.std.specs.Str.{bytes_eq};
ghost use Rattle.irig_codes.specs.Words.{class_word, element_named, element_word, kind_named};
ghost use Rattle.irig_codes.specs.Words.{kind_word};
ghost use Rattle.irig_codes.specs.{declared.format.Kind.Kind, declared.width.Element.Element};

use crate::format::Kind;
use crate::width::Element;

/// The letter of a kind of time code.
pub fn kind_word(kind: Kind) -> &'static str
    ensures word { result.now ≡ kind_word kind }
    ensures one { length result.now ≡ 1 }
{
    match kind {
        Kind::A => "A",
        Kind::B => "B",
        Kind::E => "E",
        Kind::G => "G",
    }
}

/// The kind of time code that a letter names: `A`, `B`, `E` or `G`; `None` for any other text.
pub fn kind_named(word: &[u8]) -> Option<Kind>
    ensures value { result ≡ kind_named word.now }
    ensures named { MatchOption result ((k : Kind) → word.now ≡ kind_word k → ⊥)
        (λ k. word.now ≡ kind_word k) }
{
    if is_kind(word, Kind::A) {
        Some(Kind::A)
    } else if is_kind(word, Kind::B) {
        Some(Kind::B)
    } else if is_kind(word, Kind::E) {
        Some(Kind::E)
    } else if is_kind(word, Kind::G) {
        Some(Kind::G)
    } else {
        None
    }
}

fn is_kind(word: &[u8], kind: Kind) -> bool
    ensures { result ≡ bytes_eq word.now (kind_word kind) }
{
    word == kind_word(kind).as_bytes()
}

/// The word of an element, or `bad`, at the end of eight bytes, and the place in them where it
/// begins. So a caller that writes a line backwards always copies eight bytes, which is fast.
pub fn class_word(class: Option<Element>) -> ([u8; 8], usize)
    ensures word { drop result.1 result.0 ≡ class_word class }
    ensures short { result.1 ≤ 8 }
{
    match class {
        None => (*b"     bad", 5),
        Some(Element::Zero) => (*b"    zero", 4),
        Some(Element::One) => (*b"     one", 5),
        Some(Element::Position) => (*b"position", 0),
    }
}

/// The element that a word names: `zero`, `one` or `position`; `None` for any other text.
pub fn element_named(word: &[u8]) -> Option<Element>
    ensures value { result ≡ element_named word.now }
    ensures named { MatchOption result ((e : Element) → word.now ≡ element_word e → ⊥)
        (λ e. word.now ≡ element_word e) }
{
    if is_element(word, Element::Zero) {
        Some(Element::Zero)
    } else if is_element(word, Element::One) {
        Some(Element::One)
    } else if is_element(word, Element::Position) {
        Some(Element::Position)
    } else {
        None
    }
}

fn is_element(word: &[u8], element: Element) -> bool
    ensures { result ≡ bytes_eq word.now (element_word element) }
{
    let (letters, start) = class_word(Some(element));
    word == &letters[start..]
}
