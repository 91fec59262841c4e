//! The names of units of time, in English, German and French.

ghost use Rattle.std.specs.Prelude.{◌≡◌, ◌≤◌, IfSome, option_map};
ghost use Rattle.irig_stamps.specs.UnitNames.{after_letter, after_word, is_micro, is_part, is_second};
ghost use Rattle.irig_stamps.specs.UnitNames.{is_word, lower, unit_places, with_zeros, zeros_of};

/// The n of a unit of 10^n femtoseconds, with some zeros more; `None` if one of them is not known.
pub fn with_zeros(zeros: Option<usize>, unit: Option<usize>) -> Option<usize>
    requires zeros { IfSome zeros (λ n. n ≤ 2) }
    requires unit { IfSome unit (λ n. n ≤ 15) }
    ensures value { result ≡ with_zeros zeros unit }
    ensures range { IfSome result (λ n. n ≤ 17) }
{
    match (zeros, unit) {
        (Some(zeros), Some(unit)) => Some(unit + zeros),
        _ => None,
    }
}

pub fn zeros_of(digits: &[u8]) -> Option<usize>
    ensures value { result ≡ zeros_of digits.now }
    ensures range { IfSome result (λ n. n ≤ 2) }
{
    match digits {
        [] => Some(0),
        [b'1'] => Some(0),
        [b'1', b'0'] => Some(1),
        [b'1', b'0', b'0'] => Some(2),
        _ => None,
    }
}

/// The n of a unit of 10^n femtoseconds.
pub fn unit_places(name: &[u8]) -> Option<usize>
    ensures value { result ≡ unit_places name.now }
    ensures range { IfSome result (λ n. n ≤ 15) }
{
    if is_second(name) {
        Some(15)
    } else if is_part(b"m", name) || is_part(b"milli", name) {
        Some(12)
    } else if is_micro(name) {
        Some(9)
    } else if is_part(b"n", name) || is_part(b"nano", name) {
        Some(6)
    } else if is_part(b"p", name) || is_part(b"pico", name) {
        Some(3)
    } else if is_part(b"f", name) || is_part(b"femto", name) {
        Some(0)
    } else {
        None
    }
}

/// The last three are the sign of micro: two in UTF-8, and the one of Latin-1.
fn is_micro(name: &[u8]) -> bool
    ensures { result ≡ is_micro name.now }
{
    is_part(b"u", name)
        || is_part(b"micro", name)
        || is_part(b"mikro", name)
        || is_part(&[194, 181], name)
        || is_part(&[206, 188], name)
        || is_part(&[181], name)
}

fn is_part(word: &[u8], name: &[u8]) -> bool
    ensures { result ≡ is_part word.now name.now }
{
    match after_word(word, name) {
        Some(left) => is_second(left),
        None => false,
    }
}

fn is_second(name: &[u8]) -> bool
    ensures { result ≡ is_second name.now }
{
    is_word(b"s", name)
        || is_word(b"sec", name)
        || is_word(b"second", name)
        || is_word(b"seconds", name)
        || is_word(b"sek", name)
        || is_word(b"sekunden", name)
        || is_word(b"secondes", name)
}

fn is_word(word: &[u8], name: &[u8]) -> bool
    ensures { result ≡ is_word word.now name.now }
{
    match after_word(word, name) {
        Some(left) => left.is_empty(),
        None => false,
    }
}

fn after_word<'a>(word: &[u8], name: &'a [u8]) -> Option<&'a [u8]>
    ensures { option_map (λ left. left.now) result ≡ after_word word.now name.now }
{
    match word {
        [] => Some(name),
        [letter, word @ ..] => match after_letter(*letter, name) {
            Some(name) => after_word(word, name),
            None => None,
        },
    }
}

fn after_letter(letter: u8, name: &[u8]) -> Option<&[u8]>
    ensures { option_map (λ left. left.now) result ≡ after_letter letter name.now }
{
    match name {
        [byte, left @ ..] => {
            if lower(*byte) == letter {
                Some(left)
            } else {
                None
            }
        }
        [] => None,
    }
}

fn lower(byte: u8) -> u8
    ensures { result ≡ lower byte }
{
    if matches!(byte, b'A'..=b'Z') {
        byte + 32
    } else {
        byte
    }
}
