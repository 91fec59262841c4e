//! What the texts of single values mean.

ghost use Rattle.std.specs.Prelude.{◌≡◌, ◌≤◌, ◌<◌, ◌^◌, IfSome, Some};
ghost use Rattle.irig_time.specs.Values.{comma_named, form_named, is_of_text};
ghost use Rattle.irig_time.specs.Values.{is_parting, near, offset_named, whole_between, within};

use irig_stamps::{Form, Picos, number, whole};
use irig_words::is_same;

/// The greatest offset, before zero and after it: 2^119 picoseconds.
const LATEST: u128 = 664_613_997_892_457_936_451_903_530_140_172_288;

/// The whole number that a text is, if it is one from `first` to `last`, both included.
pub fn whole_between(first: u128, last: u128, text: &[u8]) -> Option<u128>
    requires { last < 2 ^ 120 }
    ensures value { result ≡ whole_between first last text.now }
    ensures range { IfSome result (λ v. (first ≤ v) × (v ≤ last)) }
{
    match whole(text) {
        Some(number) => within(first, last, number),
        None => None,
    }
}

fn within(first: u128, last: u128, number: u128) -> Option<u128>
    ensures value { result ≡ within first last (Some number) }
    ensures range { IfSome result (λ v. (first ≤ v) × (v ≤ last)) }
{
    if first <= number && number <= last {
        Some(number)
    } else {
        None
    }
}

/// The time that a text means: the text is a number of units, each of 10^`places` picoseconds, and
/// the time is in picoseconds, rounded down.
pub fn offset_named(places: usize, text: &[u8]) -> Option<Picos>
    ensures value { result ≡ offset_named places text.now }
    ensures range { IfSome result (λ v. v.size ≤ 2 ^ 119) }
{
    match number(places, text) {
        Some(picos) => near(picos),
        None => None,
    }
}

fn near(picos: Picos) -> Option<Picos>
    ensures value { result ≡ near (Some picos) }
    ensures range { IfSome result (λ v. v.size ≤ 2 ^ 119) }
{
    if picos.size <= LATEST {
        Some(picos)
    } else {
        None
    }
}

pub fn comma_named(text: &[u8]) -> Option<u8>
    ensures { result ≡ comma_named text.now }
{
    match text {
        [byte] if is_parting(*byte) => Some(*byte),
        _ => None,
    }
}

fn is_parting(byte: u8) -> bool
    ensures { result ≡ is_parting byte }
{
    byte <= 127 && !is_of_text(byte) && byte != b'\n' && byte != b'\r'
}

fn is_of_text(byte: u8) -> bool
    ensures { result ≡ is_of_text byte }
{
    matches!(byte, b'A'..=b'Z' | b'a'..=b'z' | b'0'..=b'9' | b'.' | b'+' | b'-' | b':' | b'"')
}

pub fn form_named(name: &[u8]) -> Option<Form>
    ensures { result ≡ form_named name.now }
{
    if is_same(name, b"ordinal") {
        Some(Form::Ordinal)
    } else if is_same(name, b"calendar") {
        Some(Form::Calendar)
    } else if is_same(name, b"seconds") {
        Some(Form::Seconds)
    } else {
        None
    }
}
