//! The fifteen numbers of a frame, by the elements that are One and the table of the standard.

ghost use Rattle.std.specs.Prelude.{◌≡◌, ◌<◌, ◌+◌, ◌*◌, ◌^◌, [], ◌∷◌, false};
ghost use Rattle.irig_codes.specs.OnesDigits.{control_number, digit_in, sbs_in, control_in};
ghost use Rattle.irig_codes.specs.OnesDigits.{digits_in};
ghost use Rattle.irig_codes.specs.declared.note.Name.TheVariants.{Hundredths, Seconds, Year};
ghost use Rattle.irig_codes.specs.{Ones.bits_in, Layout.runs};

use crate::format::{Format, Kind};
use crate::ones::Ones;

/// Elements 50 to 53 in format G, else 0.
fn hundredths_units(kind: Kind, ones: Ones) -> u64
    ensures { result ≡ digit_in ones 1 (runs kind false Hundredths) }
{
    match kind {
        Kind::G => ones.bits(50, 4),
        Kind::A | Kind::B | Kind::E => 0,
    }
}

/// Elements 45 to 48 in formats A and G, else 0.
fn hundredths_tens(kind: Kind, ones: Ones) -> u64
    ensures { result ≡ digit_in ones 10 (runs kind false Hundredths) }
{
    match kind {
        Kind::A | Kind::G => ones.bits(45, 4),
        Kind::B | Kind::E => 0,
    }
}

/// Elements 1 to 4; format E has none, so it is 0.
fn seconds_units(kind: Kind, ones: Ones) -> u64
    ensures { result ≡ digit_in ones 1 (runs kind false Seconds) }
{
    match kind {
        Kind::E => 0,
        Kind::A | Kind::B | Kind::G => ones.bits(1, 4),
    }
}

/// Elements 50 to 53. In G these carry hundredths, so the year is ten elements later.
fn year_units(kind: Kind, year: bool, ones: Ones) -> u64
    ensures { result ≡ digit_in ones 1 (runs kind year Year) }
{
    match (kind, year) {
        (_, false) => 0,
        (Kind::G, true) => ones.bits(60, 4),
        (Kind::A | Kind::B | Kind::E, true) => ones.bits(50, 4),
    }
}

/// Elements 55 to 58, or ten elements later in G.
fn year_tens(kind: Kind, year: bool, ones: Ones) -> u64
    ensures { result ≡ digit_in ones 10 (runs kind year Year) }
{
    match (kind, year) {
        (_, false) => 0,
        (Kind::G, true) => ones.bits(65, 4),
        (Kind::A | Kind::B | Kind::E, true) => ones.bits(55, 4),
    }
}

/// 17 bits, in the elements 80 to 88 and 90 to 97: so the second run counts 2^9.
fn sbs(there: bool, ones: Ones) -> u64
    ensures { result ≡ sbs_in there ones }
{
    if there {
        ones.bits(80, 9) + 512 * ones.bits(90, 8)
    } else {
        0
    }
}

/// The number of the nine control elements up to the next position identifier, and of those after
/// them, `after`, which is nine bits higher.
#[inline(always)]
fn nine_at(ones: Ones, from: u8, after: u64) -> u64
    requires within { from < 100 }
    requires room { after < 2 ^ 36 }
    ensures value { result ≡ bits_in ones from 9 + 512 * after }
    ensures bound { result < 512 * (after + 1) }
{
    ones.bits(from, 9) + 512 * after
}

/// The number of the control elements from 70 to 98, as E and G have them.
#[inline(always)]
fn from_70(ones: Ones) -> u64
    ensures value { result ≡ control_number ones (70 ∷ 80 ∷ 90 ∷ []) }
    ensures bound { result < 2 ^ 27 }
{
    nine_at(ones, 70, nine_at(ones, 80, nine_at(ones, 90, 0)))
}

/// The control elements as one number, the first one as the lowest bit. The year takes nine
/// elements before them.
fn control(kind: Kind, there: bool, year: bool, ones: Ones) -> u64
    ensures { result ≡ control_in kind there year ones }
{
    if !there {
        return 0;
    }
    match (kind, year) {
        (Kind::A | Kind::B, true) => nine_at(ones, 60, nine_at(ones, 70, 0)),
        (Kind::A | Kind::B, false) => nine_at(ones, 50, nine_at(ones, 60, nine_at(ones, 70, 0))),
        (Kind::E, true) | (Kind::G, false) => nine_at(ones, 60, from_70(ones)),
        (Kind::E, false) => nine_at(ones, 50, nine_at(ones, 60, from_70(ones))),
        (Kind::G, true) => from_70(ones),
    }
}

/// The fifteen numbers that a frame carries, in the order of `Digit`.
pub fn read_digits(format: Format, ones: Ones) -> [u64; 15]
    ensures { result ≡ digits_in format ones }
{
    let kind = format.kind();
    let year = format.has_year();
    [
        hundredths_units(kind, ones),
        hundredths_tens(kind, ones),
        seconds_units(kind, ones),
        // The tens of the seconds; E has them, too.
        ones.bits(6, 3),
        // Minutes, hours and the day are at the same elements in all kinds.
        ones.bits(10, 4),
        ones.bits(15, 3),
        ones.bits(20, 4),
        ones.bits(25, 2),
        ones.bits(30, 4),
        ones.bits(35, 4),
        ones.bits(40, 2),
        year_units(kind, year, ones),
        year_tens(kind, year, ones),
        sbs(format.has_sbs(), ones),
        control(kind, format.has_control(), year, ones),
    ]
}
