//! What the elements of a frame carry: the code's one table, read as slots and as masks.

use crate::layout::{Digit, Slot};
use crate::parts::Part;

// The ten elements of a part, for the macro that is named: P is a position identifier, _ an unused
// element, and (digit place) a bit.
macro_rules! part {
    ($to:ident Seconds) => { $to![
        P (SecondsUnits 0) (SecondsUnits 1) (SecondsUnits 2) (SecondsUnits 3)
        _ (SecondsTens 0) (SecondsTens 1) (SecondsTens 2) P
    ] };
    ($to:ident TensOfSeconds) => { $to![
        P _ _ _ _
        _ (SecondsTens 0) (SecondsTens 1) (SecondsTens 2) P
    ] };
    ($to:ident Minutes) => { $to![
        (MinutesUnits 0) (MinutesUnits 1) (MinutesUnits 2) (MinutesUnits 3) _
        (MinutesTens 0) (MinutesTens 1) (MinutesTens 2) _ P
    ] };
    ($to:ident Hours) => { $to![
        (HoursUnits 0) (HoursUnits 1) (HoursUnits 2) (HoursUnits 3) _
        (HoursTens 0) (HoursTens 1) _ _ P
    ] };
    ($to:ident Days) => { $to![
        (DaysUnits 0) (DaysUnits 1) (DaysUnits 2) (DaysUnits 3) _
        (DaysTens 0) (DaysTens 1) (DaysTens 2) (DaysTens 3) P
    ] };
    ($to:ident Hundreds) => { $to![
        (DaysHundreds 0) (DaysHundreds 1) _ _ _ _ _ _ _ P
    ] };
    ($to:ident HundredsAndTenths) => { $to![
        (DaysHundreds 0) (DaysHundreds 1) _ _ _
        (HundredthsTens 0) (HundredthsTens 1) (HundredthsTens 2) (HundredthsTens 3) P
    ] };
    ($to:ident Hundredths) => { $to![
        (HundredthsUnits 0) (HundredthsUnits 1) (HundredthsUnits 2) (HundredthsUnits 3) _
        _ _ _ _ P
    ] };
    ($to:ident Year) => { $to![
        (YearUnits 0) (YearUnits 1) (YearUnits 2) (YearUnits 3) _
        (YearTens 0) (YearTens 1) (YearTens 2) (YearTens 3) P
    ] };
    ($to:ident LowSbs) => { $to![
        (Sbs 0) (Sbs 1) (Sbs 2) (Sbs 3) (Sbs 4)
        (Sbs 5) (Sbs 6) (Sbs 7) (Sbs 8) P
    ] };
    ($to:ident HighSbs) => { $to![
        (Sbs 9) (Sbs 10) (Sbs 11) (Sbs 12) (Sbs 13)
        (Sbs 14) (Sbs 15) (Sbs 16) _ P
    ] };
    ($to:ident Blank) => { $to![_ _ _ _ _ _ _ _ _ P] };
    ($to:ident Control1) => { $to![
        (Control 0) (Control 1) (Control 2) (Control 3) (Control 4)
        (Control 5) (Control 6) (Control 7) (Control 8) P
    ] };
    ($to:ident Control2) => { $to![
        (Control 9) (Control 10) (Control 11) (Control 12) (Control 13)
        (Control 14) (Control 15) (Control 16) (Control 17) P
    ] };
    ($to:ident Control3) => { $to![
        (Control 18) (Control 19) (Control 20) (Control 21) (Control 22)
        (Control 23) (Control 24) (Control 25) (Control 26) P
    ] };
    ($to:ident Control4) => { $to![
        (Control 27) (Control 28) (Control 29) (Control 30) (Control 31)
        (Control 32) (Control 33) (Control 34) (Control 35) P
    ] };
    ($to:ident Control5) => { $to![
        (Control 36) (Control 37) (Control 38) (Control 39) (Control 40)
        (Control 41) (Control 42) (Control 43) (Control 44) P
    ] };
}

// The ten parts of a frame, for the macro that is named (`$to`), in each kind without and with the
// year. `$with`, in brackets, is passed on to that macro before them.
macro_rules! frame {
    ($to:ident $with:tt A plain) => { $to![
        $with Seconds Minutes Hours Days HundredsAndTenths
        Control1 Control2 Control3 LowSbs HighSbs
    ] };
    ($to:ident $with:tt A year) => { $to![
        $with Seconds Minutes Hours Days HundredsAndTenths
        Year Control1 Control2 LowSbs HighSbs
    ] };
    ($to:ident $with:tt B plain) => { $to![
        $with Seconds Minutes Hours Days Hundreds
        Control1 Control2 Control3 LowSbs HighSbs
    ] };
    ($to:ident $with:tt B year) => { $to![
        $with Seconds Minutes Hours Days Hundreds
        Year Control1 Control2 LowSbs HighSbs
    ] };
    ($to:ident $with:tt E plain) => { $to![
        $with TensOfSeconds Minutes Hours Days Hundreds
        Control1 Control2 Control3 Control4 Control5
    ] };
    ($to:ident $with:tt E year) => { $to![
        $with TensOfSeconds Minutes Hours Days Hundreds
        Year Control1 Control2 Control3 Control4
    ] };
    ($to:ident $with:tt G plain) => { $to![
        $with Seconds Minutes Hours Days HundredsAndTenths
        Hundredths Control1 Control2 Control3 Control4
    ] };
    ($to:ident $with:tt G year) => { $to![
        $with Seconds Minutes Hours Days HundredsAndTenths
        Hundredths Year Control1 Control2 Control3
    ] };
}

// Elements as slots.
macro_rules! slots {
    ($($element:tt)*) => { [$(slot!($element)),*] };
}

// An element as a slot.
macro_rules! slot {
    (P) => { Slot::Identifier };
    (_) => { Slot::Unused };
    (($digit:ident $place:literal)) => { Slot::Bit(Digit::$digit, $place) };
}

// Elements as a mask of those that carry a bit: the first is the lowest.
macro_rules! mask {
    () => { 0 };
    ($element:tt $($later:tt)*) => { bit!($element) + 2 * mask![$($later)*] };
}

// Whether an element carries a bit.
macro_rules! bit {
    (P) => { 0 };
    (_) => { 0 };
    (($digit:ident $place:literal)) => { 1 };
}

// A frame as its parts.
macro_rules! listed {
    (() $($part:ident)*) => { [$(Part::$part),*] };
}

// A frame as a mask, in an expression that has control functions if c is 1, and straight binary
// seconds if s is 1.
macro_rules! masked {
    (($c:tt $s:tt)) => { 0 };
    (($c:tt $s:tt) $part:ident $($later:ident)*) => {
        carried!($c $s $part) + 1024 * masked![($c $s) $($later)*]
    };
}

// A part as a mask, in such an expression.
macro_rules! carried {
    ($c:tt $s:tt Control1) => { $c * part!(mask Control1) };
    ($c:tt $s:tt Control2) => { $c * part!(mask Control2) };
    ($c:tt $s:tt Control3) => { $c * part!(mask Control3) };
    ($c:tt $s:tt Control4) => { $c * part!(mask Control4) };
    ($c:tt $s:tt Control5) => { $c * part!(mask Control5) };
    ($c:tt $s:tt LowSbs) => { $s * part!(mask LowSbs) };
    ($c:tt $s:tt HighSbs) => { $s * part!(mask HighSbs) };
    ($c:tt $s:tt $part:ident) => { part!(mask $part) };
}

// The masks of expressions 0 to 7, also of those that E and G do not permit.
macro_rules! masks {
    ($kind:ident) => { [
        frame!(masked (1 1) $kind plain),
        frame!(masked (1 0) $kind plain),
        frame!(masked (0 0) $kind plain),
        frame!(masked (0 1) $kind plain),
        frame!(masked (1 1) $kind year),
        frame!(masked (1 0) $kind year),
        frame!(masked (0 0) $kind year),
        frame!(masked (0 1) $kind year),
    ] };
}

pub static SECONDS: [Slot; 10] = part!(slots Seconds);

pub static TENS_OF_SECONDS: [Slot; 10] = part!(slots TensOfSeconds);

pub static MINUTES: [Slot; 10] = part!(slots Minutes);

pub static HOURS: [Slot; 10] = part!(slots Hours);

pub static DAYS: [Slot; 10] = part!(slots Days);

pub static HUNDREDS: [Slot; 10] = part!(slots Hundreds);

pub static HUNDREDS_AND_TENTHS: [Slot; 10] = part!(slots HundredsAndTenths);

pub static HUNDREDTHS: [Slot; 10] = part!(slots Hundredths);

pub static YEAR: [Slot; 10] = part!(slots Year);

pub static LOW_SBS: [Slot; 10] = part!(slots LowSbs);

pub static HIGH_SBS: [Slot; 10] = part!(slots HighSbs);

pub static BLANK: [Slot; 10] = part!(slots Blank);

pub static CONTROL_1: [Slot; 10] = part!(slots Control1);

pub static CONTROL_2: [Slot; 10] = part!(slots Control2);

pub static CONTROL_3: [Slot; 10] = part!(slots Control3);

pub static CONTROL_4: [Slot; 10] = part!(slots Control4);

pub static CONTROL_5: [Slot; 10] = part!(slots Control5);

pub static A_PLAIN: [Part; 10] = frame!(listed () A plain);

pub static A_YEAR: [Part; 10] = frame!(listed () A year);

pub static B_PLAIN: [Part; 10] = frame!(listed () B plain);

pub static B_YEAR: [Part; 10] = frame!(listed () B year);

pub static E_PLAIN: [Part; 10] = frame!(listed () E plain);

pub static E_YEAR: [Part; 10] = frame!(listed () E year);

pub static G_PLAIN: [Part; 10] = frame!(listed () G plain);

pub static G_YEAR: [Part; 10] = frame!(listed () G year);

pub static A_MASKS: [u128; 8] = masks!(A);

pub static B_MASKS: [u128; 8] = masks!(B);

pub static E_MASKS: [u128; 8] = masks!(E);

pub static G_MASKS: [u128; 8] = masks!(G);
