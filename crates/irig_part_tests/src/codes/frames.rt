//! Frames with the fields that they carry, and what is noted of them.

use irig_codes::{Element, Fields, Format, Kind, Name, Note, decode, encode, fits};

/// The frame with these ones, and its position identifiers: 0, 9, 19 and so on to 99. A number from
/// 100 on is no element: it only fills a row.
fn frame_with(ones: &[usize]) -> [Element; 100] {
    let mut frame = [Element::Zero; 100];
    for element in 0..100 {
        if element == 0 || element % 10 == 9 {
            frame[element] = Element::Position;
        } else if ones.contains(&element) {
            frame[element] = Element::One;
        }
    }
    frame
}

/// The fields of day 0 at midnight, with no other part.
const NOTHING: Fields = Fields {
    hundredths: None,
    seconds: 0,
    minutes: 0,
    hours: 0,
    days: 0,
    year: None,
    sbs: None,
    control: None,
};

/// A format, the fields of a frame, and its ones.
type Carried = (Kind, u8, Fields, &'static [usize]);

/// Whether frame and fields give each other, with nothing wrong.
fn carries(format: Format, fields: &Fields, frame: &[Element; 100]) -> bool {
    fits(format, fields)
        && encode(format, fields) == *frame
        && decode(format, frame) == (*fields, Note::Fine)
}

fn is_carried((kind, expression, fields, ones): &Carried) -> bool {
    match Format::new(*kind, *expression) {
        Ok(format) => carries(format, fields, &frame_with(ones)),
        Err(_) => false,
    }
}

/// Frames of B and A, their ones by the weights of the standard.
static FIELDS: [Carried; 2] = [
    (
        Kind::B,
        4,
        Fields {
            days: 61,
            hours: 12,
            minutes: 34,
            seconds: 56,
            year: Some(24),
            sbs: Some(45_296),
            control: Some(0),
            ..NOTHING
        },
        &[
            // 56 s: 2, 3, 6, 8; 34 min: 12, 15, 16; 12 h: 21, 25; day 61: 30, 36, 37; year 24: 52,
            // 56. 45,296 s is bits 4 to 7, 12, 13 and 15: 84 to 87, 93, 94, 96.
            2, 3, 6, 8, 12, 15, 16, 21, 25, 30, 36, 37, 52, 56, 84, 85, 86, 87, 93, 94, 96,
        ],
    ),
    (
        Kind::A,
        0,
        Fields {
            days: 173,
            hours: 21,
            minutes: 18,
            seconds: 42,
            hundredths: Some(80),
            sbs: Some(76_722),
            control: Some(0),
            ..NOTHING
        },
        &[
            // 42 s: 2, 8; 18 min: 13, 15; 21 h: 20, 26; day 173: 30 to 40; 8 tenths: 48. 76,722 s
            // is bits 1, 4, 5, 7, 8, 9, 11, 13 and 16: 81 to 97.
            2, 8, 13, 15, 20, 26, 30, 31, 35, 36, 37, 40, 48, 81, 84, 85, 87, 88, 90, 92, 94, 97,
        ],
    ),
];

#[test]
fn frames_carry_their_fields_both_ways(rt: HostRuntime) {
    for row in FIELDS.iter() {
        assert!(rt; is_carried(row));
    }
}

/// The control functions are from element 50 on in this E and from 70 on in this G.
static CONTROLS: [Carried; 2] = [
    (
        Kind::E,
        1,
        Fields {
            days: 173,
            hours: 21,
            minutes: 18,
            seconds: 40,
            control: Some(5),
            ..NOTHING
        },
        // 40 s: 8, as E has only tens of seconds; control 5: 50, 52.
        &[8, 13, 15, 20, 26, 30, 31, 35, 36, 37, 40, 50, 52],
    ),
    (
        Kind::G,
        5,
        Fields {
            days: 173,
            hours: 21,
            minutes: 18,
            seconds: 42,
            hundredths: Some(87),
            year: Some(4),
            control: Some(1),
            ..NOTHING
        },
        &[
            // 87 hundredths: 48 (8 tenths), 50, 51, 52; year 4: 62; control 1: 70.
            2, 8, 13, 15, 20, 26, 30, 31, 35, 36, 37, 40, 48, 50, 51, 52, 62, 70,
        ],
    ),
];

#[test]
fn frames_carry_their_control_functions_both_ways(rt: HostRuntime) {
    for row in CONTROLS.iter() {
        assert!(rt; is_carried(row));
    }
}

/// An expression of B, the ones of a frame, the fields that are read of it, and what is noted.
type Noted = (u8, &'static [usize], Fields, Note);

static NOTED: [Noted; 4] = [
    // No ones: day 0, which no year has.
    (2, &[100, 100, 100], NOTHING, Note::Field(Name::Days)),
    (
        2,
        // Day 1. Seconds 2 and 8 make 10 in one digit.
        &[30, 2, 4],
        Fields {
            days: 1,
            seconds: 10,
            ..NOTHING
        },
        Note::Field(Name::Seconds),
    ),
    (
        2,
        // Element 5, between units and tens of the seconds, carries nothing.
        &[30, 5, 100],
        Fields { days: 1, ..NOTHING },
        Note::Stray(5),
    ),
    (
        3,
        // Second 1 of the day at midnight, which is second 0.
        &[30, 80],
        Fields {
            days: 1,
            sbs: Some(1),
            ..NOTHING
        },
        Note::SbsDisagrees,
    ),
];

fn is_noted((expression, ones, fields, note): &Noted) -> bool {
    match Format::new(Kind::B, *expression) {
        Ok(format) => decode(format, &frame_with(ones)) == (*fields, *note),
        Err(_) => false,
    }
}

#[test]
fn what_is_wrong_with_a_frame_is_noted(rt: HostRuntime) {
    for row in NOTED.iter() {
        assert!(rt; is_noted(row));
    }
}
