//! Rows from outside: texts of moments, and the frames from them on.

use irig_codes::{Fields, Format, Kind};
use irig_moment::Moment;
use std::process::Abort;

/// A moment, a kind, an expression, a frame's number from the moment on, from 0, and its fields.
type Row = (&'static [u8], Kind, u8, u64, Fields);

/// The fields of day 1 at midnight, with no other part.
const DAY: Fields = Fields {
    hundredths: None,
    seconds: 0,
    minutes: 0,
    hours: 0,
    days: 1,
    year: None,
    sbs: None,
    control: None,
};

/// No control function is set (the 0). `fields` asks for a `k` below 10,000.
fn has_fields(moment: Moment, format: Format, k: u64, fields: &Fields) -> bool {
    moment.starts(format) && k < 10_000 && moment.fields(format, k, 0) == *fields
}

fn is_told((text, kind, expression, k, fields): &Row) -> bool {
    match (Moment::parse(text), Format::new(*kind, *expression)) {
        (Some(moment), Ok(format)) => has_fields(moment, format, *k, fields),
        _ => false,
    }
}

fn check(rt: &impl Abort, rows: &[Row]) {
    for row in rows {
        assert!(rt; is_told(row));
    }
}

/// Day 31 + 29 + 1, and second 12 * 3,600 + 34 * 60 + 56 of the day.
const NOON: Fields = Fields {
    seconds: 56,
    minutes: 34,
    hours: 12,
    days: 61,
    year: Some(24),
    sbs: Some(45_296),
    control: Some(0),
    ..DAY
};

/// One second later, also over the end of a year. The first two texts are one moment.
static WHOLE: [Row; 3] = [
    (b"2024-061T12:34:55", Kind::B, 4, 1, NOON),
    (b"2024-03-01T12:34:55", Kind::B, 4, 1, NOON),
    (
        b"2023-365T23:59:59",
        Kind::B,
        4,
        1,
        Fields {
            year: Some(24),
            sbs: Some(0),
            control: Some(0),
            ..DAY
        },
    ),
];

#[test]
fn frames_of_b_tell_the_moment_and_whole_periods(rt: HostRuntime) {
    check(&rt, &WHOLE);
}

/// Frame 1 of G is one hundredth after the moment, frame 9 of A nine tenths. 2024 has 366 days.
static PARTS: [Row; 2] = [
    (
        b"2024-001T00:00:00",
        Kind::G,
        2,
        1,
        Fields {
            hundredths: Some(1),
            ..DAY
        },
    ),
    (
        b"2024-12-31T23:59:59.00",
        Kind::A,
        6,
        9,
        Fields {
            hundredths: Some(90),
            seconds: 59,
            minutes: 59,
            hours: 23,
            days: 366,
            year: Some(24),
            ..DAY
        },
    ),
];

#[test]
fn frames_of_a_and_g_tell_parts_of_a_second(rt: HostRuntime) {
    check(&rt, &PARTS);
}

/// Ten seconds a frame, also over the end of a year and of February.
static TENS: [Row; 3] = [
    (
        b"9998-12-31T23:59:50",
        Kind::E,
        6,
        1,
        Fields {
            year: Some(99),
            ..DAY
        },
    ),
    // 1900 has no leap day: the first of March is day 60.
    (
        b"1900-02-28T23:59:50",
        Kind::E,
        2,
        1,
        Fields { days: 60, ..DAY },
    ),
    (
        // 99,990 seconds are a day, 3 hours, 46 minutes and 30 seconds.
        b"0001-001T00:00:00",
        Kind::E,
        2,
        9_999,
        Fields {
            seconds: 30,
            minutes: 46,
            hours: 3,
            days: 2,
            ..DAY
        },
    ),
];

#[test]
fn frames_of_e_tell_whole_ten_seconds(rt: HostRuntime) {
    check(&rt, &TENS);
}

/// A moment, a kind with expression 2, and whether a frame begins there, counted from midnight.
static STARTS: [(&[u8], Kind, bool); 6] = [
    (b"2024-001T00:00:05", Kind::E, false),
    (b"2024-001T00:00:10", Kind::E, true),
    (b"2024-061T12:34:55.50", Kind::B, false),
    (b"2024-061T12:34:55.50", Kind::A, true),
    (b"2024-061T12:34:55.55", Kind::A, false),
    (b"2024-061T12:34:55.55", Kind::G, true),
];

fn begins((text, kind, want): &(&[u8], Kind, bool)) -> bool {
    match (Moment::parse(text), Format::new(*kind, 2)) {
        (Some(moment), Ok(format)) => moment.starts(format) == *want,
        _ => false,
    }
}

#[test]
fn frames_begin_at_whole_periods(rt: HostRuntime) {
    for row in STARTS.iter() {
        assert!(rt; begins(row));
    }
}

static OTHERS: [&[u8]; 10] = [
    // No leap day in 2023.
    b"2023-02-29T00:00:00",
    // Years are 1 to 9998, and days those of their year.
    b"0000-001T00:00:00",
    b"9999-001T00:00:00",
    b"2024-367T00:00:00",
    b"2023-366T00:00:00",
    // A space, a second 60, one digit of hundredths, a day of two digits, and nothing.
    b"2024-061 12:34:55",
    b"2024-061T12:34:60",
    b"2024-061T12:34:55.5",
    b"2024-61T12:34:55",
    b"",
];

/// Day 60 of 2024 is 29 February.
fn are_leap_days() -> bool {
    let day = Moment::parse(b"2024-060T00:00:00");
    Moment::parse(b"2024-366T23:59:59.99").is_some()
        && day.is_some()
        && day == Moment::parse(b"2024-02-29T00:00:00.00")
}

#[test]
fn other_texts_are_no_moments(rt: HostRuntime) {
    for text in OTHERS.iter() {
        assert!(rt; Moment::parse(text).is_none());
    }
    assert!(rt; are_leap_days());
}
