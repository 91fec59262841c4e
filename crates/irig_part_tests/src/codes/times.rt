//! The frames of known times, and the times that are found by such frames.

use irig_candidates::{Bit, Code, Jumps, find_bases};
use irig_codes::{Format, Kind};
use std::alloc::{AllocError, Global};
use std::process::Abort;

/// A kind, an expression, a time in frames from the begin of the year, and the bits that are one.
type Row = (Kind, u8, u64, &'static [usize]);

/// Day 173, 21:18:42, is 172 days and 76,722 seconds. A has ten frames a second, and 0.8 seconds
/// more here, E one in ten seconds. Second 60 is two years later than the second before it.
static ROWS: [Row; 5] = [
    (
        Kind::B,
        0,
        14_937_522,
        &[
            2, 8, 13, 15, 20, 26, 30, 31, 35, 36, 37, 40, 81, 84, 85, 87, 88, 90, 92, 94, 97,
        ],
    ),
    (
        Kind::B,
        5,
        14_937_522,
        &[2, 8, 13, 15, 20, 26, 30, 31, 35, 36, 37, 40],
    ),
    (
        Kind::A,
        1,
        149_375_228,
        &[2, 8, 13, 15, 20, 26, 30, 31, 35, 36, 37, 40, 48],
    ),
    (
        Kind::E,
        2,
        1_493_752,
        &[8, 13, 15, 20, 26, 30, 31, 35, 36, 37, 40],
    ),
    (
        Kind::B,
        2,
        78_883_199,
        &[7, 8, 10, 13, 15, 17, 20, 21, 26, 30, 38, 40],
    ),
];

/// A jump costs 40.
struct Forty;

impl Jumps for Forty {
    fn set(&self) -> u32 {
        40
    }

    fn by(&self, _frames: u64) -> u32 {
        0
    }
}

fn has_ones(code: &Code, time: u64, ones: &[usize]) -> bool {
    for element in 0..100 {
        if code.is_one(time, element) != ones.contains(&element) {
            return false;
        }
    }
    true
}

fn is_that_of((kind, expression, time, ones): &Row) -> bool {
    match Format::new(*kind, *expression) {
        Ok(format) => has_ones(&Code::new(format), *time, ones),
        Err(_) => false,
    }
}

#[test]
fn frames_of_known_times_have_their_ones(rt: HostRuntime) {
    for row in ROWS.iter() {
        assert!(rt; is_that_of(row));
    }
}

/// What the bits of a frame look like: a bit of the other class costs 20.
fn put_frame(
    bits: &mut Vec<Bit>,
    code: &Code,
    frame: u64,
    ones: &[usize],
) -> Result<(), AllocError> {
    for element in 0..100_u8 {
        let one = ones.contains(&(element as usize));
        if code.is_bit(element as usize) {
            bits.push(Bit {
                stretch: 0,
                rise: 0,
                frame,
                element,
                zero: if one { 20 } else { 0 },
                one: if one { 0 } else { 20 },
            })?;
        }
    }
    Ok(())
}

/// Whether a frame that is frame 7 of its stretch has its time alone: the base is 7 frames before.
fn is_found(alloc: Global, (kind, expression, time, ones): &Row) -> Result<bool, AllocError> {
    let Ok(format) = Format::new(*kind, *expression) else {
        return Ok(false);
    };
    let code = Code::new(format);
    let mut bits = Vec::new(alloc);
    put_frame(&mut bits, &code, 7, ones)?;
    if bits.len() > 100 {
        return Ok(false);
    }
    let bases = find_bases(alloc, &code, &Forty, bits.as_slice(), &[])?;
    Ok(bases.as_slice().contains(&time.saturating_sub(7)))
}

#[test]
fn times_are_found_by_their_frames(rt: HostRuntime) {
    assert!(rt; is_found(rt.alloc(), &ROWS[0]) == Ok(true));
    assert!(rt; is_found(rt.alloc(), &ROWS[2]) == Ok(true));
    assert!(rt; is_found(rt.alloc(), &ROWS[3]) == Ok(true));
}
