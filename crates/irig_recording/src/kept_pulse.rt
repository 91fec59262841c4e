//! The lines of a pulse, kept for the next one, of which mostly the last four digits are others.

ghost use Rattle.std.specs.Prelude.{◌≡◌, ◌↔◌, ◌≤◌, ◌<◌, ◌+◌, ◌-◌, ◌/◌, ◌%◌, ◌^◌, ◌++◌, ◌∷◌, true};
ghost use Rattle.std.specs.Prelude.{false, OnOk, length, take, drop, vec_capacity, vec_len, IsOk};
ghost use Rattle.irig_recording.specs.KeptPulse.{HoldsPulse, IsNear, last_four};
ghost use Rattle.irig_recording.specs.FileText.{EndsLines, lines_at};

use crate::writer::put_digits;
use std::alloc::AllocError;

/// The two digits of each number below 100.
static PAIRS: [u8; 200] = *b"\
    0001020304050607080910111213141516171819\
    2021222324252627282930313233343536373839\
    4041424344454647484950515253545556575859\
    6061626364656667686970717273747576777879\
    8081828384858687888990919293949596979899";

/// The lines `#RISE`, `1!`, `#FALL` and `0!` at the front of `bytes`; the two of each edge have
/// `long` bytes, at most 20. The kept digits are those before the last four of a time, the same of
/// both edges; `base` is these and 0000, in microseconds.
#[derive(Drop)]
pub struct KeptPulse {
    bytes: [u8; 56],
    long: usize,
    base: u64,
}

impl KeptPulse {
    /// Lines to be written over: both edges are at 10,000 microseconds, the least of five digits.
    pub fn new() -> KeptPulse
        ensures { HoldsPulse result }
    {
        let bytes = *b"#10000\n1!\n#10000\n0!\n                                    ";
        KeptPulse {
            bytes,
            long: 10,
            base: 10000,
        }
    }

    /// Counts the kept digits up if they are one too low for a pulse, unless they end with 9.
    /// `false` can leave them counted up, if the rise fits and the fall does not.
    #[inline(always)]
    pub fn catch_up(&mut self, rise: u64, fall: u64) -> bool
        requires holds { HoldsPulse self.old }
        ensures holds { HoldsPulse self.new }
        ensures near { result ≡ true ↔ IsNear self.new rise × IsNear self.new fall }
    {
        self.catch_up_to(rise) && self.is_near(fall)
    }

    /// Makes new lines, with both edges at `time`, in microseconds, which has 5 to 15 digits. In
    /// `line` they are the bytes from that of the `#` to byte 24, from 0.
    pub fn renew(&mut self, line: &mut [u8], time: u64)
        requires some { 10000 ≤ time }
        requires few { time < 10 ^ 15 }
        requires room { 48 ≤ length line.old }
        requires lines { EndsLines line.old }
        ensures holds { HoldsPulse self.new }
        ensures base { self.new.base ≡ time - time % 10000 }
        ensures lines { EndsLines line.new }
    {
        line[22] = b'1';
        let start = put_digits(line, time);
        put_part(&mut self.bytes, 0, line, start);
        line[22] = b'0';
        put_part(&mut self.bytes, 25 - start, line, start);
        self.long = 25 - start;
        self.base = time - time % 10000;
    }

    /// Adds the lines of a pulse to the text. Always 48 bytes are added, which is fast, and those
    /// after the lines are removed.
    #[inline(always)]
    pub fn put(&mut self, text: &mut Vec<u8>, rise: u64, fall: u64) -> Result<(), AllocError>
        requires holds { HoldsPulse self.old }
        requires rise { IsNear self.old rise }
        requires fall { IsNear self.old fall }
        ensures text { OnOk result
            (text.new.items ≡ text.old.items ++ lines_at true rise ++ lines_at false fall) }
        ensures enough { vec_len text.old + 48 ≤ vec_capacity text.old → IsOk result }
        ensures keeps { vec_capacity text.old ≤ vec_capacity text.new }
        ensures holds { HoldsPulse self.new }
    {
        let (up, down) = (rise - self.base, fall - self.base);
        let long = self.long;
        put_four(&mut self.bytes, long - 8, up);
        put_four(&mut self.bytes, 2 * long - 8, down);
        let len = text.len();
        text.extend_from_slice(&self.bytes[..48])?;
        text.truncate(len + 2 * long);
        Ok(())
    }

    /// Whether a time has the kept digits before its last four.
    #[inline(always)]
    fn is_near(&self, time: u64) -> bool
        ensures { result ≡ true ↔ IsNear self.now time }
    {
        self.base <= time && time - self.base < 10000
    }

    /// Counts the kept digits up if they are one too low for a time; `false` changes nothing.
    #[inline(always)]
    fn catch_up_to(&mut self, time: u64) -> bool
        requires holds { HoldsPulse self.old }
        ensures holds { HoldsPulse self.new }
        ensures near { result ≡ true ↔ IsNear self.new time }
    {
        if time < self.base {
            return false;
        }
        let past = time - self.base;
        if past < 10000 {
            return true;
        }
        past < 20000 && self.count_up()
    }

    /// Counts the kept digits up in the lines of both edges, if only the last of them changes.
    #[inline(always)]
    fn count_up(&mut self) -> bool
        requires holds { HoldsPulse self.old }
        requires few { self.old.base + 10000 < 2 ^ 64 }
        ensures holds { HoldsPulse self.new }
        ensures told { result ≡ true ↔ self.old.base / 10000 % 10 < 9 }
        ensures up { result ≡ true → self.new.base ≡ self.old.base + 10000 }
        ensures stays { result ≡ false → self.new ≡ self.old }
    {
        let place = self.long - 9;
        let digit = self.bytes[place];
        if b'9' <= digit {
            return false;
        }
        self.base += 10000;
        self.bytes[place] = digit + 1;
        self.bytes[self.long + place] = digit + 1;
        true
    }
}

/// Copies a fixed number of bytes, which is fast. What comes after the lines has no meaning.
fn put_part(bytes: &mut [u8], at: usize, line: &[u8], start: usize)
    requires room { at + 24 ≤ length bytes.old }
    requires some { start + 24 ≤ length line.now }
    ensures { bytes.new
        ≡ take at bytes.old ++ (take 24 (drop start line.now) ++ drop (at + 24) bytes.old) }
{
    bytes[at..at + 24].copy_from_slice(&line[start..start + 24]);
}

/// Writes the four digits of a number, with leading zeros, at the place `at`, from 0.
#[inline(always)]
fn put_four(bytes: &mut [u8], at: usize, number: u64)
    requires few { number < 10000 }
    requires room { at + 4 ≤ length bytes.old }
    ensures before { take at bytes.new ≡ take at bytes.old }
    ensures written { drop at bytes.new ≡ last_four number ++ drop (at + 4) bytes.old }
{
    put_two(bytes, at, number / 100);
    put_two(bytes, at + 2, number % 100);
}

#[inline(always)]
fn put_two(bytes: &mut [u8], at: usize, number: u64)
    requires few { number < 100 }
    requires room { at + 2 ≤ length bytes.old }
    ensures before { take at bytes.new ≡ take at bytes.old }
    ensures written { drop at bytes.new
        ≡ (48 + number / 10) ∷ (48 + number % 10) ∷ drop (at + 2) bytes.old }
{
    let (tens, ones) = pair(number as usize);
    bytes[at] = tens;
    bytes[at + 1] = ones;
}

#[inline(always)]
fn pair(number: usize) -> (u8, u8)
    requires { number < 100 }
    ensures tens { result.0 ≡ 48 + number / 10 }
    ensures ones { result.1 ≡ 48 + number % 10 }
{
    let at = 2 * number;
    let (tens, ones) = (PAIRS[at], PAIRS[at + 1]);
    (tens, ones)
}
