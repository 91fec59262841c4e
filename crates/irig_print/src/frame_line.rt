//! The line that the command `frames` prints of a record.

ghost use Rattle.std.specs.Prelude.{◌≡◌, ◌≤◌, ◌+◌, ◌++◌, length};
ghost use Rattle.irig_print.specs.FrameLine.{cause_word, name_word, note_text, time_text};
ghost use Rattle.irig_print.specs.FrameLine.{parts_text, verdict_text, frame_line};
ghost use Rattle.irig_print.specs.FrameLine.{hundredths_text, clock_text};

use crate::row::Row;
use irig_codes::{Fields, Name, Note};
use irig_index::{Cause, Verdict};

/// A word: `ended`, `step` or `class`.
fn put_cause(row: &mut Row, cause: Cause)
    requires room { length row.old ≤ 249 }
    ensures text { row.new ≡ row.old ++ cause_word cause }
    ensures short { length row.new ≤ length row.old + 5 }
{
    match cause {
        Cause::Ended => row.put(b"ended"),
        Cause::Step => row.put(b"step"),
        Cause::Class => row.put(b"class"),
    }
}

/// In small letters.
fn put_name(row: &mut Row, name: Name)
    requires room { length row.old ≤ 240 }
    ensures text { row.new ≡ row.old ++ name_word name }
    ensures short { length row.new ≤ length row.old + 10 }
{
    match name {
        Name::Hundredths => row.put(b"hundredths"),
        Name::Seconds => row.put(b"seconds"),
        Name::Minutes => row.put(b"minutes"),
        Name::Hours => row.put(b"hours"),
        Name::Days => row.put(b"days"),
        Name::Year => row.put(b"year"),
    }
}

/// After a space: `fine`, `field` and its name, `sbs`, or `stray` and the element, from 0.
fn put_note(row: &mut Row, note: Note)
    requires room { length row.old ≤ 220 }
    ensures text { row.new ≡ row.old ++ note_text note }
    ensures short { length row.new ≤ length row.old + 27 }
{
    match note {
        Note::Fine => row.put(b" fine"),
        Note::Field(name) => {
            row.put(b" field ");
            put_name(row, name);
        }
        Note::SbsDisagrees => row.put(b" sbs"),
        Note::Stray(element) => {
            row.put(b" stray ");
            row.put_number(element as u64);
        }
    }
}

/// A point and two digits; nothing for a format without hundredths.
fn put_hundredths(row: &mut Row, hundredths: Option<u32>)
    requires room { length row.old ≤ 240 }
    ensures text { row.new ≡ row.old ++ hundredths_text hundredths }
    ensures short { length row.new ≤ length row.old + 11 }
{
    if let Some(hundredths) = hundredths {
        row.put(b".");
        row.put_padded(2, hundredths);
    }
}

/// As `12:34:56`.
fn put_clock(row: &mut Row, fields: &Fields)
    requires room { length row.old ≤ 200 }
    ensures text { row.new ≡ row.old ++ clock_text fields.now }
    ensures short { length row.new ≤ length row.old + 32 }
{
    row.put_padded(2, fields.hours);
    row.put(b":");
    row.put_padded(2, fields.minutes);
    row.put(b":");
    row.put_padded(2, fields.seconds);
}

/// The day of the year and the time of day, as `061 12:34:56`, or `061 12:34:56.78`.
pub fn put_time(row: &mut Row, fields: &Fields)
    requires room { length row.old ≤ 80 }
    ensures text { row.new ≡ row.old ++ time_text fields.now }
    ensures short { length row.new ≤ length row.old + 54 }
{
    row.put_padded(3, fields.days);
    row.put(b" ");
    put_clock(row, fields);
    put_hundredths(row, fields.hundredths);
}

/// What only some coded expressions carry, each after its name: the year, `sbs`, `control`.
fn put_parts(row: &mut Row, fields: &Fields)
    requires room { length row.old ≤ 140 }
    ensures text { row.new ≡ row.old ++ parts_text fields.now }
    ensures short { length row.new ≤ length row.old + 66 }
{
    if let Some(year) = fields.year {
        row.put(b" year ");
        row.put_padded(2, year);
    }
    if let Some(seconds) = fields.sbs {
        row.put(b" sbs ");
        row.put_number(seconds as u64);
    }
    if let Some(control) = fields.control {
        row.put(b" control ");
        row.put_hexadecimal(control);
    }
}

/// As `broken 19 class`, or `061 12:34:56 year 24 sbs 45296 control 0 fine`.
pub fn put_verdict(row: &mut Row, verdict: &Verdict)
    requires room { length row.old ≤ 80 }
    ensures text { row.new ≡ row.old ++ verdict_text verdict.now }
    ensures short { length row.new ≤ length row.old + 150 }
{
    match verdict {
        Verdict::Broken(element, cause) => {
            row.put(b"broken ");
            row.put_number(*element as u64);
            row.put(b" ");
            put_cause(row, *cause);
        }
        Verdict::Read(fields, note) => {
            put_time(row, fields);
            put_parts(row, fields);
            put_note(row, *note);
        }
    }
}

/// Clears the row and writes the line of a record: its number and that of its marker's pulse, both
/// from 1, the marker's rise in microseconds, and what is reported of the frame.
pub fn put_frame(row: &mut Row, number: u64, marker: u64, rise: u64, verdict: &Verdict)
    ensures line { row.new ≡ frame_line number marker rise verdict.now }
{
    row.clear();
    row.put_number(number);
    row.put(b" ");
    row.put_number(marker);
    row.put(b" ");
    row.put_number(rise);
    row.put(b" ");
    put_verdict(row, verdict);
    row.put(b"\n");
}
