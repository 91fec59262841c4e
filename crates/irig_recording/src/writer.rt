//! Writes a recording as the text of a dump, in the form of `docs/FORMATS.md`.

ghost use Rattle.std.specs.Prelude.{◌≡◌, ◌≤◌, ◌<◌, ◌^◌, ◌+◌, ◌/◌, true, false, ◌++◌, ◌∷◌, OnOk};
ghost use Rattle.std.specs.Prelude.{IfOk, length, drop, decimal, vec_capacity, vec_len, IsOk};
ghost use Rattle.irig_recording.specs.FileText.{EndsLines, begins_high, file_text, head_text};
ghost use Rattle.irig_recording.specs.FileText.{header_text, length_line, level_line, lines_at};
ghost use Rattle.irig_recording.specs.FileText.{time_line};
ghost use Rattle.irig_recording.specs.Pulses.{edges_of};

use crate::kept_pulse::KeptPulse;
use crate::pulse::Pulse;
use crate::recording::Recording;
use irig_gap::Gap;
use itoa::write_digits;
use std::alloc::{AllocError, Global};
use std::marker::Model;

/// `last` is the time of the last edge, in microseconds, or 0 before the first. In `line` a time
/// ends before byte 21, from 0; the next four are a newline, the level, the code (`!`) and a
/// newline.
#[derive(Drop)]
pub struct TextWriter {
    line: [u8; 48],
    pulse: KeptPulse,
    last: u64,
}

impl Model for TextWriter {
    ghost use Rattle.irig_recording.specs.KeptPulse.{HoldsPulse};
    ghost use Rattle.irig_recording.specs.FileText.{WriterView, writer_view, EndsLines};

    ghost Value = { WriterView };

    ghost view = { λ w. writer_view w.last };

    ghost invariant = { λ w. EndsLines w.line × HoldsPulse w.pulse };
}

impl TextWriter {
    pub fn new() -> TextWriter
        ensures { result.last ≡ 0 }
    {
        let line = *b"                     \n0!\n                       ";
        TextWriter {
            line,
            pulse: KeptPulse::new(),
            last: 0,
        }
    }

    /// Writes the lines before the first edge above 0. `high` says that a rise is at 0.
    pub fn begin(&mut self, text: &mut Vec<u8>, high: bool) -> Result<(), AllocError>
        ensures text { OnOk result (text.new.items ≡ text.old.items ++ header_text high) }
        ensures last { self.new.last ≡ 0 }
        ensures enough { vec_len text.old + 125 ≤ vec_capacity text.old → IsOk result }
        ensures keeps { vec_capacity text.old ≤ vec_capacity text.new }
    {
        self.last = 0;
        put_header(text, high)
    }

    /// Writes the lines of an edge, in microseconds; one at 0 is part of the header. They have at
    /// most 18 bytes, but `put_lines` needs room for 25.
    #[inline(always)]
    pub fn put_edge(&mut self, text: &mut Vec<u8>, edge: u64, high: bool) -> Result<(), AllocError>
        ensures text { OnOk result (text.new.items ≡ text.old.items ++ lines_at high edge) }
        ensures last { OnOk result (self.new.last ≡ edge) }
        ensures enough { edge ≤ 2 ^ 40 → vec_len text.old + 25 ≤ vec_capacity text.old →
            IsOk result × (vec_len text.new ≤ vec_len text.old + 18) }
        ensures keeps { vec_capacity text.old ≤ vec_capacity text.new }
    {
        self.last = edge;
        if edge == 0 {
            return Ok(());
        }
        put_lines(text, &mut self.line, edge, high)
    }

    /// Writes the lines of a pulse, in microseconds, in the fastest way that fits: by the last four
    /// digits of the kept pulse (`catch_up`), by a new one (`renew`), or edge by edge.
    #[inline(always)]
    pub fn put_pulse(&mut self, text: &mut Vec<u8>, rise: u64, fall: u64) -> Result<(), AllocError>
        ensures text { OnOk result
            (text.new.items ≡ text.old.items ++ lines_at true rise ++ lines_at false fall) }
        ensures last { OnOk result (self.new.last ≡ fall) }
        ensures enough { rise ≤ 2 ^ 40 → fall ≤ 2 ^ 40 →
            vec_len text.old + 48 ≤ vec_capacity text.old →
            IsOk result × (vec_len text.new ≤ vec_len text.old + 36) }
        ensures keeps { vec_capacity text.old ≤ vec_capacity text.new }
    {
        if !self.pulse.catch_up(rise, fall) {
            if !share_front(rise, fall) {
                self.put_edge(text, rise, true)?;
                return self.put_edge(text, fall, false);
            }
            self.pulse.renew(&mut self.line, rise);
        }
        self.last = fall;
        self.pulse.put(text, rise, fall)
    }

    /// Ends a text: writes the line of the length, in microseconds, if the last time is another.
    pub fn finish(&self, text: &mut Vec<u8>, length: u64) -> Result<(), AllocError>
        ensures text { OnOk result
            (text.new.items ≡ text.old.items ++ length_line self.now.last length) }
        ensures enough { length ≤ 2 ^ 40 → vec_len text.old + 15 ≤ vec_capacity text.old →
            IsOk result }
        ensures keeps { vec_capacity text.old ≤ vec_capacity text.new }
    {
        if self.last == length {
            return Ok(());
        }
        put_time(text, length)
    }
}

/// The canonical dump of a recording. It asks once for the memory of the longest text: a time has
/// at most 13 digits, so an edge 18 bytes, a pulse 36, the header 125 and the length 15.
pub fn text(alloc: Global, recording: &Recording) -> Result<Vec<u8>, AllocError>
    ensures written { IfOk result (λ text. text.items ≡ file_text recording.now) }
    ensures short { IfOk result (λ text. length text.items ≤ 2 ^ 28) }
{
    let mut text = Vec::with_capacity(alloc, 36 * recording.pulses().gap_at() + 140)?;
    put_text(&mut text, recording)?;
    Ok(text)
}

fn put_text(text: &mut Vec<u8>, recording: &Recording) -> Result<(), AllocError>
    ensures { OnOk result (text.new.items ≡ text.old.items ++ file_text recording.now) }
{
    let pulses = recording.pulses();
    let mut writer = TextWriter::new();
    writer.begin(text, begins_high(pulses))?;
    for index in 0..pulses.gap_at() {
        let pulse = pulses.get_left(index);
        writer.put_pulse(text, pulse.rise, pulse.fall)?;
    }
    writer.finish(text, recording.length())
}

/// Whether two times have 5 to 15 digits, and the same ones before the last four.
fn share_front(rise: u64, fall: u64) -> bool
    ensures same { result ≡ true → rise / 10000 ≡ fall / 10000 }
    ensures some { result ≡ true → 10000 ≤ rise }
    ensures few { result ≡ true → rise < 10 ^ 15 }
{
    10000 <= rise && rise < 1_000_000_000_000_000 && rise / 10000 == fall / 10000
}

/// Whether the first pulse rises at 0; false if there is no pulse.
fn begins_high(pulses: &Gap<Pulse>) -> bool
    ensures { result ≡ begins_high (edges_of pulses.now.items) }
{
    0 < pulses.len() && pulses.get(0).rise == 0
}

#[tactic(auto, unfolding(crate::specs::FileText::head_text))]
fn put_header(text: &mut Vec<u8>, high: bool) -> Result<(), AllocError>
    ensures text { OnOk result (text.new.items ≡ text.old.items ++ header_text high) }
    ensures enough { vec_len text.old + 125 ≤ vec_capacity text.old → IsOk result }
    ensures keeps { vec_capacity text.old ≤ vec_capacity text.new }
{
    text.extend_from_slice(
        b"$timescale 1 us $end\n$scope module irig $end\n$var wire 1 ! code $end\n\
        $upscope $end\n$enddefinitions $end\n#0\n$dumpvars\n",
    )?;
    let line = [b'0' + high as u8, b'!', b'\n'];
    text.extend_from_slice(&line)?;
    text.extend_from_slice(b"$end\n")?;
    Ok(())
}

/// Writes the two lines of an edge by the buffer `line`. A fixed number of bytes, 25, is added,
/// which is fast, and those that are too many are removed.
#[inline(always)]
fn put_lines(text: &mut Vec<u8>, line: &mut [u8], edge: u64, high: bool) -> Result<(), AllocError>
    requires room { 48 ≤ length line.old }
    requires lines { EndsLines line.old }
    ensures text { OnOk result
        (text.new.items ≡ text.old.items ++ (time_line edge ++ level_line high)) }
    ensures enough { vec_len text.old + 25 ≤ vec_capacity text.old → IsOk result }
    ensures keeps { vec_capacity text.old ≤ vec_capacity text.new }
    ensures lines { EndsLines line.new }
{
    line[22] = b'0' + high as u8;
    let start = put_digits(line, edge);
    let len = text.len();
    text.extend_from_slice(&line[start..start + 25])?;
    text.truncate(len + (25 - start));
    Ok(())
}

/// Writes `#` and digits, which end before byte 21. Returns the byte of the `#`, from 0.
pub(crate) fn put_digits(line: &mut [u8], time: u64) -> usize
    requires room { 21 ≤ length line.old }
    ensures within { result ≤ length line.new }
    ensures start { result + 1 + length (decimal time) ≡ 21 }
    ensures written { drop result line.new ≡ 35 ∷ decimal time ++ drop 21 line.old }
{
    let start = write_digits(time, line, 21) - 1;
    line[start] = b'#';
    start
}

/// Writes the line of a time, in microseconds, without a line of a level after it.
fn put_time(text: &mut Vec<u8>, time: u64) -> Result<(), AllocError>
    ensures text { OnOk result (text.new.items ≡ text.old.items ++ time_line time) }
    ensures enough { time ≤ 2 ^ 40 → vec_len text.old + 15 ≤ vec_capacity text.old → IsOk result }
    ensures keeps { vec_capacity text.old ≤ vec_capacity text.new }
{
    let mut line = *b"                     \n";
    let start = put_digits(&mut line, time);
    text.extend_from_slice(&line[start..])?;
    Ok(())
}
