//! The line that the command `list` prints of a pulse.

ghost use Rattle.std.specs.Prelude.{◌≡◌, ◌≤◌, ◌+◌, ◌++◌, ◌∷◌, length, drop};
ghost use Rattle.irig_codes.specs.Words.{class_word};
ghost use Rattle.irig_print.specs.PulseLine.{pulse_line};

use crate::backwards::{write_number, write_text};
use irig_codes::{Element, Format, class, class_word};
use irig_recording::Pulse;

/// Three numbers of 20 digits, each with a space, and a word of 8 letters with a newline.
pub const LINE_ROOM: usize = 72;

/// Writes the line of a pulse so that it ends at `end`, and returns the index of its first byte:
/// its number, from 1, its rise and its fall in microseconds, and the word of its class.
pub fn write_pulse(bytes: &mut [u8], end: usize, format: Format, number: u64, pulse: Pulse) -> usize
    requires { (72 ≤ end) × (end ≤ length bytes.old) }
    ensures start { (end ≤ result + 72) × (result ≤ length bytes.old) }
    ensures long { length bytes.new ≡ length bytes.old }
    ensures written { drop result bytes.new
        ≡ pulse_line format number pulse ++ drop end bytes.old }
{
    let class = class(format, pulse.fall.saturating_sub(pulse.rise));
    let word = write_class(bytes, end, class);
    let fall = write_number(bytes, word, pulse.fall);
    let rise = write_number(bytes, fall, pulse.rise);
    write_number(bytes, rise, number)
}

/// Writes the word of a class and a newline. All eight bytes of the word are written, which is
/// faster than a part of them: the numbers are later written over those before it.
#[inline(always)]
fn write_class(bytes: &mut [u8], end: usize, class: Option<Element>) -> usize
    requires { (9 ≤ end) × (end ≤ length bytes.old) }
    ensures start { (end ≤ result + 9) × (result ≤ end) }
    ensures long { length bytes.new ≡ length bytes.old }
    ensures written { drop result bytes.new
        ≡ class_word class ++ 10 ∷ drop end bytes.old }
{
    let (letters, start) = class_word(class);
    bytes[end - 1] = b'\n';
    write_text(bytes, end - 1, &letters) + start
}
