//! A frame by its time and its rise.

ghost use Rattle.std.specs.Prelude.{◌≡◌, ◌++◌, OnOk};
ghost use Rattle.irig_guarding.specs.Reasons.{frame_text};

use irig_print::{Row, put_time};
use irig_safety::Shown;
use std::alloc::AllocError;

/// Prints a frame to `out` by its time and its rise, as in `frame 061 12:34:57 at 2000000`: the day
/// of the year and the time of day as the editor prints them, and when the frame begins, in
/// microseconds.
pub fn put_frame(out: &mut Vec<u8>, frame: &Shown) -> Result<(), AllocError>
    ensures { OnOk result (out.new.items ≡ out.old.items ++ frame_text frame.now) }
{
    let mut row = Row::new();
    row.put(b"frame ");
    put_time(&mut row, &frame.fields);
    row.put(b" at ");
    row.put_number(frame.rise);
    out.extend_from_slice(row.text())
}
