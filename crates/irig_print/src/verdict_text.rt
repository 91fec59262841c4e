//! What is reported of a frame, in a block.

ghost use Rattle.std.specs.Prelude.{◌≡◌, ◌++◌, OnOk};
ghost use Rattle.irig_print.specs.FrameLine.{verdict_text};

use crate::frame_line::put_verdict;
use crate::row::Row;
use irig_index::Verdict;
use std::alloc::AllocError;

/// As the line of the command `frames` has it after the numbers, without a newline.
pub fn put_verdict_text(block: &mut Vec<u8>, verdict: &Verdict) -> Result<(), AllocError>
    ensures { OnOk result (block.new.items ≡ block.old.items ++ verdict_text verdict.now) }
{
    let mut row = Row::new();
    put_verdict(&mut row, verdict);
    block.extend_from_slice(row.text())
}
