//! A text is printed block by block.

ghost use Rattle.std.specs.Prelude.{◌≡◌, ◌≤◌, ◌↔◌, ◌+◌, ◌++◌, ℕ, List, [], false, true, length};
ghost use Rattle.std.specs.Prelude.{IfOk, OnOk, OnErr};
ghost use Rattle.std.specs.Io.KnownBytes.{Appends};
ghost use Rattle.irig_diff.specs.Printing.{AppendsFront};
ghost use Rattle.irig_text.specs.declared.block.TheConstants.{ENOUGH};

use irig_print::{PrintFault, put_all};
use irig_text::{ENOUGH, Text};
use std::io::Write;

/// Prints a text, block by block.
pub fn print<W: Write, T: Text>(
    out: &mut W,
    text: &mut T,
    block: &mut Vec<u8>,
) -> Result<bool, PrintFault>
    ensures printed { OnOk result
        (Appends (W.contents out.old) (W.contents out.new) (T.rest text.old)) }
    ensures empty { IfOk result (λ empty. empty ≡ true ↔ T.rest text.old ≡ []) }
    ensures err { OnErr result
        (AppendsFront (W.contents out.old) (W.contents out.new) (T.rest text.old)) }
{
    let mut empty = true;
    // The loop ends: each part but the last makes the rest of the text shorter.
    'parts: loop {
        match print_next(out, text, block, &mut empty) {
            Ok(false) => {}
            Ok(true) => return Ok(empty),
            Err(fault) => return Err(fault),
        }
    }
}

/// Prints the next block of a text, and sets `empty` to false if the block has a byte. Returns
/// whether it was the last one.
fn print_next<W: Write, T: Text>(
    out: &mut W,
    text: &mut T,
    block: &mut Vec<u8>,
    empty: &mut bool,
) -> Result<bool, PrintFault>
    ensures ok { OnOk result ((part : List ℕ)
        × (T.rest text.old ≡ part ++ T.rest text.new)
        × (empty.new ≡ true ↔ (empty.old ≡ true) × (part ≡ []))
        × Appends (W.contents out.old) (W.contents out.new) part) }
    ensures end { IfOk result (λ ended. ended ≡ true → T.rest text.new ≡ []) }
    // At least 64 KiB are printed, or the text has ended.
    ensures more { IfOk result (λ ended. ended ≡ false
        → ENOUGH + length (T.rest text.new) ≤ length (T.rest text.old)) }
    ensures err { OnErr result
        (AppendsFront (W.contents out.old) (W.contents out.new) (T.rest text.old)) }
{
    block.clear();
    let Ok(ended) = text.fill(block, ENOUGH) else {
        return Err(PrintFault::Other);
    };
    *empty = *empty && block.is_empty();
    match put_all(out, block) {
        Ok(()) => Ok(ended),
        Err(fault) => Err(fault),
    }
}
