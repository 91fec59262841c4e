//! The block that the parts of a text wait in until they are written together.

ghost use Rattle.std.specs.Prelude.{◌≡◌, ◌≤◌, ◌+◌, [], IfOk};
ghost use Rattle.std.specs.Vec.{vec_capacity};
ghost use Rattle.irig_text.specs.declared.block.TheConstants.{ENOUGH};

use std::alloc::{AllocError, Global};

/// How many bytes of a text are written at a time, at least, but for the last time: 64 KiB.
pub const ENOUGH: usize = 65_536;

/// The part that is added last may go past `ENOUGH`; no part has more bytes than this.
const LAST: usize = 2048;

pub fn new_block(alloc: Global) -> Result<Vec<u8>, AllocError>
    ensures empty { IfOk result (λ block. block.items ≡ []) }
    ensures room { IfOk result (λ block. ENOUGH + 2048 ≤ vec_capacity block) }
{
    Vec::with_capacity(alloc, ENOUGH + LAST)
}
