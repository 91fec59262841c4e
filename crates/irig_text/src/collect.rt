//! A text that comes in parts, whole in memory.

ghost use Rattle.std.specs.Prelude.{◌≡◌, IfOk};

use crate::text::Text;
use std::alloc::{AllocError, Global};

/// `room` is how many bytes are asked for at first. Only for the proof is there a loop: if `fill`
/// returns `false`, the block has `usize::MAX` bytes, which no memory holds.
pub fn whole<T: Text>(alloc: Global, room: usize, text: &mut T) -> Result<Vec<u8>, AllocError>
    ensures { IfOk result (λ all. all.items ≡ T.rest text.old) }
{
    let mut all = Vec::with_capacity(alloc, room)?;
    for _ in 0..u64::MAX {
        if text.fill(&mut all, usize::MAX)? {
            return Ok(all);
        }
    }
    Err(AllocError)
}
