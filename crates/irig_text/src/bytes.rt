//! Bytes in memory, as a text in parts.

ghost use Rattle.std.specs.Prelude.{◌≡◌};

use crate::text::Text;
use std::alloc::AllocError;

#[derive(Drop)]
pub struct Bytes<'a> {
    left: &'a [u8],
}

impl<'a> Bytes<'a> {
    pub fn new(bytes: &'a [u8]) -> Bytes<'a>
        ensures { result.left.now ≡ bytes.now }
    {
        Bytes { left: bytes }
    }
}

impl Text for Bytes<'_> {
    ghost rest = { λ b. b.left.now };

    fn fill(&mut self, block: &mut Vec<u8>, enough: usize) -> Result<bool, AllocError> {
        let count = enough.saturating_sub(block.len()).min(self.left.len());
        let (part, left) = self.left.split_at(count);
        block.extend_from_slice(part)?;
        self.left = left;
        Ok(left.is_empty())
    }
}
