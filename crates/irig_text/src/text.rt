//! What a text in parts is.

ghost use Rattle.std.specs.Prelude.{◌≡◌, ◌≤◌, ◌++◌, [], false, true, ℕ, List, IfOk, OnOk, vec_len};

use std::alloc::AllocError;

pub trait Text {
    ghost rest: { Self → List ℕ };

    /// After an error nothing is promised of what is left of the text, nor of the block.
    fn fill(&mut self, block: &mut Vec<u8>, enough: usize) -> Result<bool, AllocError>
        ensures bytes { OnOk result
            (block.new.items ++ rest self.new ≡ block.old.items ++ rest self.old) }
        ensures end { IfOk result (λ ended. ended ≡ true → rest self.new ≡ []) }
        ensures full { IfOk result (λ ended. ended ≡ false → enough ≤ vec_len block.new) };
}
