//! Single calls on paths, of which no contract says which bytes they give or take.

ghost use Rattle.std.specs.Prelude.{◌≡◌, ℕ, None, IfOk, IsTrue, true};
ghost use Rattle.irig_files.specs.Taken.{HasMode, IsFileAt};

use crate::described::Described;
use irig_disk::Folder;
use std::io::Write;

/// What is no regular file holds nothing that a contract can name.
pub trait PlainCalls: Folder {
    /// Open to be described.
    type Seen: Drop;

    /// What is no regular file, open to be written.
    type Other: Write + Drop;

    /// What the program's answers go to, open to be written.
    type Output: Write + Drop;

    /// The number of a file that is open to be described.
    ghost seen_number: { Self.Seen → ℕ };

    /// A file may be written.
    ghost may_write: { Self → ℕ → Type 0 };

    /// Opens the standard output. `path` leads there, for the contract alone. A program has it from
    /// its start, so this cannot fail.
    fn open_output(&self, path: &str) -> Self::Output
        requires { IsTrue Self.is_told → (Self.disk self.now).paths path.now ≡ None };

    /// Opens a pipe or a device to write to it.
    fn open_other(&self, path: &str) -> Result<Self::Other, Self::Fault>
        requires { IsTrue Self.is_told → (Self.disk self.now).paths path.now ≡ None };

    /// Opens a file as if to write to it, so it fails if it must not be written; nothing is
    /// written.
    fn open_seen(&self, path: &str) -> Result<Self::Seen, Self::Fault>
        ensures there { IsTrue Self.is_told → IfOk result
            (λ file. IsFileAt (Self.disk self.now) path.now (seen_number file)) }
        ensures allowed { IsTrue Self.is_told → IfOk result
            (λ file. may_write self.now (seen_number file)) };

    /// What an open file is.
    fn seen(&self, file: &Self::Seen) -> Result<Described, Self::Fault>
        ensures { IsTrue Self.is_told → IfOk result (λ d. d.is_file ≡ true
            → HasMode (Self.disk self.now) (seen_number file.now) d.mode) };
}
