//! Single calls on paths.

ghost use Rattle.std.specs.Prelude.{◌≡◌, ◌≢◌, ◌<◌, ℕ, List, Option, None, Some, IfErr, IfOk};
ghost use Rattle.std.specs.Prelude.{IfSome, IsErrOf, IsTrue, MatchOption, OnOk, codes, false, length};
ghost use Rattle.std.specs.Prelude.{option_map, true, ⊤};
ghost use Rattle.std.specs.Path.{path_buf_bytes};
ghost use Rattle.irig_vcd.specs.Answer.{name_of};
ghost use Rattle.irig_files.specs.declared.dump_file.DumpFileFault.{DumpFileFault};
ghost use Rattle.irig_files.specs.{Apart.HasId, Paths.IsFolderOf, Paths.followed};
ghost use Rattle.irig_files.specs.Reads.{IsReadBy, extent_bytes};

use crate::described::Described;
use crate::dump_file::DumpFileFault;
use crate::intake::LongParts;
use crate::plain_calls::PlainCalls;
use irig_vcd::{Extent, VcdFault};
use std::alloc::Global;
use std::path::PathBuf;

/// Files and folders by their paths; each method is one call.
pub trait FileSystem: PlainCalls {
    /// The file that the program's answers go to, if it is one.
    ghost output_id: { Self → Option (ℕ × ℕ) };

    /// The numbers that a file has, and no other one.
    ghost id_of: { Self → ℕ → ℕ × ℕ };

    /// A path leads to what is no regular file, or to the one that the answers go to.
    ghost is_other: { Self → List ℕ → Type 0 };

    ghost link_at: { Self → List ℕ → Option (List ℕ) };

    ghost held: { Self → List ℕ → Option (List ℕ) };

    ghost unread: { Self → List ℕ → DumpFileFault → Type 0 };

    /// As `read_extent` of a `Disk`.
    fn read_extent(
        &self,
        alloc: Global,
        path: &str,
        wire: Option<&[u8]>,
        extent: Extent,
    ) -> Result<Result<LongParts, VcdFault>, DumpFileFault>
        ensures read { IfOk result
            (IsReadBy extent (held self.now path.now) (name_of wire.entry)) }
        ensures long { IsErrOf result DumpFileFault.TooLong
            → IfSome (held self.now path.now) (λ all. extent_bytes extent < length all) }
        ensures unread { IfErr result (unread self.now path.now) };

    /// What is at the end of a path's links; `None` if nothing is there.
    fn describe(&self, path: &str) -> Result<Option<Described>, Self::Fault>
        ensures none { IsTrue Self.is_told → IfOk result
            (λ found. MatchOption found (is_other self.now path.now → ⊥) (λ _. ⊤)) }
        ensures file { IsTrue Self.is_told → IfOk result (λ found. IfSome found
            (λ d. d.is_file ≡ true → Some d.id ≢ output_id self.now
            → is_other self.now path.now → ⊥)) }
        ensures other { IsTrue Self.is_told → IfOk result (λ found. IfSome found
            (λ d. d.is_file ≡ false → (Self.disk self.now).paths path.now ≡ None)) }
        ensures output { IsTrue Self.is_told → IfOk result (λ found. IfSome found
            (λ d. Some d.id ≡ output_id self.now
            → (Self.disk self.now).paths path.now ≡ None)) }
        ensures id { IsTrue Self.is_told → IfOk result (λ found. HasId (Self.disk self.now)
            (id_of self.now) path.now (option_map (λ d. d.id) found)) };

    /// The numbers of the file to which the program's answers go; `None` if that output is closed.
    fn output(&self) -> Result<Option<(u64, u64)>, Self::Fault>
        ensures { IsTrue Self.is_told → IfOk result (λ found. found ≡ output_id self.now) };

    /// The text of the symbolic link that is itself at the path, if one is there.
    fn read_link(&self, path: &str) -> Result<Option<PathBuf>, Self::Fault>
        ensures { IsTrue Self.is_told → IfOk result
            (λ found. option_map path_buf_bytes found ≡ link_at self.now path.now) };

    /// Opens the folder that a path leads to.
    fn open_folder(&self, dir: &mut Self::Dir, path: &str) -> Result<(), Self::Fault>
        ensures { IsTrue Self.is_told → OnOk result (IsFolderOf (link_at self.now)
            (is_other self.now) (Self.disk self.now).paths (Self.place dir.new) path.now) };

    /// A link leads where its text leads.
    ghost follows: { (system : Self) (path : List ℕ) (text : List ℕ)
        → link_at system path ≡ Some text
        → ((Self.disk system).paths (followed path text) ≡ (Self.disk system).paths path)
        × (is_other system (followed path text) → is_other system path) };

    /// Two files have two ids.
    ghost ids_differ: { (system : Self) (one : ℕ) (other : ℕ)
        → id_of system one ≡ id_of system other → one ≡ other };
}
