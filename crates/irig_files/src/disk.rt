//! What the program asks of files.

ghost use Rattle.std.specs.Prelude.{◌≡◌, ◌<◌, ◌≤◌, ◌^◌, Bool, ℕ, List, Option, Some, IfErr, IfOk};
ghost use Rattle.std.specs.Prelude.{IfSome, IsErr, IsErrOf, IsTrue, false, length, true};
ghost use Rattle.irig_vcd.specs.Answer.{name_of};
ghost use Rattle.irig_disk.specs.{Disk.Disk, Disk.MayLeave, Held.Held, Writing.IsUnchanged};
ghost use Rattle.irig_files.specs.Reads.{extent_bytes};
ghost use Rattle.irig_files.specs.{Once.PutsText, Puts.count_of, Reads.IsReadBy, Reads.IsReadOf};
ghost use Rattle.irig_files.specs.declared.dump_file.DumpFileFault.{DumpFileFault};
ghost use Rattle.irig_files.specs.{Apart.AreApart, Apart.LeadToOneFile, Taken.HasFile, Taken.StaysBarred};

use crate::dump_file::DumpFileFault;
use crate::intake::{LongParts, Parts, shorter};
use crate::room::Room;
use crate::written::Written;
use irig_text::{ShelfFault, Text};
use irig_vcd::{Extent, VcdFault};
use std::alloc::Global;

/// Files by their paths. What a real file holds no contract can say; what is asked of one can.
pub trait Disk {
    /// What the file at a path holds, if it is known.
    ghost held: { Self → List ℕ → Option (List ℕ) };

    /// A call that reads the file at a path has this fault.
    ghost unread: { Self → List ℕ → DumpFileFault → Type 0 };

    /// Whether the contracts know the state below: true of folders in memory, false of the system.
    ghost is_told: { Bool };

    /// What is seen, what a crash may leave, where paths lead, and what was written.
    ghost disk: { Self → Disk };

    /// The mode of a new file where none was.
    ghost usual_mode: { ℕ };

    /// A file is not replaced: it must not be written.
    ghost is_barred: { Self → ℕ → Type 0 };

    /// Reads the dump in the file at a path, as much of it as `extent` says. Of a file that is too
    /// long at most one byte more is read.
    fn read_extent(
        &self,
        alloc: Global,
        path: &str,
        wire: Option<&[u8]>,
        extent: Extent,
    ) -> Result<Result<LongParts, VcdFault>, DumpFileFault>
        ensures read { IfOk result
            (IsReadBy extent (held self.now path.now) (name_of wire.entry)) }
        ensures long { IsErrOf result DumpFileFault.TooLong
            → IfSome (held self.now path.now) (λ all. extent_bytes extent < length all) }
        ensures unread { IfErr result (unread self.now path.now) };

    /// The same of the whole dump, with up to 2^22 pulses.
    fn read(
        &self,
        alloc: Global,
        path: &str,
        wire: Option<&[u8]>,
    ) -> Result<Result<Parts, VcdFault>, DumpFileFault>
        ensures read { IfOk result (IsReadOf (held self.now path.now) (name_of wire.entry)) }
        ensures long { IsErrOf result DumpFileFault.TooLong
            → IfSome (held self.now path.now) (λ all. 2 ^ 28 < length all) }
        ensures unread { IfErr result (unread self.now path.now) }
    {
        match self.read_extent(alloc, path, wire, Extent::short(None)) {
            Ok(read) => Ok(shorter(read)),
            Err(fault) => Err(fault),
        }
    }

    /// Writes a text to what a path leads to: a regular file, or none yet, is replaced whole;
    /// anything else, and what the program's answers go to, is written in place. After a fault
    /// there is the old text, or the new one if only the last sync failed; in place there may be a
    /// front of the text.
    fn put<T: Text>(
        &mut self,
        path: &str,
        text: &mut T,
        room: &mut Room,
    ) -> Result<Written, ShelfFault>
        ensures count { IfOk result (λ written. count_of written ≡ length (T.rest text.old)) }
        ensures put { IsTrue is_told → PutsText usual_mode (disk self.old) (disk self.new)
            ((disk self.old).paths path.now) (T.rest text.old) result }
        ensures barred { IsTrue is_told → HasFile (is_barred self.old) (disk self.old)
            ((disk self.old).paths path.now)
            → IsErr result × IsUnchanged (disk self.old) (disk self.new) }
        ensures still { IsTrue is_told → StaysBarred (is_barred self.old) (is_barred self.new)
            (disk self.old) (disk self.new) path.now };

    /// Whether two paths lead to one regular file: false if one leads to none.
    fn is_same(&self, one: &str, other: &str) -> Result<bool, ShelfFault>
        ensures apart { IsTrue is_told → IfOk result (λ same. same ≡ false
            → AreApart (disk self.now) one.now other.now) }
        ensures same { IsTrue is_told → IfOk result (λ same. same ≡ true
            → LeadToOneFile (disk self.now) one.now other.now) };

    /// This moment is one of those since an earlier one.
    ghost counts_now: { (files : Self) (t : ℕ) (place : List ℕ) (c : Option Held)
        → t ≤ (disk files).moment → MayLeave (disk files) place c
        → (disk files).left_since t place c };

    /// Since this moment there is no other.
    ghost only_now: { (files : Self) (place : List ℕ) (c : Option Held)
        → (disk files).left_since (disk files).moment place c → MayLeave (disk files) place c };
}
