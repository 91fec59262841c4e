//! The dump in a file, as far as it is taken in.

ghost use Rattle.std.specs.Prelude.{◌≡◌, ◌≢◌, ◌≤◌, ◌<◌, ◌⊎◌, [], ℕ, List, Option, None, Ok, Err};
ghost use Rattle.std.specs.Prelude.{◌^◌, IfOk, IfErr, IsOk, IsErrOf, OnOk, OnErr, length, min};
ghost use Rattle.irig_vcd.specs.declared.fault.VcdFault.TheVariants.{OutOfMemory};
ghost use Rattle.irig_vcd.specs.{Declarations.declarations_of, declared.fault.VcdFault.VcdFault};
ghost use Rattle.irig_vcd.specs.{Answer.Gives, Answer.name_of, Window.extent_parts, Words.words_of};
ghost use Rattle.irig_files.specs.Reads.{HasBytes, HasTaken, IsCounted, Takes, extent_bytes};
ghost use Rattle.irig_files.specs.Reads.{parts_of};
ghost use Rattle.irig_files.specs.declared.dump_file.DumpFileFault.TheVariants as file;

use crate::dump_file::DumpFileFault;
use irig_recording::{LongRecording, Recording};
use irig_vcd::{DumpReader, Extent, VcdFault};
use std::alloc::{AllocError, Global};
use std::mem;

/// A recording of a wire, and the text of the journal that the dump carries, if it has one.
pub type Parts = (Recording, Option<Vec<u8>>);

/// The same of a long recording.
pub type LongParts = (LongRecording, Option<Vec<u8>>);

/// Bytes of a dump, at most: 2^28, this project's own bound.
const DUMP_LIMIT: usize = 268_435_456;

/// The same for a window or a long recording: no file has more, and all counts of bytes stay exact.
const LONG_LIMIT: usize = 1 << 47;

pub fn most_bytes(extent: Extent) -> usize
    ensures { result ≡ extent_bytes extent }
{
    if extent.is_long || extent.window.is_some() {
        LONG_LIMIT
    } else {
        DUMP_LIMIT
    }
}

#[derive(Drop)]
pub struct Intake {
    /// The reader, or the fault that it found: then bytes are only counted.
    dump: Result<DumpReader, VcdFault>,
    /// Bytes that are still taken. It begins with one more than a dump may have, so 0 is too long.
    left: usize,
    extent: Extent,
}

impl Intake {
    /// The intake of a dump, before its first byte.
    pub fn new(alloc: Global, wire: Option<&[u8]>, extent: Extent) -> Result<Intake, AllocError>
        ensures taken { IfOk result (HasTaken (name_of wire.entry) []) }
        ensures counted { IfOk result IsCounted }
        ensures extent { IfOk result (λ intake. intake.extent ≡ extent) }
    {
        Ok(Intake {
            dump: Ok(DumpReader::of_extent(alloc, wire, extent)?),
            left: most_bytes(extent) + 1,
            extent,
        })
    }

    /// How many bytes may be taken next, with room for `room`.
    pub fn wanted(&self, room: usize) -> usize
        ensures { result ≡ min self.now.left room }
    {
        self.left.min(room)
    }

    /// Takes the next part. A fault of the dump is kept for `end`; out of memory, nothing is left
    /// of what was read.
    pub fn put(&mut self, part: &[u8]) -> Result<(), DumpFileFault>
        requires wanted { length part.now ≤ self.old.left }
        requires counted { IsCounted self.old }
        ensures taken { OnOk result (Takes part.now self.old self.new) }
        ensures counted { OnOk result (IsCounted self.new) }
        ensures extent { self.new.extent ≡ self.old.extent }
        ensures memory { IfErr result (λ fault. fault ≡ file.OutOfMemory) }
    {
        self.left -= part.len();
        // `reader.put` takes the reader away, so a fault is there until it comes back; if memory
        // runs out, that fault stays.
        let dump = match mem::replace(&mut self.dump, Err(VcdFault::OutOfMemory)) {
            Ok(reader) => unless_short(reader.put(part))?,
            Err(fault) => Err(fault),
        };
        let_go(mem::replace(&mut self.dump, dump));
        Ok(())
    }

    /// Frees what is taken in, after a fault of the file.
    pub fn let_go(self) {
        let_go(self.dump);
    }

    /// What the dump says, if nothing comes after its parts.
    pub fn end(self) -> Result<Result<LongParts, VcdFault>, DumpFileFault>
        requires counted { IsCounted self }
        ensures read { IfOk result (λ read. (wire : Option (List ℕ)) (bytes : List ℕ)
            → HasTaken wire bytes self → Gives parts_of read
            (extent_parts self.extent wire bytes)) }
        ensures within { IfOk result (HasBytes (extent_bytes self.extent)) }
        ensures short { IfOk result (λ _. 0 < self.left) }
        ensures long { IsErrOf result file.TooLong → self.left ≡ 0 }
        ensures fault { IfErr result (λ fault. ((fault ≡ file.TooLong) × (self.left ≡ 0))
            ⊎ ((fault ≡ file.OutOfMemory) × (0 < self.left) × IsOk self.dump)) }
        // The reader holds the declarations until they are whole, and has no unit of time before.
        ensures heading { (wire : Option (List ℕ)) (bytes : List ℕ) (e : VcdFault)
            → HasTaken wire bytes self → IfOk self.dump (λ reader. reader.unit ≡ None)
            → 0 < self.left → e ≢ OutOfMemory
            → declarations_of wire (words_of bytes) ≡ Err e → result ≡ Ok (Err e) }
    {
        if self.left == 0 {
            return Err(DumpFileFault::TooLong);
        }
        match self.dump {
            Ok(reader) => unless_short(reader.end()),
            Err(fault) => Ok(Err(fault)),
        }
    }
}

/// Its argument ends with this call; the proof of a call is shorter than that of a drop.
fn let_go(_dump: Result<DumpReader, VcdFault>) {}

/// What is read of a recording that is short enough, as a `Recording`.
pub fn shorter(read: Result<LongParts, VcdFault>) -> Result<Parts, VcdFault>
    requires few { IfOk read (λ x. length x.0.edges ≤ 2 ^ 23) }
    ensures { result ≡ read }
{
    match read {
        Ok((recording, journal)) => Ok((recording.into_recording(), journal)),
        Err(fault) => Err(fault),
    }
}

/// Out of memory is a fault of the file; every other one is of the dump.
fn unless_short<T: Drop>(read: Result<T, VcdFault>) -> Result<Result<T, VcdFault>, DumpFileFault>
    ensures same { IfOk result (λ given. (given ≡ read) × (given ≢ Err OutOfMemory)) }
    ensures memory { IfErr result (λ fault. fault ≡ file.OutOfMemory) }
    ensures only { OnErr result (read ≡ Err OutOfMemory) }
{
    match read {
        Err(VcdFault::OutOfMemory) => Err(DumpFileFault::OutOfMemory),
        read => Ok(read),
    }
}
