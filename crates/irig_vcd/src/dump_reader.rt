//! A reader of a dump that comes in parts.

ghost use Rattle.std.specs.Prelude.{◌≡◌, ◌≤◌, ◌<◌, ◌+◌, ◌++◌, ◌^◌, ◌⊎◌, ◌↔◌, [], ℕ, List, Option};
ghost use Rattle.std.specs.Prelude.{None, Ok, Err, IfOk, IfErr, IfSome, IsTrue};
ghost use Rattle.std.specs.Prelude.{length, vec_capacity, vec_len};
ghost use Rattle.irig_vcd.specs.Answer.{IsFaultOf, bytes_of, name_of};
ghost use Rattle.irig_vcd.specs.Code.DumpReader.{HasRead, bytes_read};
ghost use Rattle.irig_vcd.specs.Code.NextPart.{HasReadEnough, TakesMemory};
ghost use Rattle.irig_vcd.specs.declared.fault.VcdFault.TheVariants.{OutOfMemory};
ghost use Rattle.irig_vcd.specs.{Declarations.declarations_of, declared.fault.VcdFault.VcdFault};
ghost use Rattle.irig_vcd.specs.{Extent.short, Window.extent_parts, Words.words_of};

use crate::extent::Extent;
use crate::fault::VcdFault;
use crate::last_part::{finish, read_rest};
use crate::next_part::put_part;
use crate::progress::Progress;
use crate::reading::Reading;
use irig_recording::LongRecording;
use std::alloc::{AllocError, Global};
use std::marker::Model;

/// The most bytes of a dump that comes in parts: far more than files have, and no place overflows.
const LIMIT: usize = 1 << 48;

/// A dump that comes in parts. It keeps the edges and the bytes of the first journal, not the dump.
#[derive(Drop)]
pub struct DumpReader {
    progress: Progress,
}

impl Model for DumpReader {
    ghost use Rattle.irig_vcd.specs.{Code.DumpReader.IsReader, declared.progress.Progress.Progress};

    ghost Value = { Progress };

    ghost view = { λ r. r.progress };

    ghost invariant = { λ r. IsReader r.progress };
}

impl DumpReader {
    /// A reader of all of a dump of at most 2^22 pulses; `None` is the one wire of one bit.
    pub fn new(alloc: Global, wire: Option<&[u8]>) -> Result<DumpReader, AllocError>
        ensures read { IfOk result (HasRead (name_of wire.entry) []) }
        ensures whole { IfOk result (λ r. r.reading.trace.extent ≡ short None) }
        ensures length { IfOk result (λ r. bytes_read r ≡ 0) }
    {
        DumpReader::of_extent(alloc, wire, Extent::short(None))
    }

    /// A reader that has read nothing yet, and keeps as much of a dump as `extent` says.
    pub fn of_extent(
        alloc: Global,
        wire: Option<&[u8]>,
        extent: Extent,
    ) -> Result<DumpReader, AllocError>
        ensures read { IfOk result (HasRead (name_of wire.entry) []) }
        ensures extent { IfOk result (λ r. r.reading.trace.extent ≡ extent) }
        ensures length { IfOk result (λ r. bytes_read r ≡ 0) }
    {
        let wire = copied(alloc, wire)?;
        Ok(DumpReader {
            progress: Progress {
                wire,
                unit: None,
                code: Vec::new(alloc),
                reading: Reading::new(alloc, extent),
                gone: 0,
                held: Vec::new(alloc),
                wanted: 0,
                journal: Vec::new(alloc),
            },
        })
    }

    /// Whether `count` bytes more may come: 2^48 in all. It subtracts, so that no sum overflows.
    pub fn has_room(&self, count: usize) -> bool
        ensures { IsTrue result ↔ (bytes_read self.now + count ≤ 2 ^ 48) }
    {
        let progress = &self.progress;
        progress.gone <= LIMIT
            && progress.held.len() <= LIMIT - progress.gone
            && count <= LIMIT - progress.gone - progress.held.len()
    }

    /// The reader after the next part, which is read, or held until enough is there. A fault is one
    /// that the dump has whatever comes after it. Memory runs out only for bytes that are held, an
    /// edge, the wire's code, and the first journal.
    pub fn put(self, part: &[u8]) -> Result<DumpReader, VcdFault>
        requires short { bytes_read self + length part.now ≤ 2 ^ 48 }
        ensures read { IfOk result (λ r. (wire : Option (List ℕ)) (bytes : List ℕ)
            → HasRead wire bytes self → HasRead wire (bytes ++ part.now) r) }
        ensures length { IfOk result (λ r. bytes_read r ≡ bytes_read self + length part.now) }
        ensures fault { IfErr result (λ e. (wire : Option (List ℕ)) (bytes more : List ℕ)
            → HasRead wire bytes self
            → IsFaultOf e (extent_parts self.reading.trace.extent wire
            ((bytes ++ part.now) ++ more))) }
        ensures memory { result ≡ Err OutOfMemory
            → (wire : Option (List ℕ)) (bytes : List ℕ) → HasRead wire bytes self
            → (vec_capacity self.held < vec_len self.held + length part.now)
            ⊎ TakesMemory wire self.unit self.code self.journal (bytes ++ part.now) }
        ensures enough { IfOk result (HasReadEnough self.wanted) }
        ensures extent { IfOk result (λ r. r.reading.trace.extent ≡ self.reading.trace.extent) }
    {
        let mut progress = self.progress;
        match put_part(&mut progress, part) {
            Ok(()) => Ok(DumpReader { progress }),
            Err(fault) => Err(fault),
        }
    }

    /// What the dump says if nothing comes after its parts: the recording, and the text of its
    /// journal, from its first word up to its `$end`.
    pub fn end(self) -> Result<(LongRecording, Option<Vec<u8>>), VcdFault>
        ensures read { IfOk result (λ x. (wire : Option (List ℕ)) (bytes : List ℕ)
            → HasRead wire bytes self
            → extent_parts self.reading.trace.extent wire bytes ≡ Ok (x.0, bytes_of x.1)) }
        ensures fault { IfErr result (λ e. (wire : Option (List ℕ)) (bytes : List ℕ)
            → HasRead wire bytes self
            → IsFaultOf e (extent_parts self.reading.trace.extent wire bytes)) }
        ensures heading { (wire : Option (List ℕ)) (bytes : List ℕ) (e : VcdFault)
            → HasRead wire bytes self → self.unit ≡ None
            → declarations_of wire (words_of bytes) ≡ Err e → result ≡ Err e }
        ensures within { IfOk result
            (λ x. IfSome x.1 (λ journal. vec_len journal ≤ bytes_read self)) }
        ensures memory { result ≡ Err OutOfMemory
            → (wire : Option (List ℕ)) (bytes : List ℕ) → HasRead wire bytes self
            → TakesMemory wire self.unit self.code self.journal bytes }
    {
        let mut progress = self.progress;
        match read_rest(&mut progress) {
            Ok(unit) => finish(progress.reading, progress.journal, unit),
            Err(fault) => Err(fault),
        }
    }
}

fn copied(alloc: Global, wire: Option<&[u8]>) -> Result<Option<Vec<u8>>, AllocError>
    ensures { IfOk result (λ name. bytes_of name ≡ name_of wire.entry) }
{
    match wire {
        None => Ok(None),
        Some(name) => Ok(Some(name.to_vec(alloc)?)),
    }
}
