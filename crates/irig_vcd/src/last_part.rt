//! The end of a dump that comes in parts: the last bytes are read, and the whole is put together.

ghost use Rattle.std.specs.Prelude.{◌≡◌, ◌≤◌, ℕ, List, Option, None, Ok, Err, IfOk, IfErr, IfSome};
ghost use Rattle.std.specs.Prelude.{OnOk, vec_len};
ghost use Rattle.irig_vcd.specs.Answer.{IsFaultOf, bytes_of};
ghost use Rattle.irig_vcd.specs.Code.DumpReader.{HasRead, HasReadWords, IsReader, bytes_read};
ghost use Rattle.irig_vcd.specs.Code.NextPart.{TakesMemory};
ghost use Rattle.irig_vcd.specs.declared.fault.VcdFault.TheVariants.{OutOfMemory};
ghost use Rattle.irig_vcd.specs.{Declarations.declarations_of, declared.fault.VcdFault.VcdFault};
ghost use Rattle.irig_vcd.specs.{Code.Gathered.gathered, Code.Reached.IsOn, Dump.changes_before};
ghost use Rattle.irig_vcd.specs.{Level.HasEdge, Window.extent_parts, Words.words_of};

use crate::fault::VcdFault;
use crate::progress::Progress;
use crate::reader::recording_of;
use crate::reading::{Body, Reading};
use crate::unit::Unit;
use irig_recording::LongRecording;

/// Reads all bytes that are held, as nothing comes after them, and keeps what is of the first
/// journal. A fault of the declarations is final now, and so an error as any other.
pub fn read_rest(progress: &mut Progress) -> Result<Unit, VcdFault>
    requires reader { IsReader progress.old }
    ensures extent { progress.new.reading.trace.extent ≡ progress.old.reading.trace.extent }
    ensures time { IfOk result
        (λ unit. IsOn unit progress.new.reading.trace progress.new.reading.clock) }
    ensures read { IfOk result (λ unit. (wire : Option (List ℕ)) (bytes : List ℕ)
        → HasRead wire bytes progress.old
        → HasReadWords wire (words_of bytes) unit progress.new.code.items progress.new.reading
        × (progress.new.journal.items ≡ gathered progress.new.reading bytes)) }
    ensures fault { IfErr result (λ e. (wire : Option (List ℕ)) (bytes : List ℕ)
        → HasRead wire bytes progress.old
        → IsFaultOf e (extent_parts progress.old.reading.trace.extent wire bytes)) }
    ensures heading { (wire : Option (List ℕ)) (bytes : List ℕ) (e : VcdFault)
        → HasRead wire bytes progress.old → progress.old.unit ≡ None
        → declarations_of wire (words_of bytes) ≡ Err e → result ≡ Err e }
    ensures within { OnOk result (vec_len progress.new.journal ≤ bytes_read progress.old) }
    ensures memory { result ≡ Err OutOfMemory
        → (wire : Option (List ℕ)) (bytes : List ℕ) → HasRead wire bytes progress.old
        → TakesMemory wire progress.old.unit progress.old.code progress.old.journal bytes }
{
    let all = progress.held.len();
    match progress.read_to(all) {
        Ok(Ok(unit)) => {
            progress.gather(all)?;
            Ok(unit)
        }
        Ok(Err(fault)) => Err(fault),
        Err(fault) => Err(fault),
    }
}

/// What a dump says of which all was read. The faults, in this order: something is open, there are
/// too many edges, there is a second journal.
pub fn finish(
    reading: Reading,
    journal: Vec<u8>,
    unit: Unit,
) -> Result<(LongRecording, Option<Vec<u8>>), VcdFault>
    requires time { IsOn unit reading.trace reading.clock }
    ensures read { IfOk result (λ x. (wire : Option (List ℕ)) (bytes code : List ℕ)
        → HasReadWords wire (words_of bytes) unit code reading
        → journal.items ≡ gathered reading bytes
        → extent_parts reading.trace.extent wire bytes ≡ Ok (x.0, bytes_of x.1)) }
    ensures fault { IfErr result (λ e. (wire : Option (List ℕ)) (bytes code : List ℕ)
        → HasReadWords wire (words_of bytes) unit code reading
        → journal.items ≡ gathered reading bytes
        → IsFaultOf e (extent_parts reading.trace.extent wire bytes)) }
    ensures within { IfOk result
        (λ x. IfSome x.1 (λ kept. vec_len kept ≤ vec_len journal)) }
    ensures memory { result ≡ Err OutOfMemory → (wire : Option (List ℕ)) (bytes code : List ℕ)
        → HasReadWords wire (words_of bytes) unit code reading
        → HasEdge (changes_before wire bytes) }
{
    let most = reading.trace.extent.most_pulses();
    let Body {
        end,
        edges,
        journals,
    } = reading.finish(unit)?;
    let recording = match recording_of(end, edges, most) {
        Ok(recording) => recording,
        Err(fault) => return Err(fault),
    };
    match journals.gathered_text(journal) {
        Ok(journal) => Ok((recording, journal)),
        Err(fault) => Err(fault),
    }
}
