//! The next part of a dump that comes in parts: it is held, and read when enough bytes are held.

ghost use Rattle.std.specs.Prelude.{◌≡◌, ◌≤◌, ◌<◌, ◌+◌, ◌*◌, ◌++◌, ◌^◌, ◌⊎◌, ℕ, List, Option, Err};
ghost use Rattle.std.specs.Prelude.{IfErr, OnOk, length, vec_capacity, vec_len};
ghost use Rattle.irig_vcd.specs.Answer.{IsFaultOf};
ghost use Rattle.irig_vcd.specs.Code.DumpReader.{HasRead, IsReader, bytes_read};
ghost use Rattle.irig_vcd.specs.Code.NextPart.{HasReadEnough, IsReadUp, TakesMemory};
ghost use Rattle.irig_vcd.specs.declared.fault.VcdFault.TheVariants.{OutOfMemory};
ghost use Rattle.irig_vcd.specs.{Window.extent_parts};

use crate::fault::VcdFault;
use crate::part::whole_len;
use crate::progress::Progress;

/// Holds the next part, and reads what is held if it is enough. `wanted` says how many bytes are:
/// so the same ones are not read again for each small part.
pub fn put_part(progress: &mut Progress, part: &[u8]) -> Result<(), VcdFault>
    requires reader { IsReader progress.old }
    requires short { bytes_read progress.old + length part.now ≤ 2 ^ 48 }
    ensures reader { OnOk result (IsReader progress.new) }
    ensures read { OnOk result ((wire : Option (List ℕ)) (bytes : List ℕ)
        → HasRead wire bytes progress.old → HasRead wire (bytes ++ part.now) progress.new) }
    ensures length { OnOk result
        (bytes_read progress.new ≡ bytes_read progress.old + length part.now) }
    ensures fault { IfErr result (λ e. (wire : Option (List ℕ)) (bytes more : List ℕ)
        → HasRead wire bytes progress.old
        → IsFaultOf e (extent_parts progress.old.reading.trace.extent wire
        ((bytes ++ part.now) ++ more))) }
    ensures memory { result ≡ Err OutOfMemory
        → (wire : Option (List ℕ)) (bytes : List ℕ) → HasRead wire bytes progress.old
        → (vec_capacity progress.old.held < vec_len progress.old.held + length part.now)
        ⊎ TakesMemory wire progress.old.unit progress.old.code progress.old.journal
        (bytes ++ part.now) }
    ensures enough { OnOk result (HasReadEnough progress.old.wanted progress.new) }
    ensures extent { progress.new.reading.trace.extent ≡ progress.old.reading.trace.extent }
{
    progress.held.extend_from_slice(part)?;
    if progress.held.len() < progress.wanted {
        return Ok(());
    }
    read_held(progress)
}

/// Reads the bytes that are held, but for a last word that may go on in the next part. With a fault
/// of the declarations, which may only be cut, all stay held, and twice as many are wanted.
fn read_held(progress: &mut Progress) -> Result<(), VcdFault>
    requires reader { IsReader progress.old }
    ensures reader { OnOk result (IsReader progress.new) }
    ensures read { OnOk result ((wire : Option (List ℕ)) (bytes : List ℕ)
        → HasRead wire bytes progress.old → HasRead wire bytes progress.new) }
    ensures length { OnOk result (bytes_read progress.new ≡ bytes_read progress.old) }
    ensures held { OnOk result (IsReadUp progress.new.unit progress.new) }
    ensures extent { progress.new.reading.trace.extent ≡ progress.old.reading.trace.extent }
    ensures wanted { OnOk result (progress.new.wanted ≡ 2 * vec_len progress.new.held) }
    ensures fault { IfErr result (λ e. (wire : Option (List ℕ)) (bytes more : List ℕ)
        → HasRead wire bytes progress.old
        → IsFaultOf e (extent_parts progress.old.reading.trace.extent wire (bytes ++ more))) }
    ensures memory { result ≡ Err OutOfMemory
        → (wire : Option (List ℕ)) (bytes : List ℕ) → HasRead wire bytes progress.old
        → TakesMemory wire progress.old.unit progress.old.code progress.old.journal bytes }
{
    let whole = whole_len(progress.held.as_slice());
    match progress.read_to(whole) {
        Ok(Ok(_)) => {
            progress.gather(whole)?;
            progress.let_go(whole);
            Ok(())
        }
        Ok(Err(_)) => {
            progress.let_go(0);
            Ok(())
        }
        Err(fault) => Err(fault),
    }
}
