//! The two stages of reading a dump that comes in parts: its front, and the changes after it.

ghost use Rattle.std.specs.Prelude.{◌≡◌, ◌≤◌, ◌+◌, ◌++◌, ◌^◌, [], ℕ, List, Option, None, Ok, Err};
ghost use Rattle.std.specs.Prelude.{IfOk, IfErr, OnOk, false, length};
ghost use Rattle.irig_vcd.specs.Code.DumpReader.{HasReadWords, IsNew, StopsAt, StopsIn};
ghost use Rattle.irig_vcd.specs.Words.{Word, words_from, words_of};
ghost use Rattle.irig_vcd.specs.{Answer.name_of, Code.Reached.IsOn};
ghost use Rattle.irig_vcd.specs.{Declarations.declarations_of, declared.fault.VcdFault.VcdFault};

use crate::fault::VcdFault;
use crate::header::{Start, declarations};
use crate::reading::Reading;
use crate::token::Tokens;
use crate::unit::Unit;

/// Reads the front of a dump: the declarations, and the changes after them in `part`.
/// `Ok(Err(fault))`: nothing is read, as the declarations have a fault, maybe since the dump is cut
/// here. `Err`: a fault that stays whatever comes, or memory ran out.
pub fn begin(
    wire: Option<&[u8]>,
    code: &mut Vec<u8>,
    reading: &mut Reading,
    part: &[u8],
) -> Result<Result<Unit, VcdFault>, VcdFault>
    requires new { (unit : ℕ) → IsOn unit reading.old.trace reading.old.clock }
    ensures read { IfOk result (λ read. IfOk read (λ unit. code.old.items ≡ [] → IsNew reading.old
        → HasReadWords (name_of wire.entry) (words_of part.now) unit code.new.items
        reading.new)) }
    ensures extent { reading.new.trace.extent ≡ reading.old.trace.extent }
    ensures time { IfOk result (λ read. IfOk read
        (λ unit. IsOn unit reading.new.trace reading.new.clock)) }
    ensures early { IfOk result (λ read. IfErr read (λ e.
        (declarations_of (name_of wire.entry) (words_of part.now) ≡ Err e)
        × (code.new ≡ code.old) × (reading.new ≡ reading.old))) }
    ensures heading { (e : VcdFault)
        → declarations_of (name_of wire.entry) (words_of part.now) ≡ Err e
        → result ≡ Ok (Err e) }
    ensures fault { IfErr result (λ e. IsNew reading.old
        → StopsAt None code.old (name_of wire.entry) (words_of part.now) e) }
{
    let mut tokens = Tokens::new(part);
    match declarations(&mut tokens, wire) {
        Err(fault) => Ok(Err(fault)),
        Ok(start) => {
            reading.read(&mut tokens, start.unit, start.code)?;
            code.extend_from_slice(start.code)?;
            Ok(Ok(start.unit))
        }
    }
}

/// Reads a part that is after the declarations: `gone` bytes of the dump are before it.
pub fn go_on(
    unit: Unit,
    code: &[u8],
    reading: &mut Reading,
    part: &[u8],
    gone: usize,
) -> Result<(), VcdFault>
    requires time { IsOn unit reading.old.trace reading.old.clock }
    requires short { gone + length part.now ≤ 2 ^ 48 }
    ensures extent { reading.new.trace.extent ≡ reading.old.trace.extent }
    ensures time { OnOk result (IsOn unit reading.new.trace reading.new.clock) }
    ensures read { OnOk result ((wire : Option (List ℕ)) (words : List Word)
        → HasReadWords wire words unit code.now reading.old
        → HasReadWords wire (words ++ words_from gone false part.now) unit code.now
        reading.new) }
    ensures fault { IfErr result (λ e. (wire : Option (List ℕ)) (words : List Word)
        → HasReadWords wire words unit code.now reading.old
        → StopsIn wire (words ++ words_from gone false part.now) e) }
{
    let mut tokens = Tokens::after(part, gone);
    reading.read(&mut tokens, unit, code)
}
