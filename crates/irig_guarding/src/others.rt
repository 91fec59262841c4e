//! The frames of another recording of the same code that say something of this one.

ghost use Rattle.std.specs.Prelude.{◌≡◌, ◌≤◌, ◌^◌, ℕ, Err, List, Option, length, Ok, IfErr};
ghost use Rattle.std.specs.Prelude.{IfSome, OnOk};
ghost use Rattle.irig_edit.specs.Opened.Openings.{MayBeShort};
ghost use Rattle.irig_guarding.specs.{Others.Adds, Others.IsUnadded};
ghost use Rattle.irig_guarding.specs.Reading.{even_frames, fine_frames};
ghost use Rattle.irig_guarding.specs.declared.product.GuardFault.TheVariants.{Dump};
ghost use Rattle.irig_safety.specs.{Others.backed, Terms.with_more};
ghost use Rattle.irig_vcd.specs.{Answer.bytes_of, Parts.dump_parts};
ghost use Rattle.irig_vcd.specs.declared.fault.VcdFault.TheVariants.{OutOfMemory};

use crate::odd::even_frames;
use crate::product::GuardFault;
use crate::reading::fine_frames;
use irig_codes::Format;
use irig_edit::Session;
use irig_recording::Recording;
use irig_safety::{Terms, backed};
use std::alloc::{AllocError, Global};

/// Adds to `terms` the frames of another recording that say something of this one (`add_backed`).
pub fn add_frames(
    alloc: Global,
    recording: Recording,
    journal: Option<Vec<u8>>,
    format: Format,
    terms: &mut Terms,
) -> Result<(), GuardFault>
    requires { IfSome journal (λ text. length text.items ≤ 2 ^ 28) }
    ensures added { OnOk result ((wire : Option (List ℕ)) (bytes : List ℕ)
        → dump_parts wire bytes ≡ Ok (recording, bytes_of journal)
        → Adds wire bytes format terms.old terms.new) }
    ensures fault { IfErr result (λ e. (wire : Option (List ℕ)) (bytes : List ℕ)
        → dump_parts wire bytes ≡ Ok (recording, bytes_of journal)
        → IsUnadded wire bytes e) }
    ensures memory { result ≡ Err (Dump OutOfMemory)
        → MayBeShort (Ok (recording, bytes_of journal)) }
{
    let session = match Session::open_parts(alloc, recording, journal, format) {
        Ok(session) => session,
        Err(fault) => return Err(GuardFault::Dump(fault)),
    };
    match add_backed(alloc, &session, format, terms) {
        Ok(()) => Ok(()),
        Err(_) => Err(GuardFault::OutOfMemory),
    }
}

/// Adds to `terms` two lists of the frames of a session that are backed (`backed`).
fn add_backed(
    alloc: Global,
    session: &Session,
    format: Format,
    terms: &mut Terms,
) -> Result<(), AllocError>
    ensures { OnOk result (terms.new ≡ with_more (backed format (fine_frames session.now.state))
        (backed format (even_frames session.now.state)) terms.old) }
{
    let fine = fine_frames(alloc, session)?;
    let backed_fine = backed(alloc, format, fine.as_slice())?;
    let even = even_frames(alloc, session)?;
    let backed_even = backed(alloc, format, even.as_slice())?;
    terms.add(backed_fine.as_slice(), backed_even.as_slice())
}
