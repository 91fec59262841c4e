//! A session is opened from a dump, with the journal that it carries.

ghost use Rattle.std.specs.Prelude.{◌≡◌, ◌≤◌, ◌^◌, ◌⊎◌, ℕ, List, Option, Ok, Err, IfOk, IfErr};
ghost use Rattle.std.specs.Prelude.{IfSome, None, length};
ghost use Rattle.irig_saved.specs.{Faults.IsFault, Faults.ReachesSteps, SavedText.saved_lines};
ghost use Rattle.irig_vcd.specs.declared.fault.VcdFault.TheVariants.{OutOfMemory};
ghost use Rattle.irig_vcd.specs.{Answer.bytes_of, Answer.name_of, Declarations.declarations_of};
ghost use Rattle.irig_vcd.specs.{Dump.changes_before, Level.HasEdge, Parts.dump_parts};
ghost use Rattle.irig_vcd.specs.{Words.words_of, declared.fault.VcdFault.VcdFault};
ghost use Rattle.irig_edit.specs.Opened.Opened.{IsAccepted, IsLineAtFault, head_fault, state_of};
ghost use Rattle.irig_edit.specs.Opened.Openings.{ArePartsOf, IsBad, IsOpened, IsTextOf};
ghost use Rattle.irig_edit.specs.Opened.Openings.{IsUnopened, MayBeShort};
ghost use Rattle.irig_edit.specs.Opened.Parts.{HasBadText, HasHead, HasNoSession, IsJournalOf};
ghost use Rattle.irig_edit.specs.Opened.Parts.{IsSessionOf};

use crate::opened::head::start;
use crate::session::session::Session;
use irig_codes::Format;
use irig_recording::Recording;
use irig_saved::{Fault, Saved, parse};
use irig_vcd::{VcdFault, read_parts};
use std::alloc::Global;

impl Session {
    /// The session of a dump's wire; without a name the dump has to have one wire of one bit.
    /// `format` is only for a dump without a journal. The bytes are dropped before the session
    /// takes its memory, which can run out only if the wire has an edge before the dump's first
    /// fault, or if the dump has no fault.
    pub fn open_dump(
        alloc: Global,
        bytes: Vec<u8>,
        wire: Option<&[u8]>,
        format: Format,
    ) -> Result<Session, VcdFault>
        requires short { length bytes.items ≤ 2 ^ 28 }
        ensures opened { IfOk result (λ s. IsOpened (name_of wire.entry) bytes.items format s) }
        ensures closed { IfOk result (λ s. s.floor ≡ None) }
        ensures heading { (e : VcdFault)
            → declarations_of (name_of wire.entry) (words_of bytes.items) ≡ Err e
            → result ≡ Err e }
        ensures fault { IfErr result (λ e. IsUnopened (name_of wire.entry) bytes.items e) }
        ensures memory { result ≡ Err OutOfMemory
            → HasEdge (changes_before (name_of wire.entry) bytes.items)
            ⊎ MayBeShort (dump_parts (name_of wire.entry) bytes.items) }
    {
        match parts_of(alloc, bytes, wire) {
            Ok((recording, journal)) => session_with(alloc, recording, journal, format),
            Err(fault) => Err(fault),
        }
    }

    /// The session of a recording and the text of its journal, as `irig_vcd` reads both from a
    /// dump; the text is dropped before the session takes its memory. With a journal memory can run
    /// out while the lines of its steps are read, and after that only if format, cursor and marks
    /// are right.
    pub fn open_parts(
        alloc: Global,
        recording: Recording,
        journal: Option<Vec<u8>>,
        format: Format,
    ) -> Result<Session, VcdFault>
        requires short { IfSome journal (λ text. length text.items ≤ 2 ^ 28) }
        ensures opened { IfOk result (λ s. (wire : Option (List ℕ)) (bytes : List ℕ)
            → dump_parts wire bytes ≡ Ok (recording, bytes_of journal)
            → IsOpened wire bytes format s) }
        ensures closed { IfOk result (λ s. s.floor ≡ None) }
        ensures fault { IfErr result (λ e. (wire : Option (List ℕ)) (bytes : List ℕ)
            → dump_parts wire bytes ≡ Ok (recording, bytes_of journal)
            → IsUnopened wire bytes e) }
        ensures memory { result ≡ Err OutOfMemory
            → MayBeShort (Ok (recording, bytes_of journal)) }
    {
        match saved_of(alloc, journal) {
            Ok(journal) => session_with(alloc, recording, journal, format),
            Err(fault) => Err(fault),
        }
    }
}

/// Reads a dump and the form of its journal's lines; none of the steps is tried.
fn parts_of(
    alloc: Global,
    bytes: Vec<u8>,
    wire: Option<&[u8]>,
) -> Result<(Recording, Option<Saved>), VcdFault>
    requires short { length bytes.items ≤ 2 ^ 28 }
    ensures parts { IfOk result (λ p. ArePartsOf (name_of wire.entry) bytes.items p.0 p.1) }
    ensures lines { IfOk result (λ p. IfSome p.1 (λ saved. length (saved_lines saved) ≤ 2 ^ 28)) }
    ensures heading { (e : VcdFault)
        → declarations_of (name_of wire.entry) (words_of bytes.items) ≡ Err e → result ≡ Err e }
    ensures fault { IfErr result (λ e. IsUnopened (name_of wire.entry) bytes.items e) }
    ensures memory { result ≡ Err OutOfMemory
        → HasEdge (changes_before (name_of wire.entry) bytes.items)
        ⊎ MayBeShort (dump_parts (name_of wire.entry) bytes.items) }
{
    match read_parts(alloc, bytes.as_slice(), wire) {
        Ok((recording, journal)) => match journal {
            None => Ok((recording, None)),
            Some(text) => match journal_of(alloc, text) {
                Ok(saved) => Ok((recording, Some(saved))),
                Err(fault) => Err(fault),
            },
        },
        Err(fault) => Err(fault),
    }
}

/// The journal that a text has; none of its steps is tried.
fn journal_of(alloc: Global, text: &[u8]) -> Result<Saved, VcdFault>
    requires short { length text.now ≤ 2 ^ 28 }
    ensures saved { IfOk result (IsTextOf text.now) }
    ensures lines { IfOk result (λ saved. length (saved_lines saved) ≤ 2 ^ 28) }
    ensures fault { IfErr result (IsBad (λ line. IsFault line text.now)) }
    ensures memory { result ≡ Err OutOfMemory → ReachesSteps text.now }
{
    match parse(alloc, text) {
        Ok(saved) => Ok(saved),
        Err(Fault::Line(line)) => Err(VcdFault::BadJournal(line)),
        Err(Fault::Memory) => Err(VcdFault::OutOfMemory),
    }
}

fn saved_of(alloc: Global, text: Option<Vec<u8>>) -> Result<Option<Saved>, VcdFault>
    requires short { IfSome text (λ text. length text.items ≤ 2 ^ 28) }
    ensures saved { IfOk result (IsJournalOf (bytes_of text)) }
    ensures lines { IfOk result (λ j. IfSome j (λ saved. length (saved_lines saved) ≤ 2 ^ 28)) }
    ensures fault { IfErr result (HasBadText (bytes_of text)) }
    ensures memory { result ≡ Err OutOfMemory → IfSome (bytes_of text) ReachesSteps }
{
    match text {
        None => Ok(None),
        Some(text) => match journal_of(alloc, text.as_slice()) {
            Ok(saved) => Ok(Some(saved)),
            Err(fault) => Err(fault),
        },
    }
}

/// The session of a recording, with its journal if there is one: then `format` is not used.
fn session_with(
    alloc: Global,
    recording: Recording,
    journal: Option<Saved>,
    format: Format,
) -> Result<Session, VcdFault>
    requires short { IfSome journal (λ saved. length (saved_lines saved) ≤ 2 ^ 28) }
    ensures opened { IfOk result (IsSessionOf recording journal format) }
    ensures fault { IfErr result (HasNoSession recording journal) }
    ensures memory { result ≡ Err OutOfMemory → HasHead recording journal }
{
    match journal {
        Some(saved) => session_of(alloc, recording, saved),
        None => match Session::open(alloc, recording, format) {
            Ok(session) => Ok(session),
            Err(_) => Err(VcdFault::OutOfMemory),
        },
    }
}

/// The session of a recording with a journal; `line` is the first line that `start` has not judged.
fn session_of(alloc: Global, recording: Recording, saved: Saved) -> Result<Session, VcdFault>
    requires short { length (saved_lines saved) ≤ 2 ^ 28 }
    ensures opened { IfOk result (IsAccepted (state_of recording saved) saved) }
    ensures fault { IfErr result (IsBad (IsLineAtFault (state_of recording saved) saved)) }
    ensures memory { result ≡ Err OutOfMemory
        → head_fault (state_of recording saved) saved ≡ None }
{
    match start(alloc, recording, &saved) {
        Ok((walk, line)) => walk.open(alloc, saved, line),
        Err(fault) => Err(fault),
    }
}
