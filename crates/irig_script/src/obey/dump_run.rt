//! A script run on a dump.

ghost use Rattle.std.specs.Prelude.{◌≡◌, ◌≢◌, ◌⊎◌, ◌≤◌, ◌^◌, ℕ, List, Option, length, Ok, Err};
ghost use Rattle.std.specs.Prelude.{IfSome, MatchResult};
ghost use Rattle.irig_codes.specs.Format.{FormatView};
ghost use Rattle.irig_edit.specs.Opened.Openings.{IsOpened, MayBeShort};
ghost use Rattle.irig_vcd.specs.declared.fault.VcdFault.TheVariants.{OutOfMemory};
ghost use Rattle.irig_vcd.specs.{Answer.bytes_of, Answer.name_of, Dump.changes_before};
ghost use Rattle.irig_vcd.specs.{Level.HasEdge, Parts.dump_parts, declared.fault.VcdFault.VcdFault};
ghost use Rattle.irig_script.specs.declared.obey.dump_run.DumpRunFault.TheVariants.{Dump, Run};
ghost use Rattle.irig_script.specs.{Obey.Desk.desk_at, Obey.DumpRun.RunsOnDump};
ghost use Rattle.irig_script.specs.Obey.Reading.{ReadsTo};

use crate::obey::engine;
use crate::obey::status::{RunFault, Status};
use crate::print::screen::Screen;
use crate::print::witness::Witness;
use irig_codes::Format;
use irig_edit::Session;
use irig_recording::Recording;
use irig_text::Shelf;
use irig_vcd::VcdFault;
use std::alloc::Global;
use std::io::{Read, Write};

/// Why a script did not run on a dump to its end.
#[derive(Clone, Copy, PartialEq, Eq)]
pub enum DumpRunFault {
    /// The dump was not opened: no line of the script was read.
    Dump(VcdFault),
    /// The script was not obeyed to its end.
    Run(RunFault),
}

/// Opens a dump and obeys a script on its session; without a wire's name the dump has to have one
/// wire of one bit. `format` is only for a dump without a journal. The bytes are dropped before the
/// script is read.
pub fn run_on_dump<R: Read, W: Write, N: Witness, S: Shelf>(
    alloc: Global,
    source: Vec<u8>,
    wire: Option<&[u8]>,
    format: Format,
    script: &mut R,
    screen: &mut Screen<W, N>,
    shelf: &mut S,
) -> Result<Status, DumpRunFault>
    requires { length source.items ≤ 2 ^ 28 }
    ensures ends { RunsOnDump (name_of wire.entry) format source.items
        (R.remaining script.old) (R.remaining script.new)
        (desk_at screen.old (S.known shelf.old))
        (desk_at screen.new (S.known shelf.new)) result }
    ensures memory { result ≡ Err (Dump OutOfMemory)
        → HasEdge (changes_before (name_of wire.entry) source.items)
        ⊎ MayBeShort (dump_parts (name_of wire.entry) source.items) }
    ensures reads { ReadsTo (R.remaining script.old) (R.remaining script.new) }
    ensures label { (S.known shelf.new).label ≡ (S.known shelf.old).label }
    ensures since { S.since shelf.old shelf.new }
{
    match Session::open_dump(alloc, source, wire, format) {
        Ok(session) => run_opened(session, script, screen, shelf),
        Err(why) => Err(DumpRunFault::Dump(why)),
    }
}

/// What `run_on_dump` does, on the parts that `irig_vcd` reads from a dump: its recording and the
/// text of its journal. Of a journal memory runs out only while its steps are read, or after its
/// head was found right.
pub fn run_on_parts<R: Read, W: Write, N: Witness, S: Shelf>(
    alloc: Global,
    recording: Recording,
    journal: Option<Vec<u8>>,
    format: Format,
    script: &mut R,
    screen: &mut Screen<W, N>,
    shelf: &mut S,
) -> Result<Status, DumpRunFault>
    requires { IfSome journal (λ text. length text.items ≤ 2 ^ 28) }
    ensures ends { (wire : Option (List ℕ)) (bytes : List ℕ)
        → dump_parts wire bytes ≡ Ok (recording, bytes_of journal)
        → RunsOnDump wire format bytes (R.remaining script.old) (R.remaining script.new)
        (desk_at screen.old (S.known shelf.old))
        (desk_at screen.new (S.known shelf.new)) result }
    ensures memory { result ≡ Err (Dump OutOfMemory)
        → MayBeShort (Ok (recording, bytes_of journal)) }
    ensures reads { ReadsTo (R.remaining script.old) (R.remaining script.new) }
    ensures label { (S.known shelf.new).label ≡ (S.known shelf.old).label }
    ensures since { S.since shelf.old shelf.new }
{
    match Session::open_parts(alloc, recording, journal, format) {
        Ok(session) => run_opened(session, script, screen, shelf),
        Err(fault) => Err(DumpRunFault::Dump(fault)),
    }
}

/// Obeys a script on the session of a dump.
fn run_opened<R: Read, W: Write, N: Witness, S: Shelf>(
    mut session: Session,
    script: &mut R,
    screen: &mut Screen<W, N>,
    shelf: &mut S,
) -> Result<Status, DumpRunFault>
    ensures ends { (wire : Option (List ℕ)) (bytes : List ℕ) (format : FormatView)
        → IsOpened wire bytes format session
        → RunsOnDump wire format bytes (R.remaining script.old) (R.remaining script.new)
        (desk_at screen.old (S.known shelf.old))
        (desk_at screen.new (S.known shelf.new)) result }
    ensures opened { (fault : VcdFault) → result ≢ Err (Dump fault) }
    ensures reads { ReadsTo (R.remaining script.old) (R.remaining script.new) }
    ensures label { (S.known shelf.new).label ≡ (S.known shelf.old).label }
    ensures since { S.since shelf.old shelf.new }
{
    as_run(engine::run(&mut session, script, screen, shelf))
}

/// The end of a run on a dump, by how the run of its script ended.
fn as_run(ended: Result<Status, RunFault>) -> Result<Status, DumpRunFault>
    ensures { MatchResult ended (λ status. result ≡ Ok status) (λ fault. result ≡ Err (Run fault)) }
{
    ended.map_err(DumpRunFault::Run)
}
