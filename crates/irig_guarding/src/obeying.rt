//! The commands of a repair, obeyed one by one.

ghost use Rattle.std.specs.Prelude.{◌≡◌, ◌≢◌, ℕ, List, IfErr, OnErr, OnOk};
ghost use Rattle.irig_edit.specs.Session.Session.{work_in};
ghost use Rattle.irig_guarding.specs.Known.{AreKnown};
ghost use Rattle.irig_guarding.specs.Repair.{Asks, IsBeyond, IsRepair, Obeyed, ObeyedAll, texts};
ghost use Rattle.irig_guarding.specs.Drops.{StopsAt, StopsIn};
ghost use Rattle.irig_safety.specs.Original.{OriginalView};
ghost use Rattle.irig_script.specs.Obey.Obeying.{Obeys};
ghost use Rattle.irig_script.specs.declared.print.reply.Reply.TheVariants.{Silent};

use crate::commands::{command_of, is_edit};
use crate::known::follow_edit;
use crate::line::Line;
use crate::place::place_of;
use crate::reason::Reason;
use irig_edit::Session;
use irig_lines::Command;
use irig_script::{Reply, obey_command};

/// Obeys an edit, and lets `known_markers` follow the pulses that it changes (`follow_edit`).
pub fn obey_edit(
    session: &mut Session,
    known_markers: &mut Vec<Option<usize>>,
    command: Command,
) -> Result<(), Reason>
    requires { IsRepair command }
    ensures made { OnOk result (Obeys command session.old Silent session.new) }
    ensures stops { (line : List ℕ) → Asks command line
        → IfErr result (StopsAt session.old line) }
    ensures unmade { OnErr result (work_in session.new ≡ work_in session.old) }
    ensures known { (o : OriginalView) → AreKnown o session.old.state.pulses known_markers.old.items
        → OnOk result (AreKnown o session.new.state.pulses known_markers.new.items) }
{
    let place = place_of(session, &command);
    let before = session.len();
    match obey_command(command, session) {
        Reply::Silent => {
            follow_edit(known_markers, place, before, session.len());
            Ok(())
        }
        Reply::Refused(why) => Err(Reason::Refused(why)),
        _ => unreachable!(),
    }
}

/// Obeys an inner line of a group: an edit, which can be `Refused`, or a comment or blank line,
/// which does nothing.
fn obey_inner_line(
    session: &mut Session,
    known_markers: &mut Vec<Option<usize>>,
    line: &Line<'_>,
) -> Result<(), Reason>
    ensures made { OnOk result (Obeyed session.old line.now.bytes.now session.new) }
    ensures stops { IfErr result (StopsAt session.old line.now.bytes.now) }
    ensures beyond { IsBeyond session.old session.new }
    ensures known { (o : OriginalView) → AreKnown o session.old.state.pulses known_markers.old.items
        → OnOk result (AreKnown o session.new.state.pulses known_markers.new.items) }
{
    match command_of(line) {
        Some(Command::Nothing) => Ok(()),
        Some(command) => obey_inner_command(session, known_markers, command),
        None => Err(Reason::NoRepair),
    }
}

/// Obeys the command of an inner line of a group if it is an edit (`is_edit`), which can be
/// `Refused`.
fn obey_inner_command(
    session: &mut Session,
    known_markers: &mut Vec<Option<usize>>,
    command: Command,
) -> Result<(), Reason>
    requires { command ≢ Command.Nothing }
    ensures made { (line : List ℕ) → Asks command line
        → OnOk result (Obeyed session.old line session.new) }
    ensures stops { (line : List ℕ) → Asks command line
        → IfErr result (StopsAt session.old line) }
    ensures beyond { IsBeyond session.old session.new }
    ensures known { (o : OriginalView) → AreKnown o session.old.state.pulses known_markers.old.items
        → OnOk result (AreKnown o session.new.state.pulses known_markers.new.items) }
{
    if is_edit(&command) {
        obey_edit(session, known_markers, command)
    } else {
        Err(Reason::NoRepair)
    }
}

/// Obeys the inner lines of a group, up to the first one that fails (`obey_inner_line`).
pub fn obey_inner_lines(
    session: &mut Session,
    known_markers: &mut Vec<Option<usize>>,
    lines: &[Line<'_>],
) -> Result<(), Reason>
    ensures made { OnOk result (ObeyedAll session.old (texts lines.now) session.new) }
    ensures stops { IfErr result (StopsIn session.old (texts lines.now)) }
    ensures beyond { IsBeyond session.old session.new }
    ensures known { (o : OriginalView) → AreKnown o session.old.state.pulses known_markers.old.items
        → OnOk result (AreKnown o session.new.state.pulses known_markers.new.items) }
{
    for line in lines {
        if let Err(reason) = obey_inner_line(session, known_markers, line) {
            return Err(reason);
        }
    }
    Ok(())
}
