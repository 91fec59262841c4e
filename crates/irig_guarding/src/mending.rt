//! Repairs that are tried, and kept if they are safe.

ghost use Rattle.std.specs.Prelude.{◌≡◌, ◌∷◌, ◌++◌, [], ℕ, List, None, IfErr, IfOk, OnErr, OnOk};
ghost use Rattle.irig_edit.specs.{Session.Calls.Call, Session.Session.work_in};
ghost use Rattle.irig_guarding.specs.{Known.AreKnown, Reading.Lists};
ghost use Rattle.irig_guarding.specs.Repair.{Asks, IsGroup, IsRepair, Obeyed, ObeyedAll, texts};
ghost use Rattle.irig_guarding.specs.Undone.{IsUndone};
ghost use Rattle.irig_guarding.specs.{Drops.Drops, Drops.Holds, RepairLines.IsIdle, Stays.MayStay};
ghost use Rattle.irig_lines.specs.declared.command.Command.TheVariants as command;
ghost use Rattle.irig_lines.specs.declared.command.Command.{Command as SomeCommand};
ghost use Rattle.irig_script.specs.declared.print.reply.Reply.TheVariants.{Silent};
ghost use Rattle.irig_script.specs.{Obey.Machine.Machine, Obey.Obeying.Obeys, Obey.Replies.Calls};

use crate::commands::{begins, command_of, ends, is_edit};
use crate::judging::check;
use crate::line::Line;
use crate::obeying::{obey_edit, obey_inner_lines};
use crate::reason::Reason;
use crate::seen::Frames;
use irig_edit::Session;
use irig_lines::Command;
use irig_safety::{Original, Shown};
use std::alloc::Global;

/// Ends the open group if what it led to may stay (`check`), and returns the frames that read well
/// now.
fn end_safely(
    alloc: Global,
    session: &mut Session,
    opened: &Original,
    known_markers: &[Option<usize>],
    before: &[Shown],
) -> Result<Frames, Reason>
    requires { AreKnown opened.now session.old.state.pulses known_markers.now }
    ensures ended { OnOk result (Calls Call.End session.old Silent session.new) }
    ensures lists { IfOk result (λ frames. Lists session.old.state frames) }
    ensures stays { OnOk result (MayStay opened.now before.now session.old.state) }
    ensures holds { IfErr result (Holds opened.now before.now session.old) }
    ensures open { OnErr result (work_in session.new ≡ work_in session.old) }
{
    let frames = check(alloc, session, opened, known_markers, before)?;
    match session.end() {
        Ok(()) => Ok(frames),
        Err(why) => Err(Reason::Refused(why)),
    }
}

/// Obeys a group by its inner lines. If what they do is safe, keeps it, and returns the frames that
/// read well after it.
fn keep_group_if_safe(
    alloc: Global,
    session: &mut Session,
    opened: &Original,
    known_markers: &mut Vec<Option<usize>>,
    before: &[Shown],
    lines: &[Line<'_>],
) -> Result<Frames, Reason>
    requires closed { session.old.floor ≡ None }
    requires known { AreKnown opened.now session.old.state.pulses known_markers.old.items }
    ensures made { OnOk result (IsGroup session.old (texts lines.now) session.new) }
    ensures lists { IfOk result (λ frames. Lists session.new.state frames) }
    ensures stays { OnOk result (MayStay opened.now before.now session.new.state) }
    ensures drops { (first last : List ℕ) → Asks command.Begin first → Asks command.End last
        → IfErr result (Drops opened.now before.now session.old
        (first ∷ (texts lines.now ++ last ∷ []))) }
    ensures undone { OnErr result (IsUndone session.old session.new) }
    ensures closed { session.new.floor ≡ None }
    ensures format { session.new.state.format ≡ session.old.state.format }
    ensures known { OnOk result (AreKnown opened.now session.new.state.pulses
        known_markers.new.items) }
{
    if let Err(why) = session.begin() {
        return Err(Reason::Refused(why));
    }
    if let Err(reason) = obey_inner_lines(session, known_markers, lines) {
        let _ = session.abort();
        return Err(reason);
    }
    match end_safely(alloc, session, opened, known_markers.as_slice(), before) {
        Ok(frames) => Ok(frames),
        Err(reason) => {
            let _ = session.abort();
            Err(reason)
        }
    }
}

/// Obeys an edit. If it is safe, keeps it, and returns the frames that read well after it.
fn keep_edit_if_safe(
    alloc: Global,
    session: &mut Session,
    opened: &Original,
    known_markers: &mut Vec<Option<usize>>,
    before: &[Shown],
    command: Command,
) -> Result<Frames, Reason>
    requires one { IsRepair command }
    requires closed { session.old.floor ≡ None }
    requires known { AreKnown opened.now session.old.state.pulses known_markers.old.items }
    ensures made { OnOk result (Obeys command session.old Silent session.new) }
    ensures lists { IfOk result (λ frames. Lists session.new.state frames) }
    ensures stays { OnOk result (MayStay opened.now before.now session.new.state) }
    ensures drops { (line : List ℕ) → Asks command line
        → IfErr result (Drops opened.now before.now session.old (line ∷ [])) }
    ensures undone { OnErr result (IsUndone session.old session.new) }
    ensures closed { session.new.floor ≡ None }
    ensures format { session.new.state.format ≡ session.old.state.format }
    ensures known { OnOk result (AreKnown opened.now session.new.state.pulses
        known_markers.new.items) }
{
    if let Err(reason) = obey_edit(session, known_markers, command) {
        return Err(reason);
    }
    match check(alloc, session, opened, known_markers.as_slice(), before) {
        Ok(frames) => Ok(frames),
        Err(reason) => {
            undo_for_good(session);
            Err(reason)
        }
    }
}

/// Undoes an edit for good: it cannot be redone. An undo alone would leave it to be redone, and a
/// saved session would have it.
fn undo_for_good(session: &mut Session)
    ensures { (edit : SomeCommand) (before : Machine) → IsRepair edit → before.floor ≡ None
        → Obeys edit before Silent session.old → IsUndone before session.new }
{
    let _ = session.undo();
    let _ = session.begin();
    let _ = session.abort();
}

/// Obeys a line that is a repair of its own: an edit (`keep_edit_if_safe`).
fn keep_line_if_safe(
    alloc: Global,
    session: &mut Session,
    opened: &Original,
    known_markers: &mut Vec<Option<usize>>,
    before: &[Shown],
    line: &Line<'_>,
) -> Result<Frames, Reason>
    requires closed { session.old.floor ≡ None }
    requires known { AreKnown opened.now session.old.state.pulses known_markers.old.items }
    ensures made { OnOk result (Obeyed session.old line.now.bytes.now session.new) }
    ensures lists { IfOk result (λ frames. Lists session.new.state frames) }
    ensures stays { OnOk result (MayStay opened.now before.now session.new.state) }
    ensures drops { (Asks command.Nothing line.now.bytes.now → ⊥)
        → IfErr result (Drops opened.now before.now session.old (line.now.bytes.now ∷ [])) }
    ensures undone { OnErr result (IsUndone session.old session.new) }
    ensures closed { session.new.floor ≡ None }
    ensures format { session.new.state.format ≡ session.old.state.format }
    ensures known { OnOk result (AreKnown opened.now session.new.state.pulses
        known_markers.new.items) }
{
    match command_of(line) {
        Some(command) => {
            if is_edit(&command) {
                keep_edit_if_safe(alloc, session, opened, known_markers, before, command)
            } else {
                Err(Reason::NoRepair)
            }
        }
        None => Err(Reason::NoRepair),
    }
}

/// Obeys a repair: one line that is an edit (`keep_line_if_safe`), or two lines or more that are a
/// group, from `begin` to `end` (`keep_group_if_safe`).
pub fn keep_if_safe(
    alloc: Global,
    session: &mut Session,
    opened: &Original,
    known_markers: &mut Vec<Option<usize>>,
    before: &[Shown],
    repair: &[Line<'_>],
) -> Result<Frames, Reason>
    requires closed { session.old.floor ≡ None }
    requires known { AreKnown opened.now session.old.state.pulses known_markers.old.items }
    ensures made { OnOk result (ObeyedAll session.old (texts repair.now) session.new) }
    ensures lists { IfOk result (λ frames. Lists session.new.state frames) }
    ensures stays { OnOk result (MayStay opened.now before.now session.new.state) }
    ensures drops { (IsIdle (texts repair.now) → ⊥)
        → IfErr result (Drops opened.now before.now session.old (texts repair.now)) }
    ensures undone { OnErr result (IsUndone session.old session.new) }
    ensures closed { session.new.floor ≡ None }
    ensures format { session.new.state.format ≡ session.old.state.format }
    ensures known { OnOk result (AreKnown opened.now session.new.state.pulses
        known_markers.new.items) }
{
    match repair {
        [line] => keep_line_if_safe(alloc, session, opened, known_markers, before, line),
        [first, inner @ .., last] => {
            if !begins(first) {
                Err(Reason::NoRepair)
            } else if !ends(last) {
                Err(Reason::NoRepair)
            } else {
                keep_group_if_safe(alloc, session, opened, known_markers, before, inner)
            }
        }
        [] => Err(Reason::NoRepair),
    }
}
