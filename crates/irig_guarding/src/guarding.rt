//! A proposed script, run repair by repair.

ghost use Rattle.std.specs.Prelude.{◌≡◌, [], IfOk, IfSome, None, OnOk, is_none, if◌then◌else◌};
ghost use Rattle.irig_guarding.specs.Guarded.{IsSafeAfter, Reaches};
ghost use Rattle.irig_guarding.specs.{Trials.IsTriedBefore, Printed.Shows, Undone.IsUndone};
ghost use Rattle.irig_guarding.specs.{Trial.Tries, SafeBy.IsSafeBy, Fillings.Fills, Known.AreKnown};
ghost use Rattle.irig_guarding.specs.{Agreeing.HasLedTo, Bars.AreBars, Bars.AreKept};
ghost use Rattle.irig_guarding.specs.Judged.{is_judged_by};
ghost use Rattle.irig_guarding.specs.Reading.{Lists, original_of};
ghost use Rattle.irig_guarding.specs.{Reasons.head_lines, Repair.texts};
ghost use Rattle.irig_script.specs.Obey.Run.{unlines};
ghost use Rattle.irig_script.specs.declared.obey.status.Status.TheVariants.{SomeRefused};
ghost use Rattle.irig_script.specs.{Obey.Machine.Machine};

use crate::bars::bar_at;
use crate::commands::is_lone_comment;
use crate::cutting::repair_end;
use crate::fillings::count_filled;
use crate::judging::is_judged;
use crate::kept::{KeptAt, add_kept};
use crate::known::{learn_markers, nothing_known};
use crate::line::Line;
use crate::mending::keep_if_safe;
use crate::printing::{put_head, put_repair};
use crate::product::Kept;
use crate::reason::Reason;
use crate::seen::{Frames, list_frames};
use irig_agreement::Fault;
use irig_edit::Session;
use irig_safety::Original;
use irig_script::Status;
use std::alloc::{AllocError, Global};

/// Runs lines on a session repair by repair, and prints each one. A repair that is kept is printed
/// as it is, and added to `kept`; one that is barred is dropped.
pub fn guard_once(
    alloc: Global,
    session: &mut Session,
    opened: &Original,
    lines: &[Line<'_>],
    bars: &[Option<Fault>],
    kept: &mut Vec<KeptAt>,
) -> Result<(Vec<u8>, Kept), AllocError>
    requires closed { session.old.floor ≡ None }
    requires opened { opened.now ≡ original_of opened.now.terms session.old.state }
    requires bars { AreBars opened.now.pulses session.old.state.format (texts lines.now) bars.now }
    requires kept { kept.old.items ≡ [] }
    ensures kept { (first : Machine) → IsUndone first session.old
        → OnOk result (AreKept first (texts lines.now) kept.new.items session.new) }
    ensures reaches { (first : Machine) → IsUndone first session.old
        → IfOk result (λ done. Reaches first done.0.items session.new) }
    ensures closed { OnOk result (session.new.floor ≡ None) }
    ensures safe { OnOk result (IsSafeAfter opened.now.terms session.old.state
        session.new.state) }
    ensures tried { (first : Machine) → IsUndone first session.old → IfOk result (λ done.
        IsTriedBefore opened.now.terms first (texts lines.now) [] done.0.items done.1.status
        session.new) }
    ensures filled { IfOk result (λ done. Fills opened.now session.new.state done.1.filled) }
    ensures judged { IfOk result (λ done. done.1.judged
        ≡ is_judged_by session.old.state session.new.state) }
{
    let mut out = Vec::new(alloc);
    put_head(&mut out, opened.frames())?;
    let mut known_markers = nothing_known(alloc, opened.frames().len())?;
    let mut last = list_frames(alloc, session)?;
    learn_markers(session, opened, last.seen.as_slice(), &mut known_markers);
    let status = guard_lines(
        alloc,
        session,
        opened,
        &mut known_markers,
        &mut last,
        lines,
        bars,
        kept,
        &mut out,
    )?;
    let filled = count_filled(session, opened, last.seen.as_slice());
    let judged = is_judged(opened.frames(), last.shown.as_slice());
    let kept = Kept {
        status,
        filled,
        judged,
    };
    Ok((out, kept))
}

/// Runs lines on a session repair by repair, and prints each one to `out` (`guard_repair`).
fn guard_lines(
    alloc: Global,
    session: &mut Session,
    opened: &Original,
    known_markers: &mut Vec<Option<usize>>,
    last: &mut Frames,
    lines: &[Line<'_>],
    bars: &[Option<Fault>],
    kept: &mut Vec<KeptAt>,
    out: &mut Vec<u8>,
) -> Result<Status, AllocError>
    requires closed { session.old.floor ≡ None }
    requires known { AreKnown opened.now session.old.state.pulses known_markers.old.items }
    requires lists { Lists session.old.state last.old }
    requires opened { opened.now ≡ original_of opened.now.terms session.old.state }
    requires bars { AreBars opened.now.pulses session.old.state.format (texts lines.now) bars.now }
    requires kept { kept.old.items ≡ [] }
    requires head { out.old.items ≡ unlines (head_lines opened.now.frames) }
    ensures stands { (first : Machine) → IsUndone first session.old
        → OnOk result (Reaches first out.new.items session.new) }
    ensures kept { (first : Machine) → IsUndone first session.old
        → OnOk result (AreKept first (texts lines.now) kept.new.items session.new) }
    ensures closed { OnOk result (session.new.floor ≡ None) }
    ensures lists { OnOk result (Lists session.new.state last.new) }
    ensures safe { OnOk result (IsSafeAfter opened.now.terms session.old.state
        session.new.state) }
    ensures tried { (first : Machine) → IsUndone first session.old → IfOk result (λ status.
        IsTriedBefore opened.now.terms first (texts lines.now) [] out.new.items status
        session.new) }
{
    let mut at = 0;
    let mut status = Status::AllAccepted;
    while at < lines.len() {
        let end = repair_end(lines, at);
        let dropped = guard_repair(
            alloc,
            session,
            opened,
            known_markers,
            last,
            &lines[at..end],
            bar_at(bars, at),
            out,
        )?;
        add_kept(kept, session, &lines[at..end], dropped, at)?;
        status = status_with(status, dropped);
        at = end;
    }
    Ok(status)
}

/// The status after one more repair.
fn status_with(status: Status, dropped: Option<Reason>) -> Status
    ensures { result ≡ if is_none dropped then status else SomeRefused }
{
    match dropped {
        None => status,
        Some(_) => Status::SomeRefused,
    }
}

/// Tries one repair (`try_repair`), and prints it to `out` (`put_repair`).
fn guard_repair(
    alloc: Global,
    session: &mut Session,
    opened: &Original,
    known_markers: &mut Vec<Option<usize>>,
    last: &mut Frames,
    repair: &[Line<'_>],
    barred: Option<Fault>,
    out: &mut Vec<u8>,
) -> Result<Option<Reason>, AllocError>
    requires closed { session.old.floor ≡ None }
    requires known { AreKnown opened.now session.old.state.pulses known_markers.old.items }
    requires lists { Lists session.old.state last.old }
    requires safe { IsSafeBy opened.now session.old.state }
    requires barred { IfSome barred (λ why. HasLedTo opened.now.pulses session.old.state.format
        (texts repair.now) why) }
    ensures safe { IsSafeBy opened.now session.new.state }
    ensures closed { session.new.floor ≡ None }
    ensures format { session.new.state.format ≡ session.old.state.format }
    ensures known { AreKnown opened.now session.new.state.pulses known_markers.new.items }
    ensures lists { Lists session.new.state last.new }
    ensures tried { IfOk result (λ dropped. Tries opened.now session.old (texts repair.now) dropped
        session.new) }
    ensures printed { IfOk result (λ dropped. Shows (texts repair.now) dropped out.old.items
        out.new.items) }
{
    let dropped = try_repair(alloc, session, opened, known_markers, last, repair, barred)?;
    put_repair(out, repair, dropped)?;
    Ok(dropped)
}

/// Tries one repair, unless it is barred. Returns why it was dropped; `None` if it was kept. If it
/// was kept, `known_markers` and `last` become those after it. If it was dropped, it is undone for
/// good: nothing has changed, but nothing may be left to redo.
fn try_repair(
    alloc: Global,
    session: &mut Session,
    opened: &Original,
    known_markers: &mut Vec<Option<usize>>,
    last: &mut Frames,
    repair: &[Line<'_>],
    barred: Option<Fault>,
) -> Result<Option<Reason>, AllocError>
    requires closed { session.old.floor ≡ None }
    requires known { AreKnown opened.now session.old.state.pulses known_markers.old.items }
    requires lists { Lists session.old.state last.old }
    requires safe { IsSafeBy opened.now session.old.state }
    requires barred { IfSome barred (λ why. HasLedTo opened.now.pulses session.old.state.format
        (texts repair.now) why) }
    ensures safe { IsSafeBy opened.now session.new.state }
    ensures closed { session.new.floor ≡ None }
    ensures format { session.new.state.format ≡ session.old.state.format }
    ensures known { AreKnown opened.now session.new.state.pulses known_markers.new.items }
    ensures lists { Lists session.new.state last.new }
    ensures tried { IfOk result (λ dropped. Tries opened.now session.old (texts repair.now) dropped
        session.new) }
{
    if is_lone_comment(repair) {
        return Ok(None);
    }
    if let Some(fault) = barred {
        return Ok(Some(Reason::Disagrees(fault)));
    }
    let mut tried = known_markers.clone()?;
    match keep_if_safe(
        alloc,
        session,
        opened,
        &mut tried,
        last.shown.as_slice(),
        repair,
    ) {
        Ok(frames) => {
            learn_markers(session, opened, frames.seen.as_slice(), &mut tried);
            *known_markers = tried;
            *last = frames;
            Ok(None)
        }
        Err(reason) => Ok(Some(reason)),
    }
}
