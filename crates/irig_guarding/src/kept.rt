//! The repairs that were kept in a run.

ghost use Rattle.std.specs.Prelude.{◌≡◌, ◌⊎◌, ℕ, [], None, OnOk, Some, slice_get};
ghost use Rattle.irig_guarding.specs.declared.kept.KeptAt.{KeptAt as SomeKeptAt};
ghost use Rattle.irig_guarding.specs.{Repair.texts, RepairLines.IsIdle};

use crate::commands::is_lone_comment;
use crate::line::Line;
use crate::reason::Reason;
use irig_edit::Session;
use std::alloc::AllocError;

/// A repair that was kept: the line that it begins at, from 0, and when what it changed last rises,
/// in microseconds.
#[derive(Clone, Copy)]
pub struct KeptAt {
    pub line: usize,
    pub moment: u64,
}

/// Adds lines that were tried, and begin at a line, if they are a repair that was kept.
pub fn add_kept(
    kept: &mut Vec<KeptAt>,
    session: &Session,
    lines: &[Line<'_>],
    dropped: Option<Reason>,
    at: usize,
) -> Result<(), AllocError>
    ensures kept { OnOk result ((i : ℕ) (k : SomeKeptAt) → slice_get kept.new.items i ≡ Some k
        → (slice_get kept.old.items i ≡ Some k) ⊎ ((dropped ≡ None) × (k.line ≡ at))) }
    ensures none { OnOk result (kept.new.items ≡ [] → (kept.old.items ≡ [])
        × (dropped ≡ None → IsIdle (texts lines.now))) }
{
    if dropped.is_some() || is_lone_comment(lines) {
        return Ok(());
    }
    kept.push(kept_at(session, at))?;
    Ok(())
}

/// The place of a repair that was just kept: the cursor is at what it changed last.
fn kept_at(session: &Session, line: usize) -> KeptAt
    ensures { result.line ≡ line }
{
    let cursor = session.cursor();
    let moment = if cursor > 0 && cursor <= session.len() {
        session.pulse(cursor).rise
    } else {
        0
    };
    KeptAt { line, moment }
}
