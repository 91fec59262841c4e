//! The lines of a patch with comments that are still to come.

ghost use Rattle.std.specs.Prelude.{◌≡◌, ◌<◌, ◌++◌, [], true, false, IfOk, OnOk};
ghost use Rattle.std.specs.Prelude.{vec_len};
ghost use Rattle.irig_comments.specs.Left.{first_change, last_counts, last_if, last_left};
ghost use Rattle.irig_comments.specs.Left.{lines_text};
ghost use Rattle.irig_comments.specs.Sides.{changes};
ghost use Rattle.irig_difference.specs.Stretches.{stretches_between};

use crate::changes::Changes;
use crate::comments::put_comment;
use crate::counts::{Counts, put_counts};
use crate::framed::Framed;
use crate::sides::Sides;
use irig_difference::{Differences, Pulse, put_line};
use std::alloc::AllocError;
use std::marker::Model;

/// The lines that are still to come: comments on changes, lines of stretches, and the last line.
#[derive(Drop)]
pub struct LinesLeft<'a> {
    // The next change, and those after it.
    change: Option<Sides>,
    changes: Changes<'a>,
    // The next stretch, and those after it.
    stretch: Option<Pulse>,
    stretches: Differences<'a>,
    // The last line, unless it was written, or the recordings are the same.
    last: Option<Counts>,
}

impl<'a> Model for LinesLeft<'a> {
    ghost use Rattle.std.specs.Prelude.{ℕ, List};
    ghost use Rattle.irig_comments.specs.Left.{lines_text, with_change, with_stretch};

    ghost Value = { List ℕ };

    ghost view = { λ l. lines_text (with_change l.change l.changes)
        (with_stretch l.stretch l.stretches) l.last };
}

impl<'a> LinesLeft<'a> {
    /// All lines of the patch that makes `after` of `before`, but not the note.
    pub fn between(before: &'a Framed, after: &'a Framed) -> LinesLeft<'a>
        ensures { result ≡ lines_text (changes before.now after.now)
            (stretches_between before.now.recording after.now.recording)
            (last_counts before.now after.now) }
    {
        let mut changes = Changes::between(before, after);
        let mut stretches = Differences::between(before.recording(), after.recording());
        let stretch = stretches.next();
        LinesLeft {
            change: changes.next(),
            changes,
            stretch,
            stretches,
            last: last_numbers(before, after, &stretch),
        }
    }

    /// Writes the next line. True if none is left then: after the last line, or if it was written
    /// before.
    pub fn put_next(&mut self, block: &mut Vec<u8>) -> Result<bool, AllocError>
        ensures bytes { OnOk result (block.new.items ++ self.new ≡ block.old.items ++ self.old) }
        ensures end { IfOk result (λ ended. ended ≡ true → self.new ≡ []) }
        ensures more { IfOk result (λ ended. ended ≡ false
            → vec_len block.old < vec_len block.new) }
    {
        if let Some(change) = change_if_first(&self.change, &self.stretch) {
            put_comment(block, &change)?;
            self.change = self.changes.next();
            return Ok(false);
        }
        let Some(stretch) = self.stretch else {
            return put_last(block, &mut self.last);
        };
        put_line(block, b"invert", stretch.rise, stretch.fall)?;
        self.stretch = self.stretches.next();
        Ok(false)
    }
}

/// The next change, if its comment comes before the line of the next stretch.
fn change_if_first(change: &Option<Sides>, stretch: &Option<Pulse>) -> Option<Sides>
    ensures { result ≡ first_change change.now stretch.now }
{
    match (change, stretch) {
        (None, _) => None,
        (Some(change), None) => Some(*change),
        (Some(change), Some(stretch)) => {
            if change.place() <= stretch.fall {
                Some(*change)
            } else {
                None
            }
        }
    }
}

/// The numbers of the last line; none if nothing is written, since the recordings are the same.
/// `stretch` is the first one.
fn last_numbers(before: &Framed, after: &Framed, stretch: &Option<Pulse>) -> Option<Counts>
    ensures { result ≡ last_if before.now after.now stretch.now }
{
    if before.recording().length() == after.recording().length() && stretch.is_none() {
        None
    } else {
        Some(Counts::between(before, after))
    }
}

/// Writes the last line, if there is one that was not written. No line is left then.
fn put_last(block: &mut Vec<u8>, last: &mut Option<Counts>) -> Result<bool, AllocError>
    ensures bytes { OnOk result
        (block.new.items ++ last_left last.new ≡ block.old.items ++ last_left last.old) }
    ensures end { IfOk result (λ ended. ended ≡ true) }
    ensures none { OnOk result (last.new ≡ None) }
{
    if let Some(counts) = last {
        put_counts(block, counts)?;
        *last = None;
    }
    Ok(true)
}
