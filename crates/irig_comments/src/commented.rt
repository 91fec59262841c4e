//! The patch between two recordings with comments on frames, as a text in parts.

ghost use Rattle.std.specs.Prelude.{◌≡◌, ◌↔◌, ◌≤◌, ◌<◌, ◌++◌, [], true, false, IfOk, OnOk};
ghost use Rattle.std.specs.Prelude.{vec_len};
ghost use Rattle.irig_difference.specs.PatchText.{length_note, patch_text};
ghost use Rattle.irig_comments.specs.Parts.{AreComments, comments, lines};
ghost use Rattle.irig_comments.specs.Commented.{commented_parts, commented_text, last_text};
ghost use Rattle.irig_comments.specs.{Parts.notes, Sides.changes};

use crate::framed::Framed;
use crate::lines_left::LinesLeft;
use irig_difference::put_note;
use irig_text::Text;
use std::alloc::AllocError;
use std::marker::Model;

/// A comment comes before the line of the first stretch that ends at or after the place of its
/// frame, or after all of these. The last line has the numbers of frames.
#[derive(Drop)]
pub struct CommentedPatch<'a> {
    // Whether the note was written, if there is one.
    is_noted: bool,
    // The lengths of the two recordings, in microseconds.
    before: u64,
    after: u64,
    left: LinesLeft<'a>,
}

impl<'a> Model for CommentedPatch<'a> {
    ghost use Rattle.std.specs.Prelude.{ℕ, List};
    ghost use Rattle.irig_comments.specs.Left.{text_left};

    ghost Value = { List ℕ };

    ghost view = { λ p. text_left p.is_noted p.before p.after p.left };
}

impl<'a> CommentedPatch<'a> {
    /// The patch that makes `after` of `before`, with comments.
    pub fn between(before: &'a Framed, after: &'a Framed) -> CommentedPatch<'a>
        requires { before.now.format ≡ after.now.format }
        ensures text { result ≡ commented_text before.now after.now }
        // Without the comments it is the patch, with its note.
        ensures plain { lines (commented_parts before.now after.now)
            ≡ patch_text before.now.recording after.now.recording }
        // The comments are those on the frames that differ, and the last line; the note is none of
        // these.
        ensures frames { comments (commented_parts before.now after.now)
            ≡ comments (notes (changes before.now after.now)) ++ last_text before.now after.now }
        ensures comments { AreComments (commented_parts before.now after.now) }
        // Nothing is written of two recordings that are the same, and of no others.
        ensures same { result ≡ [] ↔ before.now.recording ≡ after.now.recording }
    {
        // The proof needs what the calls' contracts say of the frames.
        let _counts = (before.len(), after.len());
        CommentedPatch {
            is_noted: false,
            before: before.recording().length(),
            after: after.recording().length(),
            left: LinesLeft::between(before, after),
        }
    }
}

impl Text for CommentedPatch<'_> {
    ghost rest = { λ p. p };

    // The note comes first. True only if no line is left; false if the block is full.
    fn fill(&mut self, block: &mut Vec<u8>, enough: usize) -> Result<bool, AllocError> {
        if !self.is_noted {
            put_note(block, self.before, self.after)?;
            self.is_noted = true;
        }
        put_lines(block, &mut self.left, enough)
    }
}

/// Writes lines to a block until it has `enough` bytes. True only if no line is left.
fn put_lines(
    block: &mut Vec<u8>,
    left: &mut LinesLeft<'_>,
    enough: usize,
) -> Result<bool, AllocError>
    ensures bytes { OnOk result (block.new.items ++ left.new ≡ block.old.items ++ left.old) }
    ensures end { IfOk result (λ ended. ended ≡ true → left.new ≡ []) }
    ensures full { IfOk result (λ ended. ended ≡ false → enough ≤ vec_len block.new) }
{
    while block.len() < enough {
        if left.put_next(block)? {
            return Ok(true);
        }
    }
    Ok(false)
}
