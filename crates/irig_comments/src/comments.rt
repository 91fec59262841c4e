//! The comment on the frames at one place.

ghost use Rattle.std.specs.Prelude.{◌≡◌, ◌++◌, OnOk};
ghost use Rattle.irig_comments.specs.Comments.{after_text, before_text, comment_text, whole_text};

use crate::shown::Shown;
use crate::sides::Sides;
use irig_difference::put_number;
use irig_print::put_verdict_text;
use std::alloc::AllocError;

/// Writes a comment, as in `# frame 2 at 2000000: broken 19 class, then none`.
pub(crate) fn put_comment(block: &mut Vec<u8>, sides: &Sides) -> Result<(), AllocError>
    ensures { OnOk result (block.new.items ≡ block.old.items ++ comment_text sides.now) }
{
    block.extend_from_slice(b"# ")?;
    put_before(block, &sides.before)?;
    block.extend_from_slice(b", then ")?;
    put_after(block, &sides.before, &sides.after)?;
    block.extend_from_slice(b"\n")
}

/// Writes the old frame, or `no frame`.
fn put_before(block: &mut Vec<u8>, before: &Option<Shown>) -> Result<(), AllocError>
    ensures { OnOk result (block.new.items ≡ block.old.items ++ before_text before.now) }
{
    match before {
        None => block.extend_from_slice(b"no frame"),
        Some(before) => put_whole(block, before),
    }
}

/// Writes the new frame, or `none`. After an old frame, which is at the same place, only the
/// report.
fn put_after(
    block: &mut Vec<u8>,
    before: &Option<Shown>,
    after: &Option<Shown>,
) -> Result<(), AllocError>
    ensures { OnOk result
        (block.new.items ≡ block.old.items ++ after_text before.now after.now) }
{
    match (before, after) {
        (_, None) => block.extend_from_slice(b"none"),
        (None, Some(after)) => put_whole(block, after),
        (Some(_), Some(after)) => put_verdict_text(block, &after.verdict),
    }
}

/// Writes a frame with its number, from 1, its place and its report, as in `frame 12 at 1000: ..`.
fn put_whole(block: &mut Vec<u8>, frame: &Shown) -> Result<(), AllocError>
    ensures { OnOk result (block.new.items ≡ block.old.items ++ whole_text frame.now) }
{
    block.extend_from_slice(b"frame")?;
    put_number(block, frame.number as u64)?;
    block.extend_from_slice(b" at")?;
    put_number(block, frame.rise)?;
    block.extend_from_slice(b": ")?;
    put_verdict_text(block, &frame.verdict)
}
