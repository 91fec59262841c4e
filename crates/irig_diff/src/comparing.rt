//! The tracks of two dumps are compared, as the words of a command line ask.

ghost use Rattle.std.specs.Prelude.{◌≡◌, map, option_map, string_bytes};
ghost use Rattle.irig_diff.specs.Patches.{PrintsIfRoom, PrintsText, text_between};
ghost use Rattle.irig_comments.specs.{Framed.framed, Commented.commented_text};
ghost use Rattle.irig_diff.specs.{Ending.EndsBy, Ending.Obeys, Unread.FailsForItself};
ghost use Rattle.irig_difference.specs.PatchText.{patch_text};
ghost use Rattle.irig_vcd.specs.Answer.{name_of};

use crate::chosen::Settings;
use crate::command_line::settings;
use crate::ending::Ending;
use crate::printing::print;
use irig_codes::Format;
use irig_comments::{CommentedPatch, Framed};
use irig_difference::{PatchText, Recording};
use irig_files::{Disk, DumpFileFault, TrackFault, read_track};
use irig_text::new_block;
use std::alloc::Global;
use std::io::Write;

/// Compares the dumps that the words name; the first word is the program's name.
pub fn compare_words<'a, D: Disk, W: Write>(
    alloc: Global,
    words: &'a [String],
    disk: &D,
    out: &mut W,
) -> Ending<'a>
    ensures { EndsBy (map string_bytes words.entry.now) (D.held disk.now) (D.unread disk.now)
        (W.contents out.old) (W.contents out.new) result }
{
    match settings(alloc, words) {
        Ok(chosen) => compare_files(alloc, &chosen, disk, out),
        Err(fault) => Ending::Usage(fault),
    }
}

/// Takes the memory of the block before the tracks are read.
fn compare_files<'a, D: Disk, W: Write>(
    alloc: Global,
    chosen: &Settings<'a>,
    disk: &D,
    out: &mut W,
) -> Ending<'a>
    ensures { Obeys (D.held disk.now) (D.unread disk.now) chosen.now (W.contents out.old)
        (W.contents out.new) result }
{
    let Ok(mut block) = new_block(alloc) else {
        return Ending::Unread(chosen.before, TrackFault::File(DumpFileFault::OutOfMemory));
    };
    compare_with_block(alloc, chosen, disk, out, &mut block)
}

/// Reads both tracks in the same window, the one before first, and prints their patch.
fn compare_with_block<'a, D: Disk, W: Write>(
    alloc: Global,
    chosen: &Settings<'a>,
    disk: &D,
    out: &mut W,
    block: &mut Vec<u8>,
) -> Ending<'a>
    ensures obeyed { Obeys (D.held disk.now) (D.unread disk.now) chosen.now (W.contents out.old)
        (W.contents out.new) result }
    ensures unread { FailsForItself (D.held disk.now) (D.unread disk.now) chosen.now result }
{
    let before = match read_track(alloc, disk, chosen.before, chosen.wire, chosen.window) {
        Ok(before) => before,
        Err(fault) => return Ending::Unread(chosen.before, fault),
    };
    let after = match read_track(alloc, disk, chosen.after, chosen.wire_after, chosen.window) {
        Ok(after) => after,
        Err(fault) => return Ending::Unread(chosen.after, fault),
    };
    compare_recordings(alloc, chosen, before, after, out, block)
}

/// Prints the patch between two recordings, with comments if frames are asked for.
fn compare_recordings<'a, W: Write>(
    alloc: Global,
    chosen: &Settings<'a>,
    before: Recording,
    after: Recording,
    out: &mut W,
    block: &mut Vec<u8>,
) -> Ending<'a>
    ensures { PrintsIfRoom chosen.now (text_between chosen.now.frames before after) before after
        (W.contents out.old) (W.contents out.new) result }
{
    match chosen.frames {
        None => print_patch(&before, &after, out, block),
        Some(format) => compare_with_frames(alloc, chosen, format, before, after, out, block),
    }
}

/// Finds the frames of both before anything is printed.
fn compare_with_frames<'a, W: Write>(
    alloc: Global,
    chosen: &Settings<'a>,
    format: Format,
    before: Recording,
    after: Recording,
    out: &mut W,
    block: &mut Vec<u8>,
) -> Ending<'a>
    ensures { PrintsIfRoom chosen.now (commented_text (framed format before) (framed format after))
        before after (W.contents out.old) (W.contents out.new) result }
{
    let Ok(before) = Framed::new(alloc, before, format) else {
        return Ending::Unread(chosen.before, TrackFault::File(DumpFileFault::OutOfMemory));
    };
    let Ok(after) = Framed::new(alloc, after, format) else {
        return Ending::Unread(chosen.after, TrackFault::File(DumpFileFault::OutOfMemory));
    };
    print_commented_patch(&before, &after, out, block)
}

/// Prints the patch with comments between two recordings, whose frames have one format.
fn print_commented_patch<'a, W: Write>(
    before: &Framed,
    after: &Framed,
    out: &mut W,
    block: &mut Vec<u8>,
) -> Ending<'a>
    requires { before.now.format ≡ after.now.format }
    ensures { PrintsText (commented_text before.now after.now) before.now.recording
        after.now.recording (W.contents out.old) (W.contents out.new) result }
{
    match print(out, &mut CommentedPatch::between(before, after), block) {
        Ok(same) => Ending::Compared(same),
        Err(why) => Ending::Unprinted(why),
    }
}

/// Prints the patch without comments between two recordings.
fn print_patch<'a, W: Write>(
    before: &Recording,
    after: &Recording,
    out: &mut W,
    block: &mut Vec<u8>,
) -> Ending<'a>
    ensures { PrintsText (patch_text before.now after.now) before.now after.now
        (W.contents out.old) (W.contents out.new) result }
{
    match print(out, &mut PatchText::between(before, after), block) {
        Ok(same) => Ending::Compared(same),
        Err(why) => Ending::Unprinted(why),
    }
}
