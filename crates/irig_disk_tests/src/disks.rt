//! A text of three blocks, written over an old one, stopped and failed at each call.

ghost use Rattle.std.specs.Prelude.{◌≡◌};

use irig_disk::{Kept, PutFault, put_text};
use irig_folders::{Call, Memory, MemoryFault, bytes_of, file_at, is_kept};
use irig_text::{Bytes, ENOUGH, Text};
use std::alloc::{AllocError, Global};

/// A text that finds no memory for its part number `fails_at`, from 0; `given` are given so far.
#[derive(Drop)]
struct Failing<T: Text> {
    text: T,
    given: u64,
    fails_at: Option<u64>,
}

impl<T: Text> Text for Failing<T> {
    ghost rest = { λ f. T.rest f.text };

    fn fill(&mut self, block: &mut Vec<u8>, enough: usize) -> Result<bool, AllocError> {
        if self.fails_at == Some(self.given) {
            return Err(AllocError);
        }
        self.given = self.given.saturating_add(1);
        self.text.fill(block, enough)
    }
}

/// The answer of a write at the name `t`. The `None` given to `put_text` is for the usual mode.
fn write(
    alloc: Global,
    folder: &mut Memory,
    bytes: &[u8],
    fails_at: Option<u64>,
) -> Result<Kept, PutFault<MemoryFault>> {
    let mut text = Failing {
        text: Bytes::new(bytes),
        given: 0,
        fails_at,
    };
    let mut name = String::new(alloc);
    let mut block = Vec::new(alloc);
    put_text(
        folder,
        &(),
        &mut name,
        "t",
        "next",
        None,
        &mut text,
        &mut block,
    )
}

/// Two full blocks, and one byte.
fn new_text(alloc: Global) -> Result<Vec<u8>, AllocError> {
    let mut text = Vec::new(alloc);
    text.resize(2 * ENOUGH + 1, b'n')?;
    Ok(text)
}

fn old_folder(alloc: Global) -> Option<Memory> {
    let mut folder = Memory::new(alloc);
    match write(alloc, &mut folder, b"old", None) {
        Ok(_) => Some(folder),
        Err(_) => None,
    }
}

/// Whether the name `t` has these bytes, and no crash would lose them now (`is_kept`).
fn holds(alloc: Global, calls: &[Call], bytes: &[u8]) -> bool {
    let Some(file) = file_at(calls, b"t") else {
        return false;
    };
    match bytes_of(alloc, calls, file) {
        Ok(held) => held.as_slice() == bytes && is_kept(calls, file),
        Err(_) => false,
    }
}

fn is_whole_at_each_stop(alloc: Global, new: &[u8]) -> bool {
    match old_folder(alloc) {
        Some(mut folder) => is_written(alloc, &mut folder, new),
        None => false,
    }
}

fn is_written(alloc: Global, folder: &mut Memory, new: &[u8]) -> bool {
    let before = folder.calls().len();
    match write(alloc, folder, new, None) {
        Ok(kept) => {
            kept.count() == new.len() as u64
                && folder.calls().len() == before + 7
                && is_whole(alloc, folder.calls(), new)
        }
        Err(_) => false,
    }
}

fn is_whole(alloc: Global, calls: &[Call], new: &[u8]) -> bool {
    for (left_out, is_new) in STOPS.iter() {
        if !holds_without(alloc, calls, *left_out, if *is_new { new } else { b"old" }) {
            return false;
        }
    }
    true
}

/// The same without the newest `left_out` calls.
fn holds_without(alloc: Global, calls: &[Call], left_out: usize, bytes: &[u8]) -> bool {
    match calls.get(left_out..) {
        Some(calls) => holds(alloc, calls, bytes),
        None => false,
    }
}

/// How many of the last calls are left out, and whether the new text is there then. The calls are:
/// make, append three times, sync the file, rename, sync the folder.
static STOPS: [(usize, bool); 8] = [
    // After all seven, and after the rename: the new text.
    (0, true),
    (1, true),
    // Before the rename, back to before the first call: the old text.
    (2, false),
    (3, false),
    (4, false),
    (5, false),
    (6, false),
    (7, false),
];

/// From which call on calls fail, up to which one, which is not included, both from 0 and in the
/// order of `STOPS`; for which part the text finds no memory; the answer; whether the new text is
/// there then, and whether the new file remains. After a fault its removal is the next call. No
/// call has number 7.
type Fault = (u64, u64, Option<u64>, &'static str, bool, bool);

/// No row has `NamesTaken`: no name of a new file is in use.
static FAULTS: [Fault; 15] = [
    // One call fails, and the removal of the new file succeeds; if make fails, there is none.
    (0, 1, None, "Failed", false, false),
    (1, 2, None, "Failed", false, false),
    (2, 3, None, "Failed", false, false),
    (3, 4, None, "Failed", false, false),
    (4, 5, None, "Failed", false, false),
    (5, 6, None, "Failed", false, false),
    // The new text has its name already.
    (6, 7, None, "NotKept", true, false),
    // A call fails, and so does the next one, the removal.
    (1, 3, None, "LeftBehind", false, true),
    (2, 4, None, "LeftBehind", false, true),
    (3, 5, None, "LeftBehind", false, true),
    (4, 6, None, "LeftBehind", false, true),
    (5, 7, None, "LeftBehind", false, true),
    // Part 1 finds no memory after make and one append, so call 2 is the removal.
    (7, 8, Some(1), "Memory", false, false),
    (2, 3, Some(1), "Remains", false, true),
    (7, 8, None, "Kept", true, false),
];

fn name_of(answer: &Result<Kept, PutFault<MemoryFault>>) -> &'static str {
    match answer {
        Ok(_) => "Kept",
        Err(PutFault::Memory) => "Memory",
        Err(PutFault::NamesTaken) => "NamesTaken",
        Err(PutFault::Failed(_)) => "Failed",
        Err(PutFault::LeftBehind(_, _)) => "LeftBehind",
        Err(PutFault::Remains(_)) => "Remains",
        Err(PutFault::NotKept(_)) => "NotKept",
    }
}

fn are_left(alloc: Global, new: &[u8]) -> bool {
    for row in FAULTS.iter() {
        if !is_left(alloc, new, *row) {
            return false;
        }
    }
    true
}

fn is_left(alloc: Global, new: &[u8], row: Fault) -> bool {
    match old_folder(alloc) {
        Some(mut folder) => leaves(alloc, &mut folder, new, row),
        None => false,
    }
}

fn leaves(alloc: Global, folder: &mut Memory, new: &[u8], row: Fault) -> bool {
    let (from, to, fails_at, answer, is_new, remains) = row;
    folder.fail(from, to);
    let answered = write(alloc, folder, new, fails_at);
    name_of(&answered) == answer
        && holds(alloc, folder.calls(), if is_new { new } else { b"old" })
        && file_at(folder.calls(), b"next0").is_some() == remains
}

#[test]
fn a_text_of_three_blocks_is_whole_at_each_stop(rt: HostRuntime) {
    let Ok(new) = new_text(rt.alloc()) else {
        assert!(rt; false);
        return;
    };
    assert!(rt; is_whole_at_each_stop(rt.alloc(), &new));
}

// The rows of `FAULTS` follow from what irig_disk says of each `PutFault`.
#[test]
fn a_text_of_three_blocks_fails_at_each_call(rt: HostRuntime) {
    let Ok(new) = new_text(rt.alloc()) else {
        assert!(rt; false);
        return;
    };
    assert!(rt; are_left(rt.alloc(), &new));
}
