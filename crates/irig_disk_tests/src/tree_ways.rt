//! What is not written, what is written in place, and how many links are followed.

use crate::tree_folders::{files_of, folders, row_of, write};
use crate::tree_stops::is_written;
use irig_files::Written;
use irig_folders::{MemoryFault, Plain, Tree};
use std::alloc::Global;

/// Whether no call changes anything. `blind` is the one that fails, of those that change nothing.
fn is_refused(alloc: Global, mut tree: Tree, path: &str, blind: Option<Plain>) -> bool {
    let before = tree.memory.calls().len();
    tree.blind = blind;
    let mut files = files_of(alloc, tree);
    write(alloc, &mut files, path).is_err() && files.system().memory.calls().len() == before
}

fn is_refused_once(alloc: Global, path: &str, blind: Option<Plain>) -> bool {
    match folders(alloc) {
        Ok(tree) => is_refused(alloc, tree, path, blind),
        Err(_) => false,
    }
}

/// Paths to which nothing is written, with the call that fails, if one does.
static REFUSED: [(&str, Option<Plain>); 11] = [
    // Links in a circle; a file that must not be written; no such folder; a folder, no name in one.
    ("loop", None),
    ("locked", None),
    ("nowhere/t", None),
    ("a/..", None),
    // Without the fault `chain` is written: `tree_stops` tests it.
    ("chain", Some(Plain::Describe)),
    ("chain", Some(Plain::Output)),
    ("chain", Some(Plain::ReadLink)),
    ("chain", Some(Plain::OpenFolder)),
    ("chain", Some(Plain::OpenSeen)),
    ("chain", Some(Plain::Seen)),
    // A pipe is opened itself, and no new file is made.
    ("pipe", Some(Plain::OpenOther)),
];

#[test]
fn a_write_that_is_refused_changes_nothing(rt: HostRuntime) {
    for (path, blind) in REFUSED.iter() {
        assert!(rt; is_refused_once(rt.alloc(), path, *blind));
    }
}

/// All three bytes are written, without a call that makes or changes a file.
fn is_in_place(alloc: Global, path: &str) -> bool {
    let Ok(tree) = folders(alloc) else {
        return false;
    };
    let before = tree.memory.calls().len();
    let mut files = files_of(alloc, tree);
    let written = write(alloc, &mut files, path);
    files.system().memory.calls().len() == before
        && match written {
            Ok(Written::InPlace(all)) => all.count() == 3,
            _ => false,
        }
}

#[test]
fn a_pipe_and_the_standard_output_are_written_in_place(rt: HostRuntime) {
    for path in ["pipe", "piped", "answers", "a/answered"].iter() {
        assert!(rt; is_in_place(rt.alloc(), path));
    }
}

/// The link `0` leads to `1`, and so on, and the last one to `a/t`; `count` is at least 1.
fn add_links(alloc: Global, tree: &mut Tree, count: u32) -> Result<(), MemoryFault> {
    for number in 0..count {
        let place = format!(in alloc; "/{number}")?;
        let text = if number + 1 == count {
            String::from_str(alloc, "a/t")?
        } else {
            format!(in alloc; "{}", number + 1)?
        };
        tree.add_other(place.as_str(), Some(text))?;
    }
    Ok(())
}

/// Whether the write to `0` is done just if `is_done` says so, and else changes nothing.
fn links_are_followed(alloc: Global, count: u32, is_done: bool) -> bool {
    let Ok(mut tree) = folders(alloc) else {
        return false;
    };
    let Ok(()) = add_links(alloc, &mut tree, count) else {
        return false;
    };
    if is_done {
        // Such a write makes six calls, 0 to 5, so none fails.
        is_written(alloc, tree, row_of("0", "a/t", true), 6)
    } else {
        is_refused(alloc, tree, "0", None)
    }
}

// The limit is in `docs/FORMATS.md`, "How a file is written".
#[test]
fn forty_links_are_followed(rt: HostRuntime) {
    assert!(rt; links_are_followed(rt.alloc(), 40, true));
    assert!(rt; links_are_followed(rt.alloc(), 41, false));
}
