//! Writes through links and in several folders, failed at each call, and stopped after each.

use crate::tree_folders::{
    LINKS, MODE, OLD, OLD_MODE, Row, WRITES, files_of, folders, row_of, write,
};
use irig_folders::{Call, Tree, USUAL, bytes_of, file_at, is_kept, mode_of};
use std::alloc::Global;

/// Whether a file, by its number, has one of the texts with its mode, and each crash leaves it so.
fn is_whole(alloc: Global, calls: &[Call], file: usize, row: Row) -> bool {
    match bytes_of(alloc, calls, file) {
        Ok(held) => {
            let is_new = held.as_slice() == b"new".as_slice();
            (is_new || held.as_slice() == b"old".as_slice())
                && mode_of(calls, file) == mode_with(row, is_new)
                && is_kept(calls, file)
        }
        Err(_) => false,
    }
}

/// The new text has the mode of the old file for who may read, write and run it.
fn mode_with(row: Row, is_new: bool) -> u32 {
    match (row.is_there, is_new) {
        (true, false) => OLD_MODE,
        (true, true) => MODE,
        (false, _) => USUAL,
    }
}

/// Whether the place of the row has a whole text after each crash: of any file to which its name
/// led since it was last kept. It may have no file only if it had none before the write.
fn leaves_whole(alloc: Global, calls: &[Call], row: Row) -> bool {
    // Back from the newest call to the last one that kept the name.
    for gone in 0..=calls.len() {
        let Some(older) = calls.get(gone..) else {
            return false;
        };
        match file_at(older, row.place.as_bytes()) {
            Some(file) if !is_whole(alloc, calls, file, row) => return false,
            None if row.is_there => return false,
            _ => {}
        }
        if keeps_name(older, row.place) {
            return true;
        }
    }
    false
}

/// A place begins with the front of its folder, and with no other: these are `/`, `a/` and `b/`.
fn keeps_name(calls: &[Call], place: &str) -> bool {
    match calls.first() {
        Some(Call::SyncNames(front)) => place.as_bytes().starts_with(front),
        _ => false,
    }
}

/// As before the newest `last` calls. The name of the row is left out, as the write changes it.
fn others_stay(calls: &[Call], last: usize, row: Row) -> bool {
    let Some(before) = calls.get(last..) else {
        return false;
    };
    for place in OLD.iter() {
        if *place != row.place && !is_same(calls, before, place) {
            return false;
        }
    }
    for (place, _) in LINKS.iter() {
        if !is_same(calls, before, place) {
            return false;
        }
    }
    is_same(calls, before, "/pipe") && is_same(calls, before, "/answers")
}

fn is_same(calls: &[Call], before: &[Call], place: &str) -> bool {
    let file = file_at(calls, place.as_bytes());
    file.is_some() && file == file_at(before, place.as_bytes())
}

/// At each stop in the newest `last` calls, which are the write; `saturating_sub` saves a proof.
fn is_whole_at_each_stop(alloc: Global, calls: &[Call], last: usize, row: Row) -> bool {
    for gone in 0..=last {
        match calls.get(gone..) {
            Some(older)
                if leaves_whole(alloc, older, row)
                    && others_stay(older, last.saturating_sub(gone), row) => {}
            _ => return false,
        }
    }
    true
}

fn holds(alloc: Global, calls: &[Call], place: &str, text: &[u8]) -> bool {
    let Some(file) = file_at(calls, place.as_bytes()) else {
        return false;
    };
    match bytes_of(alloc, calls, file) {
        Ok(held) => held.as_slice() == text,
        Err(_) => false,
    }
}

/// Make, append, take the mode of the file that is there, sync the file, rename, sync the folder.
fn calls_of(row: Row) -> u64 {
    if row.is_there { 6 } else { 5 }
}

/// Call number `fails` of the write fails, from 0, so the write has to return an error. If it is
/// the count of the calls, none fails, and the new text has to be there at the end.
pub fn is_written(alloc: Global, mut tree: Tree, row: Row, fails: u64) -> bool {
    let before = tree.memory.calls().len();
    tree.memory.fail(fails, fails.saturating_add(1));
    let mut files = files_of(alloc, tree);
    let written = write(alloc, &mut files, row.path);
    let calls = files.system().memory.calls();
    let last = calls.len().saturating_sub(before);
    is_whole_at_each_stop(alloc, calls, last, row)
        && match written {
            Ok(_) => fails == calls_of(row) && holds(alloc, calls, row.place, b"new"),
            Err(_) => fails < calls_of(row),
        }
}

/// Each of these writes is done in folders of its own.
fn is_written_once(alloc: Global, row: Row) -> bool {
    for fails in 0..=calls_of(row) {
        let Ok(tree) = folders(alloc) else {
            return false;
        };
        if !is_written(alloc, tree, row, fails) {
            return false;
        }
    }
    true
}

#[test]
fn a_write_through_links_is_whole_at_each_stop(rt: HostRuntime) {
    for (path, place, is_there) in WRITES.iter() {
        assert!(rt; is_written_once(rt.alloc(), row_of(path, place, *is_there)));
    }
}
