//! Folders in memory with links and other files, and writes in them.

use irig_files::{Disk, Files, Room, Written};
use irig_folders::{MemoryFault, Tree, TreeDir};
use irig_text::{Bytes, ShelfFault};
use std::alloc::Global;

/// More than the limit of the program, 40, so that a test meets that one.
const LIMIT: u64 = 64;

/// With 04000 and 02000, octal, a program runs as the file's owner and group; 01000 is sticky.
pub const OLD_MODE: u32 = 0o7640;

/// After a write: who may read, write and run the file, and no other bit.
pub const MODE: u32 = 0o640;

/// The paths of folders, and what their places begin with.
static PATHS: [(&str, &str); 7] = [
    (".", "/"),
    ("a", "a/"),
    ("b", "b/"),
    ("a/..", "/"),
    ("a/../b", "b/"),
    ("/top/b", "b/"),
    ("/top", "/"),
];

/// The places of regular files, which hold the text `old`.
pub static OLD: [&str; 4] = ["/t", "/u", "a/t", "b/t"];

/// A text without a `/` in front counts from the folder of the link. `dangling` leads to no file,
/// `loop` and `pool` to each other, and the last two to the pipe and the output.
pub static LINKS: [(&str, &str); 9] = [
    ("/relative", "a/t"),
    ("a/upward", "../b/t"),
    ("/absolute", "/top/b/t"),
    ("/chain", "relative"),
    ("/dangling", "b/none"),
    ("/loop", "pool"),
    ("/pool", "loop"),
    ("/piped", "pipe"),
    ("a/answered", "../answers"),
];

/// A write that succeeds: its path, its place, and whether a regular file is there before.
#[derive(Clone, Copy)]
pub struct Row {
    pub path: &'static str,
    pub place: &'static str,
    pub is_there: bool,
}

pub fn row_of(path: &'static str, place: &'static str, is_there: bool) -> Row {
    Row {
        path,
        place,
        is_there,
    }
}

pub static WRITES: [(&str, &str, bool); 8] = [
    ("t", "/t", true),
    ("a/t", "a/t", true),
    // Through links: the place is that of the file that `LINKS` leads to.
    ("relative", "a/t", true),
    ("a/upward", "b/t", true),
    ("absolute", "b/t", true),
    ("chain", "a/t", true),
    // A link to no file, and no file: one is made there.
    ("dangling", "b/none", false),
    ("a/none", "a/none", false),
];

/// It fails only if memory runs out, as no two of these places are the same.
pub fn folders(alloc: Global) -> Result<Tree, MemoryFault> {
    let mut tree = Tree::new(alloc, LIMIT);
    for (path, front) in PATHS.iter() {
        tree.add_path(path, front)?;
    }
    for place in OLD.iter() {
        tree.add_file(place, b"old", OLD_MODE)?;
    }
    for (place, text) in LINKS.iter() {
        tree.add_other(place, Some(String::from_str(alloc, text)?))?;
    }
    tree.add_file("/locked", b"old", 0o440)?;
    tree.add_other("/pipe", None)?;
    tree.add_output("/answers")?;
    Ok(tree)
}

/// Writes the text `new`. It fails if the write does, or memory runs out.
pub fn write(alloc: Global, files: &mut Files<Tree>, path: &str) -> Result<Written, ShelfFault> {
    let Ok(mut room) = Room::new(alloc) else {
        return Err(ShelfFault);
    };
    files.put(path, &mut Bytes::new(b"new"), &mut room)
}

/// The `TreeDir` is for the folder that a write opens; the write sets its front.
pub fn files_of(alloc: Global, tree: Tree) -> Files<Tree> {
    Files::new(
        tree,
        TreeDir {
            front: String::new(alloc),
        },
    )
}
