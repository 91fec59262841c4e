//! Folders in memory, with links and with files that are no regular ones, for tests.

ghost use Rattle.std.specs.Prelude.{◌++◌, string_bytes, true};
ghost use Rattle.std.proofs.lemmas.List.{append_cancel_left};
ghost use Rattle.irig_folders.specs.LogLaws.{log_counts_now, log_only_now};
ghost use Rattle.irig_folders.specs.LogDisk.{disk_of};
ghost use Rattle.irig_folders.specs.declared.memory.TheConstants.{USUAL};
ghost use Rattle.irig_folders.specs.Tree.{tree_disk};

use crate::layout::{FolderPath, Layout, Other, is_regular};
use crate::memory::{Memory, MemoryFile};
use crate::memory_fault::MemoryFault;
use crate::tree_paths::both;
use irig_disk::Folder;
use std::alloc::Global;

/// A call that changes nothing, by its method.
#[derive(Clone, Copy, PartialEq, Eq)]
pub enum Plain {
    Describe,
    Output,
    ReadLink,
    OpenFolder,
    OpenSeen,
    Seen,
    OpenOther,
}

/// Folders in memory: all files by their places, and what paths lead to.
#[derive(Drop)]
pub struct Tree {
    pub memory: Memory,
    pub layout: Layout,
    pub alloc: Global,
    /// Which of the calls that change nothing fails, if one does.
    pub blind: Option<Plain>,
}

/// An open folder in memory, by the front of its places.
#[derive(Drop)]
pub struct TreeDir {
    pub front: String,
}

impl Tree {
    /// A tree with no folder and no file yet. A path may follow `limit` links.
    pub fn new(alloc: Global, limit: u64) -> Tree {
        Tree {
            memory: Memory::new(alloc),
            layout: Layout {
                folders: Vec::new(alloc),
                others: Vec::new(alloc),
                limit,
            },
            alloc,
            blind: None,
        }
    }

    /// Adds a path of a folder. Two paths with one front lead to one folder, and a path that was
    /// added before keeps its front.
    pub fn add_path(&mut self, path: &str, front: &str) -> Result<(), MemoryFault> {
        let path = String::from_str(self.alloc, path)?;
        let front = String::from_str(self.alloc, front)?;
        self.layout.folders.push(FolderPath { path, front })?;
        Ok(())
    }

    /// Adds a link to the path `text`, or without a text a pipe. Each crash leaves it.
    /// `NoSuchName`: its place is taken. After any other error it may be there in part, as below.
    pub fn add_other(&mut self, place: &str, text: Option<String>) -> Result<(), MemoryFault> {
        self.add_in_place(place, text, false)
    }

    /// Adds the file that the program's answers go to. Of two such files, the first counts.
    pub fn add_output(&mut self, place: &str) -> Result<(), MemoryFault> {
        self.add_in_place(place, None, true)
    }

    /// Adds a file of `others`. A write to it goes into it, or to where it leads.
    fn add_in_place(
        &mut self,
        place: &str,
        text: Option<String>,
        takes_answers: bool,
    ) -> Result<(), MemoryFault> {
        let number = self.memory.calls().len();
        let Some(_) = self.memory.make_new(place, false)? else {
            return Err(MemoryFault::NoSuchName);
        };
        self.layout.others.push(Other {
            number,
            text,
            takes_answers,
        })?;
        // The empty front means all places.
        self.memory.sync_front("")
    }

    /// Adds a regular file with bytes and a mode. Each crash leaves the file with both.
    pub fn add_file(&mut self, place: &str, bytes: &[u8], mode: u32) -> Result<(), MemoryFault> {
        let Some(mut file) = self.memory.make_new(place, false)? else {
            return Err(MemoryFault::NoSuchName);
        };
        self.memory.append(&mut file, bytes)?;
        self.memory.take_mode(&file, mode)?;
        self.memory.sync_file(&file)?;
        self.memory.sync_front("")
    }
}

impl Folder for Tree {
    type Dir = TreeDir;

    type File = MemoryFile;

    type Appended = ();

    type ModeTaken = ();

    type FileSynced = ();

    type Renamed = ();

    type NameRemoved = ();

    type NamesSynced = ();

    type Fault = MemoryFault;

    ghost is_told = { true };

    ghost usual_mode = { USUAL };

    ghost disk = { λ t. tree_disk t.layout (disk_of t.memory.calls.items) };

    ghost place = { λ dir name. string_bytes dir.front ++ name };

    ghost number = { λ file. file.number };

    ghost apart = { λ dir a b _ _ same. append_cancel_left (string_bytes dir.front) a b same };

    ghost counts_now = { λ t. log_counts_now t.memory.calls.items };

    ghost only_now = { λ t. log_only_now t.memory.calls.items };

    // A new file gets the number of calls so far. If `others` has that number, it would not be
    // regular: the methods here never fill `others` so, but the contract holds of any.
    fn make(
        &mut self,
        dir: &TreeDir,
        name: &str,
        hidden: bool,
    ) -> Result<Option<MemoryFile>, MemoryFault> {
        if !is_regular(&self.layout.others, self.memory.calls().len()) {
            return Err(MemoryFault::NoSuchName);
        }
        let place = both(self.alloc, dir.front.as_str(), name)?;
        self.memory.make_new(place.as_str(), hidden)
    }

    fn append(&mut self, file: &mut MemoryFile, bytes: &[u8]) -> Result<(), MemoryFault> {
        self.memory.append(file, bytes)
    }

    fn take_mode(&mut self, file: &MemoryFile, mode: u32) -> Result<(), MemoryFault> {
        self.memory.take_mode(file, mode)
    }

    fn sync_file(&mut self, file: &MemoryFile) -> Result<(), MemoryFault> {
        self.memory.sync_file(file)
    }

    fn rename(&mut self, dir: &TreeDir, from: &str, to: &str) -> Result<(), MemoryFault> {
        let old_place = both(self.alloc, dir.front.as_str(), from)?;
        let new_place = both(self.alloc, dir.front.as_str(), to)?;
        self.memory
            .rename(&(), old_place.as_str(), new_place.as_str())
    }

    fn remove(&mut self, dir: &TreeDir, name: &str) -> Result<(), MemoryFault> {
        let place = both(self.alloc, dir.front.as_str(), name)?;
        self.memory.remove(&(), place.as_str())
    }

    // The places of the names in a folder begin with its front.
    fn sync_names(&mut self, dir: &TreeDir) -> Result<(), MemoryFault> {
        self.memory.sync_front(dir.front.as_str())
    }
}
