//! The single calls on paths of folders in memory; what each method does is said with the traits in
//! irig_files. Where `match` hands an error on, `?` would do the same, with a longer proof.

ghost use Rattle.std.specs.Prelude.{◌≡◌, ◌≢◌, ◌↔◌, IfOk, IsTrue, None, Some, false, true};
ghost use Rattle.std.specs.Prelude.{is_none, option_copied, option_map};
ghost use Rattle.std.proofs.Common.{ap};
ghost use Rattle.irig_files.specs.declared.dump_file.DumpFileFault.TheVariants.{CannotBeRead};
ghost use Rattle.irig_folders.specs.Log.{holds_in, leads_in};
ghost use Rattle.irig_folders.specs.{Links.link_at, LinkLaws.follows_link, Places.other_in};
ghost use Rattle.irig_folders.specs.{Places.over, Tree.IsOther, Tree.IsWritable};
ghost use Rattle.irig_folders.specs.TreeFiles.{held_at, output_in};

use crate::layout::{front_at, is_regular, output_at};
use crate::left::mode_of;
use crate::memory_fault::MemoryFault;
use crate::seen_file::SeenFile;
use crate::tree::{Plain, Tree, TreeDir};
use crate::tree_paths::{end_at, find, link_text, path_of};
use crate::tree_reads::{bytes_at, read_of};
use irig_files::{Described, DumpFileFault, FileSystem, LongParts, PlainCalls, read_extent};
use irig_vcd::{Extent, VcdFault};
use std::alloc::Global;
use std::io::{self, Write};
use std::path::PathBuf;

/// What is no regular file, or takes the answers: it takes all bytes, and they are gone.
#[derive(Drop)]
pub struct Pipe;

impl Write for Pipe {
    fn write(&mut self, bytes: &[u8]) -> io::Result<usize> {
        Ok(bytes.len())
    }

    fn flush(&mut self) -> io::Result<()> {
        Ok(())
    }
}

impl PlainCalls for Tree {
    type Seen = SeenFile;

    type Other = Pipe;

    type Output = Pipe;

    ghost seen_number = { λ file. file.number };

    ghost may_write = { λ t i. IsWritable (holds_in t.memory.calls.items i).mode };

    fn open_output(&self, _: &str) -> Pipe {
        Pipe
    }

    // `Planned`: the test planned that this fails.
    fn open_other(&self, _: &str) -> Result<Pipe, MemoryFault> {
        match self.blind {
            Some(Plain::OpenOther) => Err(MemoryFault::Planned),
            _ => Ok(Pipe),
        }
    }

    // `NoSuchName` also if `find` fails for memory: a caller asks only whether this failed.
    fn open_seen(&self, path: &str) -> Result<SeenFile, MemoryFault> {
        if self.blind == Some(Plain::OpenSeen) {
            return Err(MemoryFault::Planned);
        }
        match find(self, path) {
            Ok(Some(number)) if is_writable(mode_of(self.memory.calls(), number)) => {
                Ok(SeenFile { number })
            }
            _ => Err(MemoryFault::NoSuchName),
        }
    }

    fn seen(&self, file: &SeenFile) -> Result<Described, MemoryFault> {
        match self.blind {
            Some(Plain::Seen) => Err(MemoryFault::Planned),
            _ => Ok(described(self, file.number)),
        }
    }
}

/// Whether its owner may write a file of this mode: bit 0200 (octal) is set.
fn is_writable(mode: u32) -> bool
    ensures { IsTrue result ↔ IsWritable mode }
{
    mode / 0o200 % 2 == 1
}

/// What the file of a number is. One that is written in place counts as no regular one.
fn described(tree: &Tree, file: usize) -> Described
    ensures file { result.is_file ≡ is_none (other_in tree.now.layout.others.items file) }
    ensures mode { result.mode ≡ (holds_in tree.now.memory.calls.items file).mode }
    ensures id { result.id ≡ (0, file) }
{
    Described {
        is_file: is_regular(&tree.layout.others, file),
        mode: mode_of(tree.memory.calls(), file),
        id: (0, file as u64),
    }
}

/// What `describe` shows of a file: as `described`, but the one that the answers go to counts as a
/// regular one, as it can be on a system.
fn shown(tree: &Tree, file: usize) -> Described
    ensures regular { result.is_file ≡ true → output_in tree.now.layout.others.items ≢ Some file
        → is_none (other_in tree.now.layout.others.items file) ≡ true }
    ensures other { result.is_file ≡ false
        → is_none (other_in tree.now.layout.others.items file) ≡ false }
    ensures id { result.id ≡ (0, file) }
{
    let mut seen = described(tree, file);
    if output_at(&tree.layout.others) == Some(file) {
        seen.is_file = true;
    }
    seen
}

/// The id of the file that the answers go to, if they go to one.
fn output_id(tree: &Tree) -> Option<(u64, u64)>
    ensures { result ≡ option_map (λ file. (0, file)) (output_in tree.now.layout.others.items) }
{
    match output_at(&tree.layout.others) {
        Some(file) => Some((0, file as u64)),
        None => None,
    }
}

/// The text of the link at a path. `NoSuchName` if more links than `limit` follow from there.
fn read_text<'t>(tree: &'t Tree, path: &str) -> Result<Option<&'t str>, MemoryFault>
    ensures { IfOk result (λ text. option_copied text ≡ link_at tree.now.layout
        (over tree.now.layout (leads_in tree.now.memory.calls.items)) path.now) }
{
    let start = path_of(tree.alloc, path)?;
    let Some(_) = end_at(tree, start, tree.layout.limit)? else {
        return Err(MemoryFault::NoSuchName);
    };
    let text = link_text(tree, path)?;
    Ok(text)
}

impl FileSystem for Tree {
    ghost output_id = { λ t. option_map (λ file. (0, file)) (output_in t.layout.others.items) };

    ghost id_of = { λ _ file. (0, file) };

    ghost is_other = { λ t. IsOther t.layout (over t.layout (leads_in t.memory.calls.items)) };

    ghost link_at = { λ t. link_at t.layout (over t.layout (leads_in t.memory.calls.items)) };

    ghost held = { λ t. held_at t.layout t.memory.calls.items };

    ghost unread = { λ t path fault. fault ≡ CannotBeRead
        → held_at t.layout t.memory.calls.items path ≡ None };

    ghost follows = { λ t. follows_link t.layout
        (over t.layout (leads_in t.memory.calls.items)) };

    ghost ids_differ = { λ _ one other same. ap (λ id. id.1) same };

    // `read_of` hands the answer on: its contract is needed here.
    fn read_extent(
        &self,
        alloc: Global,
        path: &str,
        wire: Option<&[u8]>,
        extent: Extent,
    ) -> Result<Result<LongParts, VcdFault>, DumpFileFault> {
        let bytes = bytes_at(self, alloc, path)?;
        read_of(read_extent(alloc, bytes.as_slice(), wire, extent))
    }

    // `NoSuchName`: too many links, or they end in no folder.
    fn describe(&self, path: &str) -> Result<Option<Described>, MemoryFault> {
        if self.blind == Some(Plain::Describe) {
            return Err(MemoryFault::Planned);
        }
        match find(self, path) {
            Ok(Some(file)) => Ok(Some(shown(self, file))),
            Ok(None) => Ok(None),
            Err(fault) => Err(fault),
        }
    }

    fn output(&self) -> Result<Option<(u64, u64)>, MemoryFault> {
        match self.blind {
            Some(Plain::Output) => Err(MemoryFault::Planned),
            _ => Ok(output_id(self)),
        }
    }

    fn read_link(&self, path: &str) -> Result<Option<PathBuf>, MemoryFault> {
        if self.blind == Some(Plain::ReadLink) {
            return Err(MemoryFault::Planned);
        }
        match read_text(self, path)? {
            Some(text) => Ok(Some(path_of(self.alloc, text)?)),
            None => Ok(None),
        }
    }

    // `NoMemory` empties `dir`.
    fn open_folder(&self, dir: &mut TreeDir, path: &str) -> Result<(), MemoryFault> {
        if self.blind == Some(Plain::OpenFolder) {
            return Err(MemoryFault::Planned);
        }
        let Some(front) = front_at(&self.layout.folders, path.as_bytes()) else {
            return Err(MemoryFault::NoSuchName);
        };
        dir.front.clear();
        dir.front.push_str(front)?;
        Ok(())
    }
}
