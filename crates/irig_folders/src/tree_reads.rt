//! What the files of folders in memory, a `Tree`, are read as.

ghost use Rattle.std.specs.Prelude.{◌≡◌, IfErr, IfOk, IsErrOf, None, Ok, Some};
ghost use Rattle.irig_folders.specs.{Log.holds_in, TreeFiles.held_at};
ghost use Rattle.irig_files.specs.declared.dump_file.DumpFileFault.TheVariants.{CannotBeRead};
ghost use Rattle.irig_files.specs.declared.dump_file.DumpFileFault.TheVariants.{OutOfMemory, TooLong};

use crate::left::bytes_of;
use crate::memory_fault::MemoryFault;
use crate::tree::Tree;
use crate::tree_paths::find;
use irig_files::DumpFileFault;
use std::alloc::Global;

/// The bytes of the file that a path leads to. `CannotBeRead` if it leads to none, or nowhere.
pub fn bytes_at(tree: &Tree, alloc: Global, path: &str) -> Result<Vec<u8>, DumpFileFault>
    ensures held { IfOk result (λ bytes. held_at tree.now.layout
        tree.now.memory.calls.items path.now ≡ Some bytes.items) }
    ensures unread { IsErrOf result CannotBeRead
        → held_at tree.now.layout tree.now.memory.calls.items path.now ≡ None }
    ensures short { IsErrOf result TooLong → ⊥ }
{
    match find(tree, path) {
        Ok(Some(file)) => held_bytes(tree, alloc, file),
        Ok(None) | Err(MemoryFault::NoSuchName) => Err(DumpFileFault::CannotBeRead),
        Err(_) => Err(DumpFileFault::OutOfMemory),
    }
}

/// The bytes of a file, by its number. It fails with `OutOfMemory` alone.
fn held_bytes(tree: &Tree, alloc: Global, file: usize) -> Result<Vec<u8>, DumpFileFault>
    ensures held { IfOk result
        (λ bytes. bytes.items ≡ (holds_in tree.now.memory.calls.items file).bytes) }
    ensures memory { IfErr result (λ fault. fault ≡ OutOfMemory) }
{
    match bytes_of(alloc, tree.memory.calls(), file) {
        Ok(bytes) => Ok(bytes),
        Err(_) => Err(DumpFileFault::OutOfMemory),
    }
}

/// What a read of bytes in memory gave. The contract of such a read does not say that it is never
/// `CannotBeRead`; this one does, and those of a tree need it.
pub fn read_of<T: Drop>(read: Result<T, DumpFileFault>) -> Result<T, DumpFileFault>
    ensures ok { IfOk result (λ value. read ≡ Ok value) }
    ensures long { IsErrOf result TooLong → IsErrOf read TooLong }
    ensures readable { IsErrOf result CannotBeRead → ⊥ }
{
    match read {
        Err(DumpFileFault::CannotBeRead) => Err(DumpFileFault::OutOfMemory),
        read => read,
    }
}
