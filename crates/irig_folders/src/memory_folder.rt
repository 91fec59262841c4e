//! The calls on names in one folder in memory; what each does is said with the trait in irig_disk.

ghost use Rattle.std.specs.Prelude.{true};
ghost use Rattle.irig_folders.specs.LogLaws.{log_counts_now, log_only_now};
ghost use Rattle.irig_folders.specs.{LogDisk.disk_of, declared.memory.TheConstants.USUAL};

use crate::call::Call;
use crate::memory::{Memory, MemoryFile, add};
use crate::memory_fault::MemoryFault;
use crate::names::file_at;
use irig_disk::Folder;

impl Folder for Memory {
    type Dir = ();

    type File = MemoryFile;

    type Appended = ();

    type ModeTaken = ();

    type FileSynced = ();

    type Renamed = ();

    type NameRemoved = ();

    type NamesSynced = ();

    type Fault = MemoryFault;

    ghost is_told = { true };

    ghost usual_mode = { USUAL };

    ghost disk = { λ folder. disk_of folder.calls.items };

    ghost place = { λ _ name. name };

    ghost number = { λ file. file.number };

    ghost apart = { λ _ _ _ _ _ same. same };

    ghost counts_now = { λ folder. log_counts_now folder.calls.items };

    ghost only_now = { λ folder. log_only_now folder.calls.items };

    // There is one folder, so the argument for the folder is not used.
    fn make(
        &mut self,
        _: &(),
        name: &str,
        hidden: bool,
    ) -> Result<Option<MemoryFile>, MemoryFault> {
        self.make_new(name, hidden)
    }

    // If the call is planned to fail, half of the bytes (rounded down) are written, as a system can
    // do.
    fn append(&mut self, file: &mut MemoryFile, bytes: &[u8]) -> Result<(), MemoryFault> {
        if self.is_planned() {
            let part = bytes[..bytes.len() / 2].to_vec(self.alloc)?;
            add(&mut self.calls, Call::Append(file.number, part))?;
            return Err(MemoryFault::Planned);
        }
        let all = bytes.to_vec(self.alloc)?;
        add(&mut self.calls, Call::Append(file.number, all))
    }

    fn take_mode(&mut self, file: &MemoryFile, mode: u32) -> Result<(), MemoryFault> {
        if self.is_planned() {
            return Err(MemoryFault::Planned);
        }
        add(&mut self.calls, Call::TakeMode(file.number, mode))
    }

    fn sync_file(&mut self, file: &MemoryFile) -> Result<(), MemoryFault> {
        if self.is_planned() {
            return Err(MemoryFault::Planned);
        }
        add(&mut self.calls, Call::SyncFile(file.number))
    }

    // `NoSuchName`: no file has the name `from`.
    fn rename(&mut self, _: &(), from: &str, to: &str) -> Result<(), MemoryFault> {
        if self.is_planned() {
            return Err(MemoryFault::Planned);
        }
        if file_at(&self.calls, from.as_bytes()).is_none() {
            return Err(MemoryFault::NoSuchName);
        }
        let old_name = from.as_bytes().to_vec(self.alloc)?;
        let new_name = to.as_bytes().to_vec(self.alloc)?;
        add(&mut self.calls, Call::Rename(old_name, new_name))
    }

    fn remove(&mut self, _: &(), name: &str) -> Result<(), MemoryFault> {
        if self.is_planned() {
            return Err(MemoryFault::Planned);
        }
        if file_at(&self.calls, name.as_bytes()).is_none() {
            return Err(MemoryFault::NoSuchName);
        }
        let gone = name.as_bytes().to_vec(self.alloc)?;
        add(&mut self.calls, Call::Remove(gone))
    }

    // All names are kept, as there is one folder.
    fn sync_names(&mut self, _: &()) -> Result<(), MemoryFault> {
        self.sync_front("")
    }
}
