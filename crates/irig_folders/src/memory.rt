//! A folder in memory, for tests: the log of the calls that were done on it.

ghost use Rattle.std.specs.Prelude.{◌≡◌, ◌↔◌, ◌≤◌, ◌<◌, ◌∷◌, ◌++◌, ◌+◌, ◌-◌, ◌^◌, [], None, OnOk};
ghost use Rattle.std.specs.Prelude.{OnErr, IfOk, IfErr, IfSome, IsTrue, MatchOption, MatchResult};
ghost use Rattle.std.specs.Prelude.{min, vec_len, vec_capacity};
ghost use Rattle.irig_folders.specs.declared.memory_fault.MemoryFault.TheVariants.{NoMemory};
ghost use Rattle.irig_disk.specs.Calls.{IsTaken, Made, SyncedNames, mode_made};
ghost use Rattle.irig_disk.specs.{Disk.Elapses, Stays.Stays};
ghost use Rattle.irig_folders.specs.{Log.leads_in, LogDisk.disk_of};
ghost use Rattle.irig_folders.specs.declared.memory.TheConstants.{USUAL};

use crate::call::Call;
use crate::memory_fault::MemoryFault;
use crate::names::file_at;
use std::alloc::Global;

/// The mode of a file that is its owner's alone.
const OWNER_ONLY: u32 = 0o600;

/// The mode of any other new file of a folder in memory.
pub const USUAL: u32 = 0o644;

/// A file of a folder in memory.
#[derive(Drop)]
pub struct MemoryFile {
    pub(crate) number: usize,
}

/// A folder in memory. Calls numbered from `fails_from` up to `fails_to`, not included, fail;
/// `done` calls were counted since the last `fail`.
#[derive(Drop)]
pub struct Memory {
    pub(crate) alloc: Global,
    pub(crate) calls: Vec<Call>,
    done: u64,
    fails_from: u64,
    fails_to: u64,
}

/// Adds a call to a log as the newest, so at the front.
pub(crate) fn add(calls: &mut Vec<Call>, call: Call) -> Result<(), MemoryFault>
    ensures ok { OnOk result (calls.new.items ≡ call ∷ calls.old.items) }
    ensures err { OnErr result (calls.new.items ≡ calls.old.items) }
    ensures fault { IfErr result (λ fault. fault ≡ NoMemory) }
    ensures full { OnErr result (vec_capacity calls.old ≤ vec_len calls.old) }
{
    calls.insert(0, call)?;
    Ok(())
}

impl Memory {
    /// An empty folder. No call on it is planned to fail.
    pub fn new(alloc: Global) -> Self
        ensures empty { result.calls.items ≡ [] }
        ensures unplanned { result.fails_to ≡ 0 }
    {
        Memory {
            alloc,
            calls: Vec::new(alloc),
            done: 0,
            fails_from: 0,
            fails_to: 0,
        }
    }

    /// The calls that were done, the newest first.
    pub fn calls(&self) -> &[Call]
        ensures { result.now ≡ self.now.calls.items }
    {
        &self.calls
    }

    /// Plans that the calls from number `from` on, from 0 at this moment, fail up to `to`, not
    /// included.
    pub fn fail(&mut self, from: u64, to: u64)
        ensures calls { self.new.calls ≡ self.old.calls }
        ensures done { self.new.done ≡ 0 }
        ensures from { self.new.fails_from ≡ from }
        ensures to { self.new.fails_to ≡ to }
    {
        self.done = 0;
        self.fails_from = from;
        self.fails_to = to;
    }

    /// Whether this call is planned to fail. It counts the call, so each call asks just once.
    pub(crate) fn is_planned(&mut self) -> bool
        ensures planned { IsTrue result
            ↔ (self.old.fails_from ≤ self.old.done) × (self.old.done < self.old.fails_to) }
        ensures calls { self.new.calls ≡ self.old.calls }
        ensures done { self.new.done ≡ min (self.old.done + 1) (2 ^ 64 - 1) }
        ensures from { self.new.fails_from ≡ self.old.fails_from }
        ensures to { self.new.fails_to ≡ self.old.fails_to }
    {
        let now = self.done;
        self.done = now.saturating_add(1);
        self.fails_from <= now && now < self.fails_to
    }
}

impl Memory {
    /// Adds a new file with a mode to the log. Its name has to be free.
    fn add_file(&mut self, name: &str, mode: u32) -> Result<MemoryFile, MemoryFault>
        ensures ok { leads_in self.old.calls.items name.now ≡ None → IfOk result
            (λ file. Made (disk_of self.old.calls.items) (disk_of self.new.calls.items)
            name.now file.number mode) }
        ensures err { OnErr result (self.new.calls.items ≡ self.old.calls.items) }
        ensures fault { IfErr result (λ fault. fault ≡ NoMemory) }
        ensures number { IfOk result (λ file. file.number ≡ vec_len self.old.calls) }
        ensures time { Elapses (disk_of self.old.calls.items) (disk_of self.new.calls.items) }
    {
        let number = self.calls.len();
        let name = name.as_bytes().to_vec(self.alloc)?;
        add(&mut self.calls, Call::Make(name, mode))?;
        Ok(MemoryFile { number })
    }
}

impl Memory {
    /// Makes a new file under a name; `None` if that is taken. A hidden one can be read and written
    /// by its owner alone.
    pub fn make_new(&mut self, name: &str, hidden: bool) -> Result<Option<MemoryFile>, MemoryFault>
        ensures done { MatchResult result (λ made. MatchOption made
            (IsTaken (disk_of self.old.calls.items) (disk_of self.new.calls.items) name.now)
            (λ file. Made (disk_of self.old.calls.items) (disk_of self.new.calls.items)
            name.now file.number (mode_made USUAL hidden)))
            (λ _. Stays (disk_of self.old.calls.items) (disk_of self.new.calls.items)) }
        ensures number { IfOk result (λ made. IfSome made
            (λ file. file.number ≡ vec_len self.old.calls)) }
        ensures time { Elapses (disk_of self.old.calls.items) (disk_of self.new.calls.items) }
    {
        if self.is_planned() {
            return Err(MemoryFault::Planned);
        }
        if file_at(&self.calls, name.as_bytes()).is_some() {
            return Ok(None);
        }
        let file = self.add_file(name, if hidden { OWNER_ONLY } else { USUAL })?;
        Ok(Some(file))
    }

    /// Keeps the names that begin with `front`: a crash leaves each as it is seen.
    pub fn sync_front(&mut self, front: &str) -> Result<(), MemoryFault>
        ensures ok { OnOk result (SyncedNames (disk_of self.old.calls.items)
            (disk_of self.new.calls.items) (λ name. front.now ++ name)) }
        ensures err { OnErr result
            (Stays (disk_of self.old.calls.items) (disk_of self.new.calls.items)) }
        ensures time { Elapses (disk_of self.old.calls.items) (disk_of self.new.calls.items) }
    {
        if self.is_planned() {
            return Err(MemoryFault::Planned);
        }
        let kept = front.as_bytes().to_vec(self.alloc)?;
        add(&mut self.calls, Call::SyncNames(kept))
    }
}
