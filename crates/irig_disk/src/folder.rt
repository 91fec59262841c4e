//! Single system calls on the names of open folders.

ghost use Rattle.std.specs.Prelude.{◌≡◌, ◌≤◌, ◌⊎◌, ℕ, List, Option, OnOk, OnErr, MatchResult, Bool};
ghost use Rattle.std.specs.Prelude.{IsTrue, MatchOption};
ghost use Rattle.irig_disk.specs.Disk.{Disk, Elapses, MayLeave};
ghost use Rattle.irig_disk.specs.Calls.{Made, IsTaken, Wrote, WroteSome, TookMode, SyncedFile};
ghost use Rattle.irig_disk.specs.Calls.{MaySpoil, SyncedNames, mode_made};
ghost use Rattle.irig_disk.specs.Moves.{IsMoved, IsNotMoved, Removed, NotRemoved};
ghost use Rattle.irig_disk.specs.{Held.Held, Name.IsName, Stays.Stays};

/// Each method is one call, and its contract says what a crash may leave after it: of a name, what
/// it leads to now or led to since the last `sync_names`; of a file that was changed since its last
/// `sync_file`, anything. What a call that succeeds returns, only this call can make.
pub trait Folder {
    type Dir: Drop;

    /// A new file that is open. Only `make` gives one.
    type File: Drop;

    type Appended: Drop;

    type ModeTaken: Drop;

    type FileSynced: Drop;

    type Renamed: Drop;

    type NameRemoved: Drop;

    type NamesSynced: Drop;

    type Fault: Drop;

    /// Whether the contracts know the state: true of folders in memory, false of the system.
    ghost is_told: { Bool };

    /// The mode of a new file that is not hidden.
    ghost usual_mode: { ℕ };

    /// What is seen, and what a crash may leave.
    ghost disk: { Self → Disk };

    ghost place: { Self.Dir → List ℕ → List ℕ };

    ghost number: { Self.File → ℕ };

    /// Makes a new file if the name is free, else `None`; a hidden one is its owner's alone.
    fn make(
        &mut self,
        dir: &Self::Dir,
        name: &str,
        hidden: bool,
    ) -> Result<Option<Self::File>, Self::Fault>
        ensures done { IsTrue is_told → MatchResult result
            (λ file. MatchOption file (IsTaken (disk self.old) (disk self.new)
            (place dir.now name.now))
            (λ file. Made (disk self.old) (disk self.new) (place dir.now name.now)
            (number file) (mode_made usual_mode hidden)))
            (λ _. Stays (disk self.old) (disk self.new)) }
        ensures time { IsTrue is_told → Elapses (disk self.old) (disk self.new) };

    /// Writes bytes to the end of the file. A call that fails may have written a part of them.
    fn append(&mut self, file: &mut Self::File, bytes: &[u8]) -> Result<Self::Appended, Self::Fault>
        ensures ok { IsTrue is_told → OnOk result
            (Wrote (disk self.old) (disk self.new) (number file.old) bytes.now) }
        ensures err { IsTrue is_told → OnErr result
            (WroteSome (disk self.old) (disk self.new) (number file.old) bytes.now) }
        ensures same { number file.new ≡ number file.old }
        ensures time { IsTrue is_told → Elapses (disk self.old) (disk self.new) };

    /// Gives the file a mode. After an error the file may hold anything.
    fn take_mode(&mut self, file: &Self::File, mode: u32) -> Result<Self::ModeTaken, Self::Fault>
        ensures ok { IsTrue is_told → OnOk result
            (TookMode (disk self.old) (disk self.new) (number file.now) mode) }
        ensures err { IsTrue is_told → OnErr result
            (MaySpoil (disk self.old) (disk self.new) (number file.now)) }
        ensures time { IsTrue is_told → Elapses (disk self.old) (disk self.new) };

    /// Keeps what the file holds over a crash. An error is like that of `take_mode`.
    fn sync_file(&mut self, file: &Self::File) -> Result<Self::FileSynced, Self::Fault>
        ensures ok { IsTrue is_told → OnOk result
            (SyncedFile (disk self.old) (disk self.new) (number file.now)) }
        ensures err { IsTrue is_told → OnErr result
            (MaySpoil (disk self.old) (disk self.new) (number file.now)) }
        ensures time { IsTrue is_told → Elapses (disk self.old) (disk self.new) };

    /// Gives a file another name, instead of the file that had it, in one step. After an error the
    /// names are seen as they were, but a crash may show the new ones.
    fn rename(
        &mut self,
        dir: &Self::Dir,
        from: &str,
        to: &str,
    ) -> Result<Self::Renamed, Self::Fault>
        ensures ok { IsTrue is_told → OnOk result
            (IsMoved (disk self.old) (disk self.new)
            (place dir.now from.now) (place dir.now to.now)) }
        ensures err { IsTrue is_told → OnErr result (Stays (disk self.old) (disk self.new)
            ⊎ IsNotMoved (disk self.old) (disk self.new) (place dir.now from.now)
            (place dir.now to.now)) }
        ensures time { IsTrue is_told → Elapses (disk self.old) (disk self.new) };

    /// Frees a name. After an error it is seen as it was, but a crash may leave it free.
    fn remove(&mut self, dir: &Self::Dir, name: &str) -> Result<Self::NameRemoved, Self::Fault>
        ensures ok { IsTrue is_told → OnOk result
            (Removed (disk self.old) (disk self.new) (place dir.now name.now)) }
        ensures err { IsTrue is_told → OnErr result
            (NotRemoved (disk self.old) (disk self.new) (place dir.now name.now)) }
        ensures time { IsTrue is_told → Elapses (disk self.old) (disk self.new) };

    /// Keeps the names in a folder over a crash. An error changes nothing.
    fn sync_names(&mut self, dir: &Self::Dir) -> Result<Self::NamesSynced, Self::Fault>
        ensures ok { IsTrue is_told → OnOk result
            (SyncedNames (disk self.old) (disk self.new) (place dir.now)) }
        ensures err { IsTrue is_told → OnErr result (Stays (disk self.old) (disk self.new)) }
        ensures time { IsTrue is_told → Elapses (disk self.old) (disk self.new) };

    /// Two names in a folder are two places.
    ghost apart: { (dir : Self.Dir) (a : List ℕ) (b : List ℕ) → IsName a → IsName b
        → place dir a ≡ place dir b → a ≡ b };

    /// What a crash may leave now counts as left since each earlier moment.
    ghost counts_now: { (folder : Self) (t : ℕ) (name : List ℕ) (c : Option Held)
        → t ≤ (disk folder).moment → MayLeave (disk folder) name c
        → (disk folder).left_since t name c };

    /// What a crash since now left, a crash may leave now: there is no later moment.
    ghost only_now: { (folder : Self) (name : List ℕ) (c : Option Held)
        → (disk folder).left_since (disk folder).moment name c → MayLeave (disk folder) name c };
}
