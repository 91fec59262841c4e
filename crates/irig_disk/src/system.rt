//! A folder of the system: each method is one call, whose outcome makes the answer (`answers`).

ghost use Rattle.std.specs.Prelude.{◌≡◌, ◌≤◌, ◌+◌, ◌↔◌, IfErr, IfOk, IsOk, IsSome, IsTrue, None, OnErr};
ghost use Rattle.std.specs.Prelude.{OnOk, false, true};
ghost use Rattle.std.specs.Fs.{asks_create_new, asks_write, new_options, with_create_new, with_write};
ghost use Rattle.std.specs.{Io.KnownBytes.Appends, IoError.error_kind, Path.path_buf_cap};
ghost use Rattle.irig_disk.specs.System.{untold, untold_now};

use crate::answers::{Appended, FileSynced, ModeTaken, NameRemoved, NamesSynced, Renamed};
use crate::folder::Folder;
use crate::system_dir::{PATH, SystemDir, put_path};
use crate::system_fault::SystemFault;
use std::alloc::{AllocError, Global};
use std::fs::{OpenFile, OpenOptions, Permissions};
use std::io::{ErrorKind, Write};
use std::os::unix::fs::{OpenOptionsExt, PermissionsExt};
use std::path::PathBuf;
use std::rt::Files;
use std::{fs, io};

#[derive(Drop)]
pub struct SystemFolder<'a, R: Files> {
    runtime: &'a R,
    one: PathBuf,
    other: PathBuf,
}

impl<'a, R: Files> SystemFolder<'a, R> {
    /// The names of folders that a runtime opens. The memory of their paths is taken here.
    pub fn new(alloc: Global, runtime: &'a R) -> Result<Self, AllocError>
        ensures runtime { IfOk result (λ folder. folder.runtime.now ≡ runtime.now) }
        ensures room { IfOk result (λ folder. 4_095 + 1 + 4_095 ≤ path_buf_cap folder.one) }
        ensures other_room { IfOk result (λ folder. 4_095 + 1 + 4_095 ≤ path_buf_cap folder.other) }
    {
        Ok(SystemFolder {
            runtime,
            one: PathBuf::with_capacity(alloc, PATH)?,
            other: PathBuf::with_capacity(alloc, PATH)?,
        })
    }

    pub fn runtime(&self) -> &'a R
        ensures { result.now ≡ self.now.runtime.now }
    {
        self.runtime
    }
}

impl<R: Files> Folder for SystemFolder<'_, R> {
    type Dir = SystemDir<R::File>;

    type File = SystemFile<R::File>;

    type Appended = Appended;

    type ModeTaken = ModeTaken;

    type FileSynced = FileSynced;

    type Renamed = Renamed;

    type NameRemoved = NameRemoved;

    type NamesSynced = NamesSynced;

    type Fault = SystemFault;

    ghost is_told = { false };

    ghost usual_mode = { 0 };

    ghost disk = { λ _. untold };

    ghost place = { λ _ name. name };

    ghost number = { λ _. 0 };

    ghost apart = { λ _ _ _ _ _ same. same };

    ghost counts_now = { λ _. untold_now };

    ghost only_now = { λ _ _ _ left. absurd left };

    fn make(
        &mut self,
        dir: &SystemDir<R::File>,
        name: &str,
        hidden: bool,
    ) -> Result<Option<SystemFile<R::File>>, SystemFault> {
        put_path(&mut self.one, dir.path.as_str(), name)?;
        made(new_file(hidden).open(self.runtime, self.one.as_str()))
    }

    fn append(
        &mut self,
        file: &mut SystemFile<R::File>,
        bytes: &[u8],
    ) -> Result<Appended, SystemFault> {
        append_all(file, bytes)
    }

    fn take_mode(
        &mut self,
        file: &SystemFile<R::File>,
        mode: u32,
    ) -> Result<ModeTaken, SystemFault> {
        ModeTaken::by(file.0.set_permissions(Permissions::from_mode(mode)))
    }

    fn sync_file(&mut self, file: &SystemFile<R::File>) -> Result<FileSynced, SystemFault> {
        FileSynced::by(file.0.sync_all())
    }

    // It fails if no file has the name `from`.
    fn rename(
        &mut self,
        dir: &SystemDir<R::File>,
        from: &str,
        to: &str,
    ) -> Result<Renamed, SystemFault> {
        put_path(&mut self.one, dir.path.as_str(), from)?;
        put_path(&mut self.other, dir.path.as_str(), to)?;
        Renamed::by(fs::rename(self.runtime, self.one.as_str(), self.other.as_str()))
    }

    // It fails if no file had the name.
    fn remove(&mut self, dir: &SystemDir<R::File>, name: &str) -> Result<NameRemoved, SystemFault> {
        put_path(&mut self.one, dir.path.as_str(), name)?;
        NameRemoved::by(fs::remove_file(self.runtime, self.one.as_str()))
    }

    // If no folder is open, the fault is `NotFound`.
    fn sync_names(&mut self, dir: &SystemDir<R::File>) -> Result<NamesSynced, SystemFault> {
        let Some(folder) = &dir.file else {
            return Err(SystemFault(io::Error::from(ErrorKind::NotFound)));
        };
        NamesSynced::by(folder.sync_all())
    }
}

#[derive(Drop)]
pub struct SystemFile<F: Drop>(F);

/// The answer of `make`. It is on its own for its contract, as `make` says nothing of the system.
fn made<F: Drop>(opened: io::Result<F>) -> Result<Option<SystemFile<F>>, SystemFault>
    ensures some { OnOk opened (IfOk result (λ file. IsSome file)) }
    ensures done { OnOk opened (IsOk result) }
    ensures none { IfErr opened (λ error. IsOk result
        ↔ (error_kind error ≡ ErrorKind.AlreadyExists)) }
    ensures nothing { OnErr opened (IfOk result (λ file. file ≡ None)) }
{
    match opened {
        Ok(file) => Ok(Some(SystemFile(file))),
        Err(error) if error.kind() == ErrorKind::AlreadyExists => Ok(None),
        Err(error) => Err(SystemFault(error)),
    }
}

/// How a new file is opened: only if no file has its name. A hidden one has mode 600 (octal), which
/// no contract can say.
fn new_file(hidden: bool) -> OpenOptions
    ensures write { IsTrue (asks_write result) }
    ensures new { IsTrue (asks_create_new result) }
    ensures usual { hidden ≡ false
        → result ≡ with_create_new (with_write new_options true) true }
{
    let mut how = OpenOptions::new();
    if hidden {
        how.mode(0o600);
    }
    how.write(true).create_new(true);
    how
}

/// Writes all of the bytes. It is on its own for its contract, as `made` is.
fn append_all<F: Write + Drop>(
    file: &mut SystemFile<F>,
    bytes: &[u8],
) -> Result<Appended, SystemFault>
    ensures { OnOk result (Appends (F.contents file.old.0) (F.contents file.new.0) bytes.now) }
{
    Appended::by(file.0.write_all(bytes))
}
