//! What the system answers to a call that is done: a type for each call, which is made here alone.

ghost use Rattle.std.specs.Prelude.{◌≡◌, ◌↔◌, IfErr, IsOk, OnOk};
ghost use Rattle.std.specs.IoError.{error_kind};

use crate::system_fault::SystemFault;
use std::io;
use std::io::ErrorKind;

#[derive(Drop)]
pub struct Appended(());

impl Appended {
    pub(crate) fn by(outcome: io::Result<()>) -> Result<Appended, SystemFault>
        ensures { IsOk result ↔ IsOk outcome }
    {
        match outcome {
            Ok(()) => Ok(Appended(())),
            Err(error) => Err(SystemFault(error)),
        }
    }
}

#[derive(Drop)]
pub struct ModeTaken(());

impl ModeTaken {
    pub(crate) fn by(outcome: io::Result<()>) -> Result<ModeTaken, SystemFault>
        ensures { IsOk result ↔ IsOk outcome }
    {
        match outcome {
            Ok(()) => Ok(ModeTaken(())),
            Err(error) => Err(SystemFault(error)),
        }
    }
}

#[derive(Drop)]
pub struct FileSynced(());

impl FileSynced {
    pub(crate) fn by(outcome: io::Result<()>) -> Result<FileSynced, SystemFault>
        ensures { IsOk result ↔ IsOk outcome }
    {
        match outcome {
            Ok(()) => Ok(FileSynced(())),
            Err(error) => Err(SystemFault(error)),
        }
    }
}

#[derive(Drop)]
pub struct Renamed(());

impl Renamed {
    pub(crate) fn by(outcome: io::Result<()>) -> Result<Renamed, SystemFault>
        ensures { IsOk result ↔ IsOk outcome }
    {
        match outcome {
            Ok(()) => Ok(Renamed(())),
            Err(error) => Err(SystemFault(error)),
        }
    }
}

#[derive(Drop)]
pub struct NameRemoved(());

impl NameRemoved {
    pub(crate) fn by(outcome: io::Result<()>) -> Result<NameRemoved, SystemFault>
        ensures { IsOk result ↔ IsOk outcome }
    {
        match outcome {
            Ok(()) => Ok(NameRemoved(())),
            Err(error) => Err(SystemFault(error)),
        }
    }
}

#[derive(Drop)]
pub struct NamesSynced(());

impl NamesSynced {
    /// A file system that cannot sync a folder says that the call is invalid. That counts as kept,
    /// as nobody can ask that system for more.
    pub(crate) fn by(outcome: io::Result<()>) -> Result<NamesSynced, SystemFault>
        ensures ok { OnOk outcome (IsOk result) }
        ensures err { IfErr outcome (λ error. IsOk result
            ↔ (error_kind error ≡ ErrorKind.InvalidInput)) }
    {
        match outcome {
            Ok(()) => Ok(NamesSynced(())),
            Err(error) if error.kind() == ErrorKind::InvalidInput => Ok(NamesSynced(())),
            Err(error) => Err(SystemFault(error)),
        }
    }
}
