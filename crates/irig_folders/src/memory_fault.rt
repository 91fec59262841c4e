//! Why a call on a folder in memory failed.

ghost use Rattle.std.specs.Prelude.{◌≡◌};
ghost use Rattle.irig_folders.specs.declared.memory_fault.MemoryFault.TheVariants.{NoMemory};

use std::alloc::{AllocError, AllocFailed};

/// The error of a call.
#[derive(Clone, Copy)]
pub enum MemoryFault {
    /// Memory ran out.
    NoMemory,
    /// The test planned that this call fails.
    Planned,
    /// No file has the name.
    NoSuchName,
}

impl From<AllocError> for MemoryFault {
    ghost from_gives = { λ _ fault. fault ≡ NoMemory };

    fn from(_: AllocError) -> Self {
        MemoryFault::NoMemory
    }
}

impl<T: Drop> From<AllocFailed<T>> for MemoryFault {
    ghost from_gives = { λ _ fault. fault ≡ NoMemory };

    fn from(_: AllocFailed<T>) -> Self {
        MemoryFault::NoMemory
    }
}
