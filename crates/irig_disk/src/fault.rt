//! Why a text was not written.

ghost use Rattle.std.specs.Prelude.{◌≡◌};
ghost use Rattle.irig_disk.specs.{Faults.left_by, declared.fault.PutFault.TheVariants.Memory};

use std::alloc::AllocError;

/// What a write that did not succeed leaves. `X` is the fault of a call, which only a call gives.
#[derive(Drop)]
pub enum PutFault<X> {
    /// Memory ran out: nothing has changed.
    Memory,
    /// Each name for the new file is taken: nothing has changed.
    NamesTaken,
    /// A call failed: nothing has changed.
    Failed(X),
    /// A call failed, and so did the removal of the new file, which is still there.
    LeftBehind(X, X),
    /// Memory ran out, and the removal of the new file failed, which is still there.
    Remains(X),
    /// The new text is there, but a crash can bring the old one back.
    NotKept(X),
}

impl<X> From<AllocError> for PutFault<X> {
    ghost from_gives = { λ _ e. e ≡ Memory };

    fn from(_: AllocError) -> Self {
        PutFault::Memory
    }
}

/// What a write leaves that has tried to remove its new file. `fault` is that of a call, or `None`
/// if memory ran out or the text had more than 2^64 - 1 bytes.
pub(crate) fn fault_after<T: Drop, X>(fault: Option<X>, removal: Result<T, X>) -> PutFault<X>
    ensures { result ≡ left_by fault removal }
{
    match (fault, removal) {
        (Some(fault), Ok(_)) => PutFault::Failed(fault),
        (Some(fault), Err(other)) => PutFault::LeftBehind(fault, other),
        (None, Ok(_)) => PutFault::Memory,
        (None, Err(other)) => PutFault::Remains(other),
    }
}
