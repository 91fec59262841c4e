//! Why a call of a session is refused.

ghost use Rattle.std.specs.Prelude.{◌≡◌};
ghost use Rattle.irig_edit.specs.declared.session.refusal.Refusal.TheVariants.{OutOfMemory};

use std::alloc::AllocError;

/// The first that holds is answered, in this order; the session is then as it was.
#[derive(Clone, Copy, PartialEq, Eq)]
pub enum Refusal {
    /// E1: times are not in order, or lie beyond the length, or would come to lie there.
    OutOfRange,
    /// E2: there is no such pulse.
    NoPulse,
    /// E3: the pulse would touch another.
    Touching,
    /// E4: the times do not lie inside of the pulse.
    NotInside,
    /// E5: there would be more than 2^22 pulses.
    TooMany,
    /// E6: the format does not permit the expression.
    BadExpression,
    /// E7: the moment does not begin a frame.
    BadTime,
    /// E8: the control functions are more than the format carries.
    BadControl,
    /// E9: no step is left to undo.
    NothingToUndo,
    /// E10: no step is left to redo.
    NothingToRedo,
    /// E12: a group is open already.
    GroupOpen,
    /// E13: no group is open.
    NoGroup,
    /// E14: the step was made before the open group was begun.
    GroupFloor,
    /// E11: memory ran out.
    OutOfMemory,
}

impl From<AllocError> for Refusal {
    ghost from_gives = { λ _ e. e ≡ OutOfMemory };

    fn from(_e: AllocError) -> Refusal {
        Refusal::OutOfMemory
    }
}
