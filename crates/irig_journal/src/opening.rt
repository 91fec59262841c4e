//! The begin of a group of steps, which become one step.

ghost use Rattle.std.specs.Prelude.{◌↔◌, IsTrue};
ghost use Rattle.irig_journal.specs.Openings.{AtFloor};

/// How many steps the past had when a group was begun, and the cursor of the present then.
#[derive(Clone, Copy, PartialEq, Eq)]
pub struct Opening {
    pub steps: usize,
    pub cursor: usize,
}

/// Whether a group is open and no step was made since its begin: then no step may be undone.
pub(crate) fn is_at_floor(floor: Option<Opening>, long: usize) -> bool
    ensures { IsTrue result ↔ AtFloor floor long }
{
    match floor {
        None => false,
        Some(opening) => long <= opening.steps,
    }
}
