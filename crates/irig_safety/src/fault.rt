//! Why frames are not safe.

use crate::shown::Shown;

/// Why the frames that read well now are not safe by those that did before.
#[derive(Clone, Copy, PartialEq, Eq)]
pub enum Fault {
    /// This one read well, and none begins where it did.
    Lost(Shown),
    /// This one read well, and is another one now that does not mend it.
    Changed(Shown),
    /// This one did not read well before, and nothing bears it out.
    Unsupported(Shown),
    /// This one did not read well, or is another one now, and its control functions are not borne
    /// out.
    Unrecorded(Shown),
    /// This one read well and still does, and its pulses do not rise when they did.
    Moved(Shown),
    /// This one did not read well, and a pulse of it is neither where the recording has one nor on
    /// the line between those next to it. If no frame read well: fewer than 60 of its pulses are
    /// where the recording has one.
    Misplaced(Shown),
    /// None read well, and those that do now do not bear each other out.
    Alone,
    /// The recorded pulse that rose at this microsecond was loose, and none is in its place now.
    Removed(u64),
    /// None read well, and none does now: there is nothing to judge by.
    Unjudged,
}
