//! Why a repair is not kept.

use irig_agreement::Fault as Disagreement;
use irig_edit::Refusal;
use irig_safety::Fault;

/// Why a repair is not kept.
#[derive(Clone, Copy)]
pub enum Reason {
    /// It is no edit, and no group of edits.
    NoRepair,
    /// The editor refuses a line of it.
    Refused(Refusal),
    /// Memory ran out for the frames that it leads to.
    OutOfMemory,
    /// The frames that it leads to would not be safe: this is their first fault.
    NotSafe(Fault),
    /// It is barred: what was kept with it did not agree with the recording. This was at fault.
    Disagrees(Disagreement),
}
