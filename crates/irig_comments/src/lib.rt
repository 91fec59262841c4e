//! The patch between two recordings, with comments that say what becomes of the frames.
#![tactic(auto)]

mod changes;
mod commented;
mod comments;
mod counts;
mod framed;
mod lines_left;
mod shown;
mod sides;
mod sides_left;

pub use changes::Changes;
pub use commented::CommentedPatch;
pub use counts::Counts;
pub use framed::Framed;
pub use shown::Shown;
pub use sides::Sides;
