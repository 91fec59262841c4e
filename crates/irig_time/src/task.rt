//! What is done with a track.

/// What is done with a track: lines are aligned with it, or it is listed and no lines are read.
#[derive(Clone, Copy)]
pub enum Task {
    Lines,
    Table,
    /// The stretches without a time are listed, as objects of JSON if that is asked for.
    Holes(bool),
}
