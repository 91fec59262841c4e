//! How many changes a step has.

ghost use Rattle.std.specs.Prelude.{◌≡◌};
ghost use Rattle.irig_journal.specs.Sizes.{count_of, is_group};

/// One alone, or several in a group; a group may have none, or one.
#[derive(Clone, Copy, PartialEq, Eq)]
pub enum Size {
    /// One change that is no group.
    Alone,
    /// A group of this many changes.
    Group(usize),
}

impl Size {
    pub(crate) fn count(self) -> usize
        ensures { result ≡ count_of self }
    {
        match self {
            Size::Alone => 1,
            Size::Group(count) => count,
        }
    }

    pub(crate) fn is_group(self) -> bool
        ensures { result ≡ is_group self }
    {
        match self {
            Size::Alone => false,
            Size::Group(_) => true,
        }
    }
}
