//! A change of a session, alone or in a group.

ghost use Rattle.std.specs.Prelude.{◌≡◌, ◌<◌, ◌^◌, length};
ghost use Rattle.irig_saved.specs.SavedText.{change_lines};

use crate::single::Single;
use crate::singles::Singles;

/// One change, or a group of them in the order in which they are made.
#[derive(Drop)]
pub enum Change {
    One(Single),
    Group(Singles),
}

impl Change {
    /// Lines in the text of a journal; a group has one that counts its changes, too.
    pub(crate) fn lines(&self) -> usize
        requires { length (change_lines self.now) < 2 ^ 63 }
        ensures { result ≡ length (change_lines self.now) }
    {
        match self {
            Change::One(single) => single.lines(),
            Change::Group(singles) => 1 + singles.lines(),
        }
    }
}
