//! What a frame shows that reads well: it is read, and nothing is wrong in it.

ghost use Rattle.std.specs.Prelude.{◌≡◌, ◌↔◌, IsTrue};

use irig_codes::Fields;

/// When its marker rises, in microseconds, and its fields: its time and its control functions.
#[derive(Clone, Copy, PartialEq, Eq)]
pub struct Shown {
    pub rise: u64,
    pub fields: Fields,
}

pub fn is_same(one: &Shown, other: &Shown) -> bool
    ensures { IsTrue result ↔ (one.now ≡ other.now) }
{
    one == other
}
