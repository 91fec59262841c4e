//! The elements of a format that carry a bit of a field, as masks.

ghost use Rattle.std.specs.Prelude.{◌≡◌};
ghost use Rattle.irig_codes.specs.{Slots.slots_at, Used.masks_of, Used.used_of};

use crate::format::{Format, Kind};
use crate::table;

/// The masks of expressions 0 to 7, also if the kind does not permit one.
fn masks(kind: Kind) -> &'static [u128; 8]
    ensures { result.now ≡ masks_of kind }
{
    match kind {
        Kind::A => &table::A_MASKS,
        Kind::B => &table::B_MASKS,
        Kind::E => &table::E_MASKS,
        Kind::G => &table::G_MASKS,
    }
}

/// Element k, from 0, is bit k.
pub fn used(format: Format) -> u128
    ensures { result ≡ used_of (slots_at format) }
{
    masks(format.kind())[format.expression() as usize]
}
