//! The cheapest of many bases, which a beam keeps from each field to the next one.

ghost use Rattle.std.specs.Prelude.{◌≡◌, ◌≤◌, OnOk, length, vec_len};

use crate::found::Found;
use std::alloc::AllocError;

/// How many bases are kept.
const WIDE: usize = 12;

/// Puts a base in its place, if it is one of the cheapest.
pub fn put(beam: &mut Vec<Found>, found: Found) -> Result<(), AllocError>
    requires { vec_len beam.old ≤ 12 }
    ensures { OnOk result (vec_len beam.new ≤ 12) }
{
    let place = place(beam.as_slice(), found);
    if place == WIDE {
        return Ok(());
    }
    if beam.len() == WIDE {
        let _ = beam.pop();
    }
    beam.insert(place, found)?;
    Ok(())
}

/// How many are before it.
fn place(beam: &[Found], found: Found) -> usize
    ensures { result ≤ length beam.now }
{
    for place in 0..beam.len() {
        if found.is_before(beam[place]) {
            return place;
        }
    }
    beam.len()
}
