//! The middle ones of distances, worked out by hand.

ghost use Rattle.std.specs.Prelude.{◌^◌, ◌<◌};

use irig_explaining::middles;
use std::alloc::{AllocError, Global};

/// The second is two in one; between the fifth and the sixth is a pulse that is not one.
static DISTANCES: [u64; 7] = [10, 20, 11, 10, 3, 7, 10];

/// At the ends of the first and the last three.
static OF_THREE: [u64; 7] = [11, 11, 11, 10, 7, 7, 7];

/// Of all, since more are wanted than there are.
static OF_ALL: [u64; 7] = [10, 10, 10, 10, 10, 10, 10];

static OF_TWO: [u64; 2] = [7, 7];

fn are_middles(
    alloc: Global,
    distances: &[u64],
    reach: usize,
    wanted: &[u64],
) -> Result<bool, AllocError>
    requires { reach < 2 ^ 31 }
{
    let found = middles(alloc, distances, reach)?;
    Ok(found.as_slice() == wanted)
}

#[test]
fn the_middle_is_that_of_the_distances_around(rt: HostRuntime) {
    assert!(&rt; are_middles(rt.alloc(), &DISTANCES, 1, &OF_THREE) == Ok(true));
    assert!(&rt; are_middles(rt.alloc(), &DISTANCES, 15, &OF_ALL) == Ok(true));
}

#[test]
fn of_two_the_later_one_is_the_middle(rt: HostRuntime) {
    assert!(&rt; are_middles(rt.alloc(), &[5, 7], 3, &OF_TWO) == Ok(true));
}
