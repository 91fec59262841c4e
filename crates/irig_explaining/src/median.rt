//! Of the distances around each rise the middle one.

ghost use Rattle.std.specs.Prelude.{◌≡◌, ◌+◌, ◌*◌, ◌^◌, ◌<◌, ◌≤◌, IfOk, length};
ghost use Rattle.irig_explaining.specs.Middles.{AreMiddles, IsMiddle, around};

use std::alloc::{AllocError, Global};

/// For each of some distances the middle one of those around it: `reach` before it, as many after
/// it, and itself. At an end they are the first or last ones, and all if there are fewer.
pub fn middles(alloc: Global, distances: &[u64], reach: usize) -> Result<Vec<u64>, AllocError>
    requires { reach < 2 ^ 31 }
    ensures { IfOk result (λ middles. AreMiddles reach distances.now middles.items) }
{
    let mut middles = Vec::new(alloc);
    for place in 0..distances.len() {
        let around = Vec::from_slice(alloc, nearest(distances, reach, place))?;
        middles.push(middle(around))?;
    }
    Ok(middles)
}

/// The distances around one.
pub(crate) fn nearest<T>(distances: &[T], reach: usize, place: usize) -> &[T]
    requires { reach < 2 ^ 31 }
    ensures exact { result.now ≡ around reach distances.now place }
    ensures few { length result.now ≤ 2 * reach + 1 }
{
    let count = (2 * reach + 1).min(distances.len());
    let start = place.saturating_sub(reach).min(distances.len() - count);
    &distances[start..start + count]
}

/// The middle one of some numbers; of an even number the later one of both, and 0 of none.
pub(crate) fn middle(numbers: Vec<u64>) -> u64
    ensures { IsMiddle numbers.items result }
{
    let mut sorted = numbers;
    sorted.sort_unstable();
    let half = sorted.len() / 2;
    if sorted.len() <= half {
        return 0;
    }
    sorted[half]
}
