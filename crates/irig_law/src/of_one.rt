//! Which chains of frames are of one story, and which story is mixed with another one.

ghost use Rattle.std.specs.Prelude.{◌≡◌, ◌<◌, ◌≤◌, ◌+◌, ◌-◌, ◌^◌, ℕ, IfOk, Some, length, min};
ghost use Rattle.std.specs.Prelude.{slice_get};
ghost use Rattle.irig_law.specs.OfOne.{any_from, is_beyond, is_doubted, is_right, of_one, share};
ghost use Rattle.irig_law.specs.OfOne.{size_of, surrounds};

use crate::chain::{Chain, agree};
use irig_codes::Format;
use std::alloc::{AllocError, Global};

/// How many chains on a chain can be of the same story.
const NEAR: usize = 495;

/// Whether two chains are of one story.
fn of_one(format: Format, century: u32, chains: &[Chain], one: usize, other: usize) -> bool
    requires century { century ≤ 99 }
    requires there { (one < length chains.now) × (other < length chains.now) }
    ensures { result ≡ of_one format century chains.now one other }
{
    if one == other {
        return true;
    }
    let early = one.min(other);
    let late = one.max(other);
    late - early <= NEAR && agree(format, century, &chains[early].last, &chains[late].first)
}

/// How many frames a chain adds to the story of another one.
fn share(format: Format, century: u32, chains: &[Chain], one: usize, other: usize) -> u128
    requires century { century ≤ 99 }
    requires there { (one < length chains.now) × (other < length chains.now) }
    ensures share { result ≡ share format century chains.now one other }
    ensures low { result < 2 ^ 64 }
{
    if of_one(format, century, chains, one, other) {
        chains[other].many as u128
    } else {
        0
    }
}

/// How many frames the story of a chain has.
fn size_of(format: Format, century: u32, chains: &[Chain], one: usize) -> u128
    requires century { century ≤ 99 }
    requires there { one < length chains.now }
    ensures size { result ≡ size_of format century chains.now one }
    ensures low { result < 2 ^ 80 }
{
    let mut total: u128 = 0;
    let first = one.saturating_sub(NEAR);
    let end = chains.len().min(one + NEAR + 1);
    for other in first..end {
        total += share(format, century, chains, one, other);
    }
    total
}

/// The same of each chain.
pub fn sizes_of(
    alloc: Global,
    format: Format,
    century: u32,
    chains: &[Chain],
) -> Result<Vec<u128>, AllocError>
    requires century { century ≤ 99 }
    ensures each { IfOk result (λ list. length list.items ≡ length chains.now) }
    ensures sizes { IfOk result (λ list. (i n : ℕ) → slice_get list.items i ≡ Some n
        → (n ≡ size_of format century chains.now i) × (n < 2 ^ 80)) }
{
    let mut list = Vec::new(alloc);
    for one in 0..chains.len() {
        list.push(size_of(format, century, chains, one))?;
    }
    Ok(list)
}

/// Whether one of the chains from `from` on, and before `to`, is of the story of `one`.
fn is_passed(
    format: Format,
    century: u32,
    chains: &[Chain],
    one: usize,
    from: usize,
    to: usize,
) -> bool
    requires century { century ≤ 99 }
    requires there { (one < length chains.now) × (to ≤ length chains.now) }
    ensures { result ≡ any_from (of_one format century chains.now one) from (to - from) }
{
    for place in from..to {
        if of_one(format, century, chains, one, place) {
            return true;
        }
    }
    false
}

/// Whether a chain `far` is of the story of `other` and not of that of `one`, and one of the story
/// of `one` is between `other` and it.
fn is_beyond(
    format: Format,
    century: u32,
    chains: &[Chain],
    one: usize,
    other: usize,
    far: usize,
) -> bool
    requires century { century ≤ 99 }
    requires there { (one < length chains.now) × (other < length chains.now) }
    requires far { far < length chains.now }
    ensures { result ≡ is_beyond format century chains.now one other far }
{
    of_one(format, century, chains, other, far)
        && !of_one(format, century, chains, one, far)
        && is_passed(format, century, chains, one, other + 1, far)
}

/// Whether one of the chains after `other` is beyond the story of `one`.
fn reaches_beyond(format: Format, century: u32, chains: &[Chain], one: usize, other: usize) -> bool
    requires century { century ≤ 99 }
    requires there { (one < length chains.now) × (other < length chains.now) }
    ensures { result ≡ any_from (is_beyond format century chains.now one other) (other + 1)
        (min (length chains.now) (other + 496) - (other + 1)) }
{
    let end = chains.len().min(other + NEAR + 1);
    for far in other + 1..end {
        if is_beyond(format, century, chains, one, other, far) {
            return true;
        }
    }
    false
}

/// Whether the story of `other` has a chain before one of the story of `one`, and one after it, and
/// at least half as many frames.
fn surrounds(
    format: Format,
    century: u32,
    chains: &[Chain],
    sizes: &[u128],
    one: usize,
    other: usize,
) -> bool
    requires century { century ≤ 99 }
    requires there { (one < length chains.now) × (other < length chains.now) }
    requires each { length sizes.now ≡ length chains.now }
    requires sizes { (i n : ℕ) → slice_get sizes.now i ≡ Some n
        → (n ≡ size_of format century chains.now i) × (n < 2 ^ 80) }
    ensures { result ≡ surrounds format century chains.now one other }
{
    let size = size_at(sizes, one);
    let size_too = size_at(sizes, other);
    !of_one(format, century, chains, one, other)
        && size <= 2 * size_too
        && reaches_beyond(format, century, chains, one, other)
}

/// The size at a place.
fn size_at(sizes: &[u128], place: usize) -> u128
    requires { place < length sizes.now }
    ensures { slice_get sizes.now place ≡ Some result }
{
    sizes[place]
}

/// Whether the story of a chain is mixed with another one that has at least half as many frames.
fn is_doubted(format: Format, century: u32, chains: &[Chain], sizes: &[u128], one: usize) -> bool
    requires century { century ≤ 99 }
    requires there { one < length chains.now }
    requires each { length sizes.now ≡ length chains.now }
    requires sizes { (i n : ℕ) → slice_get sizes.now i ≡ Some n
        → (n ≡ size_of format century chains.now i) × (n < 2 ^ 80) }
    ensures { result ≡ is_doubted format century chains.now one }
{
    let end = chains.len().min(one + NEAR);
    for other in one.saturating_sub(2 * NEAR)..end {
        if surrounds(format, century, chains, sizes, one, other) {
            return true;
        }
    }
    false
}

/// Whether the frames of a chain are believed.
pub fn is_right(format: Format, century: u32, chains: &[Chain], sizes: &[u128], one: usize) -> bool
    requires century { century ≤ 99 }
    requires each { length sizes.now ≡ length chains.now }
    requires sizes { (i n : ℕ) → slice_get sizes.now i ≡ Some n
        → (n ≡ size_of format century chains.now i) × (n < 2 ^ 80) }
    ensures { result ≡ is_right format century chains.now one }
{
    one < chains.len()
        && 1 < size_at(sizes, one)
        && !is_doubted(format, century, chains, sizes, one)
}
