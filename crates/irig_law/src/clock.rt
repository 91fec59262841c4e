//! How many elements a distance between two rises is, by the recorder's clock.

ghost use Rattle.std.specs.Prelude.{◌≡◌, ◌<◌, ◌≤◌, ◌^◌, IfSome};
ghost use Rattle.irig_law.specs.Names.{hop, is_near, is_sure, nearest};

/// The least that the 99 intervals of a frame last in any format, in microseconds.
const SHORTEST: u64 = 8_192;

/// A clock as a frame shows it: its 99 intervals last `span` microseconds. Each interval can be off
/// by `slack` ninety-ninths of a microsecond, and a rise by `tenth` of them.
#[derive(Clone, Copy)]
pub struct Clock {
    pub span: u64,
    pub slack: u64,
    pub tenth: u64,
}

/// The elements after a pulse at which another one is that rises `distance` microseconds after it,
/// if that is sure.
pub fn hop_over(clock: &Clock, distance: u64) -> Option<u64>
    requires { (distance ≤ 2 ^ 40) × (clock.now.span ≤ 2 ^ 40) }
    ensures hop { result ≡ hop clock.now distance }
    ensures low { IfSome result (λ n. n < 2 ^ 36) }
{
    if clock.span < SHORTEST {
        return None;
    }
    let elements = nearest(clock, distance);
    if 0 < elements && is_near(clock, distance, elements) && is_sure(clock, elements) {
        Some(elements)
    } else {
        None
    }
}

/// Whether the number of elements that `distance` is nearest to is the only one that it can be.
pub fn is_sure_at(clock: &Clock, distance: u64) -> bool
    requires { (distance ≤ 2 ^ 40) × (clock.now.span ≤ 2 ^ 40) }
    ensures { result ≡ is_sure clock.now (nearest clock.now distance) }
{
    if clock.span < SHORTEST {
        return false;
    }
    is_sure(clock, nearest(clock, distance))
}

/// How many elements a distance is, to the nearest number.
fn nearest(clock: &Clock, distance: u64) -> u64
    requires { (8192 ≤ clock.now.span) × (distance ≤ 2 ^ 40) × (clock.now.span ≤ 2 ^ 40) }
    ensures nearest { result ≡ nearest clock.now distance }
    ensures low { result < 2 ^ 36 }
{
    (2 * (99 * distance) + clock.span) / (2 * clock.span)
}

/// Whether a distance is this number of elements, to a tenth of one and to what the clock can be
/// off.
fn is_near(clock: &Clock, distance: u64, elements: u64) -> bool
    requires { (distance ≤ 2 ^ 40) × (elements < 2 ^ 36) }
    ensures { result ≡ is_near clock.now distance elements }
{
    let distance = 99 * distance as u128;
    let whole = elements as u128 * clock.span as u128;
    let stray = clock.tenth as u128 + elements as u128 * clock.slack as u128;
    distance <= whole + stray && whole <= distance + stray
}

/// Whether no other number of elements can be as long.
fn is_sure(clock: &Clock, elements: u64) -> bool
    requires { elements < 2 ^ 36 }
    ensures { result ≡ is_sure clock.now elements }
{
    let slack = clock.slack as u128;
    SHORTEST <= clock.span
        && clock.tenth as u128 + 2 * (elements as u128 * slack) + slack < clock.span as u128
}
