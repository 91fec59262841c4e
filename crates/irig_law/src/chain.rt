//! Which frames agree with each other, and their chains.

ghost use Rattle.std.specs.Prelude.{◌≡◌, ◌<◌, ◌≤◌, ◌^◌};
ghost use Rattle.irig_law.specs.Chains.{agree, agree_by, alone, is_apart, longer};

use crate::calendar::micros_after;
use crate::fine::Fine;
use irig_codes::Format;

/// How many periods apart two frames are that can agree, at most and one more.
const FARTHEST: u128 = 495;

/// Frames next to each other, each but the first in agreement with the one before it.
#[derive(Clone, Copy)]
pub struct Chain {
    pub first: Fine,
    pub last: Fine,
    pub many: usize,
}

/// Whether two markers are some microseconds of the code apart, by the clock of both frames, to
/// half a period.
fn is_apart(period: u64, micros: u128, from: &Fine, to: &Fine) -> bool
    requires { (period < 2 ^ 25) × (micros < 2 ^ 35) }
    ensures { result ≡ is_apart period micros from.now to.now }
{
    let both = from.span as u128 + to.span as u128;
    let found = 198 * (period as u128 * to.rise.saturating_sub(from.rise) as u128);
    let said = 100 * (micros * both);
    2 * found.abs_diff(said) <= 100 * (period as u128 * both)
}

/// Whether two frames agree whose times are some microseconds apart.
fn agree_by(period: u64, micros: u128, from: &Fine, to: &Fine) -> bool
    requires { (0 < period) × (period < 2 ^ 25) }
    ensures { result ≡ agree_by period micros from.now to.now }
{
    0 < micros
        && micros < FARTHEST * period as u128
        && micros % period as u128 == 0
        && is_apart(period, micros, from, to)
}

/// Whether the second frame agrees with the first: it is as many periods later by its time as by
/// the recorder's clock.
pub fn agree(format: Format, century: u32, from: &Fine, to: &Fine) -> bool
    requires century { century ≤ 99 }
    ensures { result ≡ agree format century from.now to.now }
{
    let micros = micros_after(century, &from.frame.time, &to.frame.time);
    agree_by(format.frame_period(), micros, from, to)
}

/// A chain of one frame.
pub fn alone(frame: &Fine) -> Chain
    ensures { result ≡ alone frame.now }
{
    Chain {
        first: *frame,
        last: *frame,
        many: 1,
    }
}

/// A chain that goes on to a frame.
pub fn longer(chain: &Chain, frame: &Fine) -> Chain
    requires { chain.now.many < 2 ^ 63 }
    ensures { result ≡ longer chain.now frame.now }
{
    Chain {
        first: chain.first,
        last: *frame,
        many: chain.many + 1,
    }
}
