//! How far distances and widths usually are off.

ghost use Rattle.std.specs.Prelude.{◌≡◌, ◌++◌, ◌*◌, ◌^◌, ◌<◌, ◌≤◌, All, IfOk, length, map};
ghost use Rattle.irig_explaining.specs.Clocks.{IsSpread, IsWidthSpread, off_width, offs};
ghost use Rattle.irig_explaining.specs.Looks.{IsTimely};

use crate::median::middle;
use crate::pulse::Pulse;
use crate::table::PART;
use std::alloc::{AllocError, Global};

fn offs(alloc: Global, numbers: &[u64], others: &[u64]) -> Result<Vec<u64>, AllocError>
    requires { length numbers.now ≡ length others.now }
    ensures { IfOk result (λ found. found.items ≡ offs numbers.now others.now) }
{
    let mut found = Vec::new(alloc);
    for index in 0..numbers.len() {
        found.push(numbers[index].abs_diff(others[index]))?;
    }
    Ok(found)
}

/// How far distances usually are off their middle one.
pub(crate) fn spread(
    alloc: Global,
    nominal: u64,
    singles: &[u64],
    middles: &[u64],
) -> Result<u64, AllocError>
    requires same { length singles.now ≡ length middles.now }
    requires nominal { nominal ≤ 2 ^ 25 }
    ensures exact { IfOk result (λ spread. IsSpread nominal singles.now middles.now spread) }
    ensures some { IfOk result (λ spread. 0 < spread) }
    ensures small { IfOk result (λ spread. spread < 2 ^ 32) }
{
    let offs = offs(alloc, singles, middles)?;
    let usual = middle(offs);
    let more = 3 * usual.min(nominal) / 2;
    Ok(more.max(nominal / 250).max(PART))
}

fn off_width(nominal: u64, pulse: Pulse) -> u64
    requires timely { IsTimely pulse }
    requires nominal { nominal ≤ 2 ^ 25 }
    ensures { result ≡ off_width nominal pulse }
{
    let width = PART * pulse.fall.saturating_sub(pulse.rise);
    let zero = width.abs_diff(2 * nominal / 10);
    let one = width.abs_diff(5 * nominal / 10);
    zero.min(one).min(width.abs_diff(8 * nominal / 10))
}

fn off_widths(alloc: Global, nominal: u64, pulses: &[Pulse]) -> Result<Vec<u64>, AllocError>
    requires timely { All IsTimely pulses.now }
    requires nominal { nominal ≤ 2 ^ 25 }
    ensures { IfOk result (λ found. found.items ≡ map (off_width nominal) pulses.now) }
{
    let mut found = Vec::new(alloc);
    for pulse in pulses {
        found.push(off_width(nominal, *pulse))?;
    }
    Ok(found)
}

/// How far widths usually are off that of a class.
pub(crate) fn width_spread(alloc: Global, nominal: u64, pulses: &[Pulse]) -> Result<u64, AllocError>
    requires timely { All IsTimely pulses.now }
    requires least { 64 ≤ nominal }
    requires nominal { nominal ≤ 2 ^ 25 }
    ensures exact { IfOk result (λ spread. IsWidthSpread nominal pulses.now spread) }
    ensures some { IfOk result (λ spread. 0 < spread) }
    ensures small { IfOk result (λ spread. spread < 2 ^ 32) }
{
    let offs = off_widths(alloc, nominal, pulses)?;
    let usual = middle(offs);
    let more = 3 * usual.min(nominal) / 2;
    Ok(more.max(nominal / 64))
}
