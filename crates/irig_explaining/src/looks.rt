//! How little the wire after a rise looks like an element.

ghost use Rattle.std.specs.Prelude.{◌≡◌, ◌+◌, ◌*◌, ◌^◌, ◌<◌, ◌≤◌, All, length};
ghost use Rattle.irig_explaining.specs.Looks.{Fits, IsTimely, cheapest_fall, extra, high, inside, look};
ghost use Rattle.irig_explaining.specs.Looks.{one_pulse, role_look, width};

use crate::division::quotient;
use crate::pulse::Pulse;
use crate::role::Role;
use crate::stretch::Stretch;
use crate::table::{
    EXTRA, MORE, NO_FALL, NOTHING, ONE, PART, TURNED, WIDTH, WIDTH_MORE, WIDTH_MOST,
};

/// How many of some pulses rise before a moment, up to the first that does not.
pub(crate) fn count_inside(end: u64, pulses: &[Pulse]) -> usize
    ensures exact { result ≡ length (inside end pulses.now) }
    ensures within { result ≤ length pulses.now }
{
    match pulses {
        [pulse, rest @ ..] if pulse.rise < end => 1 + count_inside(end, rest),
        _ => 0,
    }
}

/// How long these are high, up to the moment.
pub(crate) fn high_inside(end: u64, pulses: &[Pulse]) -> u64
    requires end { end ≤ 2 ^ 41 }
    requires few { length pulses.now ≤ 12 }
    ensures exact { result ≡ high end (inside end pulses.now) }
    ensures small { result ≤ length pulses.now * 2 ^ 41 }
{
    match pulses {
        [pulse, rest @ ..] if pulse.rise < end => {
            pulse.fall.min(end).saturating_sub(pulse.rise) + high_inside(end, rest)
        }
        _ => 0,
    }
}

/// What pulses too many in an element cost.
pub(crate) fn extra(count: usize) -> u64
    requires { count ≤ 12 }
    ensures exact { result ≡ extra count }
    ensures small { result ≤ 2 ^ 10 }
{
    if count <= 1 {
        return 0;
    }
    EXTRA + MORE * (count as u64 - 2)
}

impl Stretch {
    /// What a width costs that is off by that much from the one of the class.
    fn width(self, off: u64) -> u64
        requires { Fits self }
        ensures exact { result ≡ width self off }
        ensures small { result ≤ 96 }
    {
        if self.interval < off {
            return WIDTH_MOST;
        }
        let square = quotient(8 * off * off, self.width_spread * self.width_spread);
        let linear = WIDTH + quotient(WIDTH_MORE * off, self.interval);
        square.min(linear).min(WIDTH_MOST)
    }

    /// What it costs that one pulse of some tenths of an interval was sent that ends at a fall.
    fn one_pulse(self, tenths: u64, low: u64, seen: u64, fall: u64) -> u64
        requires fits { Fits self }
        requires tenths { tenths ≤ 10 }
        requires low { low ≤ 2 ^ 46 }
        requires fall { fall ≤ 2 ^ 40 }
        ensures { result ≡ one_pulse self tenths low seen fall }
    {
        let other = (low + self.high).saturating_sub(seen);
        let off = (PART * fall.saturating_sub(self.begin)).abs_diff(tenths * self.interval / 10);
        self.extra + quotient(TURNED * PART * other, self.interval) + self.width(off)
    }

    /// The cheapest of the falls up to the end. Before these pulses the wire was low between others
    /// for some time, and high for some time, and last fell at a moment.
    fn cheapest_fall(self, tenths: u64, low: u64, seen: u64, last: u64, pulses: &[Pulse]) -> u64
        requires fits { Fits self }
        requires tenths { tenths ≤ 10 }
        requires timely { All IsTimely pulses.now }
        requires low { low + length pulses.now * 2 ^ 40 ≤ 2 ^ 46 }
        requires seen { seen + length pulses.now * 2 ^ 40 ≤ 2 ^ 46 }
        ensures exact { result ≡ cheapest_fall self tenths low seen last pulses.now }
        ensures small { result ≤ 112 }
    {
        match pulses {
            [pulse, rest @ ..] if pulse.fall <= self.end => {
                let low = low + pulse.rise.saturating_sub(last);
                let seen = seen + pulse.fall.saturating_sub(pulse.rise);
                let one = self.one_pulse(tenths, low, seen, pulse.fall);
                one.min(self.cheapest_fall(tenths, low, seen, pulse.fall, rest))
            }
            _ => NOTHING,
        }
    }

    /// What an element costs as a pulse of some tenths of an interval.
    pub(crate) fn look(self, tenths: u64, pulses: &[Pulse]) -> u64
        requires fits { Fits self }
        requires tenths { tenths ≤ 10 }
        requires timely { All IsTimely pulses.now }
        requires few { length pulses.now ≤ 12 }
        ensures exact { result ≡ look self tenths pulses.now }
        ensures small { result ≤ 112 }
    {
        match pulses {
            [pulse, ..] if pulse.fall <= self.end => {
                self.cheapest_fall(tenths, 0, 0, pulse.rise, pulses)
            }
            _ => NO_FALL,
        }
    }

    pub(crate) fn role_look(self, role: Role, pulses: &[Pulse]) -> u64
        requires fits { Fits self }
        requires timely { All IsTimely pulses.now }
        requires few { length pulses.now ≤ 12 }
        ensures exact { result ≡ role_look self role pulses.now }
        ensures small { result ≤ 128 }
    {
        match role {
            Role::Unused => self.look(2, pulses),
            Role::Bit => self.look(2, pulses).min(self.look(5, pulses) + ONE),
            Role::Position => self.look(8, pulses),
        }
    }
}
