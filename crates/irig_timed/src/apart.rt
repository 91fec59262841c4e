//! How many elements one pulse is after another, by their times and the calendar.

ghost use Rattle.std.specs.Prelude.{◌≡◌, ◌<◌, ◌≤◌, ◌^◌, IfSome};
ghost use Rattle.irig_times.specs.Follows.{same_time};
ghost use Rattle.irig_timed.specs.Line.{elements_after, elements_by, periods_after};

use irig_codes::Format;
use irig_law::{Point, periods_apart};
use irig_times::Time;

/// The elements from one pulse to another, by the calendar; 0 if it is not after it.
pub fn elements_after(format: Format, century: u32, from: &Point, to: &Point) -> u64
    requires century { century ≤ 99 }
    requires few { (from.now.element < 100) × (to.now.element < 100) }
    ensures elements { result ≡ elements_after format century from.now to.now }
    ensures low { result < 2 ^ 40 }
{
    let periods = periods_after(format, century, &from.frame, &to.frame);
    elements_by(periods, from.element as u64, to.element as u64)
}

/// How many periods one frame of the code is after another.
fn periods_after(format: Format, century: u32, from: &Time, to: &Time) -> Option<u64>
    requires century { century ≤ 99 }
    ensures periods { result ≡ periods_after format century from.now to.now }
    ensures low { IfSome result (λ n. n < 2 ^ 33) }
{
    if *from == *to {
        return Some(0);
    }
    periods_apart(format, century, from, to)
}

/// The elements from one of a frame to one of a frame that many periods later.
fn elements_by(periods: Option<u64>, from: u64, to: u64) -> u64
    requires few { (from < 100) × (to < 100) }
    requires low { IfSome periods (λ n. n < 2 ^ 33) }
    ensures elements { result ≡ elements_by periods from to }
    ensures low { result < 2 ^ 40 }
{
    match periods {
        Some(periods) => (100 * periods + to).saturating_sub(from),
        None => 0,
    }
}
