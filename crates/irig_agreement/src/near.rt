//! Whether two times are near each other.

ghost use Rattle.std.specs.Prelude.{◌≡◌, ◌≤◌, ◌<◌, ◌^◌};
ghost use Rattle.irig_agreement.specs.Agreement.{is_later_by, is_within};

use irig_law::micros_after;
use irig_times::Time;

/// Whether they are apart by at most that many microseconds.
pub fn is_within(century: u32, most: u128, one: &Time, other: &Time) -> bool
    requires century { century ≤ 99 }
    ensures { result ≡ is_within century most one.now other.now }
{
    *one == *other
        || is_later_by(century, most, one, other)
        || is_later_by(century, most, other, one)
}

/// Whether the second one is so much later at most, and not as early.
fn is_later_by(century: u32, most: u128, from: &Time, to: &Time) -> bool
    requires century { century ≤ 99 }
    ensures { result ≡ is_later_by century most from.now to.now }
{
    let micros = micros_after(century, from, to);
    0 < micros && micros <= most
}
