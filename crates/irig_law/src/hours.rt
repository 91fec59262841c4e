//! Times in one hour, in minutes of 60 seconds, and within a second 60. Nothing is counted over the
//! end of an hour. Bounds in `requires`, as 2 ^ 60, only keep sums in their types.

ghost use Rattle.std.specs.Prelude.{◌≡◌, ◌<◌, ◌≤◌, ◌+◌, ◌*◌, ◌^◌, IfSome};
ghost use Rattle.irig_law.specs.Hours.{at_hour, at_minute, earlier_by, earlier_in_hour};
ghost use Rattle.irig_law.specs.Hours.{hour_micros, later_by, later_in_hour};

use irig_times::Time;

/// The microseconds of a minute without a second 60.
const MINUTE: u64 = 60_000_000;

/// The microseconds of a minute with it.
const LONG_MINUTE: u128 = 61_000_000;

/// The microseconds of an hour of minutes without one.
const HOUR: u128 = 3_600_000_000;

/// The time `many` periods later, if it is in the same hour, or in the same second 60. No period
/// later it is the time itself.
pub fn later_in_hour(period: u64, many: u64, time: &Time) -> Option<Time>
    requires small { (period < 2 ^ 32) × (many < 2 ^ 60) }
    requires minute { time.now.micros < 61000000 }
    ensures time { result ≡ later_in_hour period many time.now }
    ensures minute { IfSome result (λ t. t.micros < 61000000) }
{
    if many == 0 {
        return Some(*time);
    }
    later_by(many as u128 * period as u128, time)
}

/// The time `many` periods earlier, if it is in the same hour.
pub fn earlier_in_hour(period: u64, many: u64, time: &Time) -> Option<Time>
    requires small { (period < 2 ^ 32) × (many < 2 ^ 60) }
    requires minute { time.now.micros < 61000000 }
    ensures time { result ≡ earlier_in_hour period many time.now }
    ensures minute { IfSome result (λ t. t.micros < 61000000) }
{
    if many == 0 {
        return Some(*time);
    }
    earlier_by(many as u128 * period as u128, time)
}

/// The time some microseconds later.
fn later_by(micros: u128, time: &Time) -> Option<Time>
    requires small { micros < 2 ^ 92 }
    requires minute { time.now.micros < 61000000 }
    ensures time { result ≡ later_by micros time.now }
    ensures minute { IfSome result (λ t. t.micros < 61000000) }
{
    let in_minute = time.micros as u128 + micros;
    let in_hour = hour_micros(time) + micros;
    if MINUTE <= time.micros {
        if in_minute < LONG_MINUTE {
            Some(at_minute(time, in_minute as u64))
        } else {
            None
        }
    } else if in_hour < HOUR {
        Some(at_hour(time, in_hour as u64))
    } else {
        None
    }
}

/// The time some microseconds earlier.
fn earlier_by(micros: u128, time: &Time) -> Option<Time>
    requires small { micros < 2 ^ 92 }
    requires minute { time.now.micros < 61000000 }
    ensures time { result ≡ earlier_by micros time.now }
    ensures minute { IfSome result (λ t. t.micros < 61000000) }
{
    let in_minute = time.micros as u128;
    let in_hour = hour_micros(time);
    if MINUTE as u128 + micros <= in_minute {
        Some(at_minute(time, (in_minute - micros) as u64))
    } else if micros <= in_hour {
        Some(at_hour(time, (in_hour - micros) as u64))
    } else {
        None
    }
}

/// The microseconds since the hour of a time began.
fn hour_micros(time: &Time) -> u128
    requires { time.now.micros < 61000000 }
    ensures micros { result ≡ hour_micros time.now }
    ensures low { result + 60000000 ≤ 60000000 * 2 ^ 32 + time.now.micros }
{
    MINUTE as u128 * time.minutes as u128 + time.micros as u128
}

/// The time in the minute of another one, by the microseconds since it began.
fn at_minute(time: &Time, micros: u64) -> Time
    ensures { result ≡ at_minute time.now micros }
{
    Time { micros, ..*time }
}

/// The time in the hour of another one, by the microseconds since it began.
fn at_hour(time: &Time, micros: u64) -> Time
    requires { micros < 60000000 * 2 ^ 32 }
    ensures time { result ≡ at_hour time.now micros }
    ensures minute { result.micros < 60000000 }
{
    Time {
        minutes: (micros / MINUTE) as u32,
        micros: micros % MINUTE,
        ..*time
    }
}
