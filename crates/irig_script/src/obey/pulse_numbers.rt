//! The numbers of the pulses that addresses and ranges mean in a session, and its times.

ghost use Rattle.std.specs.Prelude.{◌≡◌, ◌+◌, ◌-◌};
ghost use Rattle.irig_track.specs.Shifts.{ahead, back};
ghost use Rattle.irig_script.specs.Obey.Machine.{present_in};
ghost use Rattle.irig_script.specs.Obey.PulseNumbers.{mark_of, base_of, pulse_at, number_at};
ghost use Rattle.irig_script.specs.Obey.PulseNumbers.{first_of, last_of, join_last_of, time_of};

use irig_edit::Session;
use irig_lines::{Address, Base, Range, Time};
use irig_saved::Letter;

/// In microseconds.
fn mark(session: &Session, letter: &Letter) -> Option<u64>
    ensures { result ≡ mark_of letter.now (present_in session.now) }
{
    session.mark_time(letter.byte())
}

/// The number that an address counts from. A mark means the last pulse that rises by it; whether
/// there is a pulse of a number is tested in `pulse_at`.
fn base(session: &Session, base: &Base) -> Option<u64>
    ensures { result ≡ base_of base.now (present_in session.now) }
{
    match base {
        Base::Number(number) => Some(*number),
        Base::Current => Some(session.cursor() as u64),
        Base::Last => Some(session.len() as u64),
        Base::Mark(letter) => match mark(session, letter) {
            Some(time) => Some(session.find(time) as u64),
            None => None,
        },
    }
}

/// The number of a pulse, 0 if the sum is below 0; 128 bits hold the sum. In the contract `ahead`
/// is an offset above 0, and `back` the size of one below 0.
fn number_from(number: u64, by: u64, offset: i64) -> u128
    ensures { result ≡ number + by + ahead offset - back offset }
{
    let sum = u128::from(number) + u128::from(by);
    let size = u128::from(offset.unsigned_abs());
    if offset < 0 {
        sum.saturating_sub(size)
    } else {
        sum + size
    }
}

/// The number of the pulse that is `by` pulses after the one of an address, from 1; 0 if there is
/// none. The pulse of the address itself does not have to be there.
fn pulse_at(session: &Session, by: u64, address: &Address) -> usize
    ensures { result ≡ pulse_at by address.now (present_in session.now) }
{
    let Some(number) = base(session, &address.base) else {
        return 0;
    };
    let number = number_from(number, by, address.offset);
    if number <= session.len() as u128 {
        number as usize
    } else {
        0
    }
}

/// The number of the pulse of an address, from 1; 0 if there is none.
pub fn number_at(session: &Session, address: &Address) -> usize
    ensures { result ≡ number_at address.now (present_in session.now) }
{
    pulse_at(session, 0, address)
}

/// The numbers of the first and the last pulse of a range; which is the greater is not tested.
pub fn ends(session: &Session, range: &Range) -> (usize, usize)
    ensures { result ≡ (
      first_of range.now (present_in session.now),
      last_of range.now (present_in session.now),
    ) }
{
    match range {
        Range::One(address) => {
            let number = number_at(session, address);
            (number, number)
        }
        Range::Two(first, last) => (number_at(session, first), number_at(session, last)),
    }
}

/// The same for `join`, of which one address means its pulse and the next one.
pub fn join_ends(session: &Session, range: &Range) -> (usize, usize)
    ensures { result ≡ (
      first_of range.now (present_in session.now),
      join_last_of range.now (present_in session.now),
    ) }
{
    match range {
        Range::One(address) => (number_at(session, address), pulse_at(session, 1, address)),
        Range::Two(first, last) => (number_at(session, first), number_at(session, last)),
    }
}

/// In microseconds; of a mark that is not set 2^64 - 1, which the session refuses.
pub fn time(session: &Session, time: &Time) -> u64
    ensures { result ≡ time_of time.now (present_in session.now) }
{
    match time {
        Time::At(micros) => *micros,
        Time::Mark(letter) => mark(session, letter).unwrap_or(u64::MAX),
    }
}
