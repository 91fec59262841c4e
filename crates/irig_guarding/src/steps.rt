//! Whether the loose pulses of the recording are still in their places.

ghost use Rattle.std.specs.Prelude.{◌≡◌, IfErr, IsTrue, OnErr, OnOk, true};
ghost use Rattle.irig_safety.specs.InStep.{has_place};
ghost use Rattle.irig_guarding.specs.Steps.{AreInPlace, GoneFrom, IsGoneBy, StepsStay};

use irig_edit::Session;
use irig_safety::{Fault, Original, is_in_place};

/// Whether each loose pulse of the recording is in its place.
pub fn check_steps(session: &Session, opened: &Original) -> Result<(), Fault>
    ensures stay { OnOk result (StepsStay opened.now session.now.state) }
    ensures gone { OnErr result (StepsStay opened.now session.now.state → ⊥) }
    ensures fault { IfErr result (IsGoneBy opened.now session.now.state) }
{
    check_times(session, opened.loose())
}

/// Whether a pulse takes the place of each one that rose at one of `times`, which are in rising
/// order.
fn check_times(session: &Session, times: &[u64]) -> Result<(), Fault>
    ensures stay { OnOk result (AreInPlace session.now.state times.now) }
    ensures gone { OnErr result (AreInPlace session.now.state times.now → ⊥) }
    ensures fault { IfErr result (GoneFrom session.now.state times.now) }
{
    let mut next = 1;
    for time in times {
        if !has_place(session, *time, &mut next) {
            return Err(Fault::Removed(*time));
        }
    }
    Ok(())
}

/// Whether a pulse of the session takes the place of one that rose at a time. The number `next` is
/// looked at first, to save a search: loose pulses often follow one another.
fn has_place(session: &Session, time: u64, next: &mut usize) -> bool
    ensures { result ≡ has_place session.now.state.format session.now.state.pulses time }
{
    if takes_place(session, *next, time) {
        *next = next.saturating_add(1);
        return true;
    }
    let reach = session.current_format().interval() / 10;
    let last = session.find(time.saturating_add(reach));
    *next = last.saturating_add(1);
    if takes_place(session, last, time) {
        return true;
    }
    if takes_place(session, session.find(time), time) {
        return true;
    }
    any_takes_place(session, time)
}

/// Whether the pulse with a number takes the place of one that rose at a time. False if there is no
/// such pulse.
fn takes_place(session: &Session, number: usize, time: u64) -> bool
    ensures { IsTrue result
        → has_place session.now.state.format session.now.state.pulses time ≡ true }
{
    if number == 0 || session.len() < number {
        return false;
    }
    is_in_place(session.current_format(), session.pulse(number), time)
}

/// Whether one of all pulses takes the place of one that rose at a time.
fn any_takes_place(session: &Session, time: u64) -> bool
    ensures { result ≡ has_place session.now.state.format session.now.state.pulses time }
{
    for index in 0..session.len() {
        if is_in_place(session.current_format(), session.pulse(index + 1), time) {
            return true;
        }
    }
    false
}
