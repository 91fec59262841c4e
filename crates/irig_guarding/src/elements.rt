//! The pulses of a frame's elements, and whether the recording has them.

ghost use Rattle.std.specs.Prelude.{◌≡◌, ◌↔◌, ◌⊎◌, ◌+◌, ◌<◌, IsTrue, MatchOption, slice_get};
ghost use Rattle.irig_safety.specs.{Functions.function_element, Rises.rise_in};
ghost use Rattle.irig_safety.specs.Original.{IsLost, IsRecorded};

use irig_codes::Format;
use irig_edit::{Pulse, Session};
use irig_safety::{Original, function_element, rise_or};

/// The pulse of an element of the frame with this marker; `None` if the session has no such pulse.
pub fn pulse_at(session: &Session, marker: usize, element: usize) -> Option<Pulse>
    ensures { result ≡ slice_get session.now.state.pulses (marker + element) }
{
    if marker < session.len() && element < session.len() - marker {
        Some(session.pulse(marker + element + 1))
    } else {
        None
    }
}

/// When the pulse of an element of the frame with this marker rises, in microseconds; 0 if there is
/// no such pulse (`pulse_at`).
pub fn rise_at(session: &Session, marker: usize, element: usize) -> u64
    ensures { result ≡ rise_in session.now.state.pulses marker element }
{
    rise_or(pulse_at(session, marker, element))
}

/// Whether the recording has the pulse of a control function, by its number from 0, of the frame
/// with this marker: a pulse of the same class that rises within a tenth of an interval of that one
/// (`Original::has`).
pub fn is_recorded_at(session: &Session, opened: &Original, marker: usize, function: u32) -> bool
    requires { function < 64 }
    ensures { IsTrue result ↔ MatchOption (slice_get session.now.state.pulses
        (marker + function_element session.now.state.format function)) ⊥
        (IsRecorded session.now.state.format opened.now.pulses) }
{
    let element = function_element(session.current_format(), function);
    match pulse_at(session, marker, element) {
        Some(pulse) => opened.has(session.current_format(), pulse),
        None => false,
    }
}

/// Whether the recording bears out a pulse of a control function: it has the pulse, or lost what
/// was there (`is_recorded_or_lost`).
pub fn is_borne_by_recording(session: &Session, opened: &Original, pulse: Option<Pulse>) -> bool
    ensures { IsTrue result ↔ MatchOption pulse ⊥ (λ q.
        IsRecorded session.now.state.format opened.now.pulses q
        ⊎ IsLost session.now.state.format opened.now.pulses q) }
{
    match pulse {
        Some(pulse) => is_recorded_or_lost(session.current_format(), opened, pulse),
        None => false,
    }
}

/// Whether a pulse is recorded, or what was recorded of it is lost. It is recorded if the recording
/// has a pulse of its class within a tenth of an interval of it (`has`).
fn is_recorded_or_lost(format: Format, opened: &Original, pulse: Pulse) -> bool
    ensures { IsTrue result ↔ (IsRecorded format opened.now.pulses pulse
        ⊎ IsLost format opened.now.pulses pulse) }
{
    if opened.has(format, pulse) {
        return true;
    }
    !opened.has_any(format, pulse)
}
