//! The pulses of a recording, as they are explained.

ghost use Rattle.std.specs.Prelude.{◌≡◌, ◌^◌, ◌≤◌, All, IfOk, length};
ghost use Rattle.std.specs.List.Sorted.{IsNonDecreasingBy};
ghost use Rattle.irig_happenings.specs.Listings.{ArePulsesOf};
ghost use Rattle.irig_explaining.specs.Looks.{IsTimely};

use irig_explaining::Pulse;
use irig_recording::LongRecording;
use std::alloc::{AllocError, Global};

/// The recording's memory is given back before anything else is made.
pub fn pulses_of(alloc: Global, recording: LongRecording) -> Result<Vec<Pulse>, AllocError>
    ensures exact { IfOk result (λ pulses. ArePulsesOf recording.edges pulses.items) }
    ensures few { IfOk result (λ pulses. length pulses.items ≤ 2 ^ 26) }
    ensures order { IfOk result (λ pulses. IsNonDecreasingBy (λ p. p.rise) pulses.items) }
    ensures timely { IfOk result (λ pulses. All IsTimely pulses.items) }
{
    let held = recording.pulses();
    let mut pulses = Vec::new(alloc);
    for place in 0..held.len() {
        let pulse = held.get(place);
        pulses.push(Pulse {
            rise: pulse.rise,
            fall: pulse.fall,
        })?;
    }
    Ok(pulses)
}
