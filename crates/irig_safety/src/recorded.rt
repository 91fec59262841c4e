//! Whether a pulse, which may be an edited one, is like a recorded one.

ghost use Rattle.std.specs.Prelude.{◌≡◌, ◌↔◌, ◌-◌, IsTrue};
ghost use Rattle.std.specs.List.Sorted.{IsNonDecreasingBy};
ghost use Rattle.irig_codes.specs.Width.{class_of};
ghost use Rattle.irig_recording.specs.declared.pulse.Pulse.{Pulse as SomePulse};
ghost use Rattle.irig_safety.specs.Original.{IsAlike, IsNear, reach_of};

use irig_codes::{Element, Format, class};
use irig_recording::Pulse;

/// Whether a recorded pulse rises near `pulse` and is like it. The near ones are in a row in
/// `recorded`, which is in rising order.
pub fn has_alike(format: Format, any_class: bool, recorded: &[Pulse], pulse: Pulse) -> bool
    requires { IsNonDecreasingBy (λ (p : SomePulse). p.rise) recorded.now }
    ensures { IsTrue result ↔ IsNear format any_class recorded.now pulse }
{
    let reach = reach_of(format, any_class);
    let low = pulse.rise.saturating_sub(reach);
    let first = recorded.partition_point(|other| other.rise < low);
    for place in first..recorded.len() {
        let other = recorded[place];
        if other.rise.saturating_sub(reach) > pulse.rise {
            return false;
        }
        if is_alike(format, any_class, other, pulse) {
            return true;
        }
    }
    false
}

/// In microseconds: for the same class a tenth of an interval, as two in step may be off; for any
/// class half of one, up to which a pulse is nearest to its own place. Both are this project's own.
fn reach_of(format: Format, any_class: bool) -> u64
    ensures { result ≡ reach_of format any_class }
{
    if any_class {
        format.interval() / 2
    } else {
        format.interval() / 10
    }
}

/// Whether `other` has the class of `pulse`, or if any class will do, one at all.
fn is_alike(format: Format, any_class: bool, other: Pulse, pulse: Pulse) -> bool
    ensures { IsTrue result ↔ IsAlike format any_class other pulse }
{
    if any_class {
        pulse_class(format, other).is_some()
    } else {
        is_same_class(format, other, pulse)
    }
}

/// Two bad widths count as the same.
fn is_same_class(format: Format, one: Pulse, other: Pulse) -> bool
    ensures { IsTrue result
        ↔ (class_of format (one.fall - one.rise) ≡ class_of format (other.fall - other.rise)) }
{
    pulse_class(format, one) == pulse_class(format, other)
}

/// A pulse that falls before it rises would have width 0.
fn pulse_class(format: Format, pulse: Pulse) -> Option<Element>
    ensures { result ≡ class_of format (pulse.fall - pulse.rise) }
{
    class(format, pulse.fall.saturating_sub(pulse.rise))
}
