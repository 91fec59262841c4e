//! Which rises and falls the recorded pulses have.

ghost use Rattle.std.specs.Prelude.{◌≡◌, ◌<◌, ◌≤◌, ℕ, get_or, length, Some};
ghost use Rattle.std.specs.List.Sorted.{IsNonDecreasingBy};
ghost use Rattle.irig_safety.specs.Anchors.{is_anchor, is_fall, is_rise};
ghost use Rattle.irig_recording.specs.declared.pulse.Pulse.{Pulse as SomePulse};
ghost use Rattle.irig_safety.specs.{Rises.rise_or};

use irig_recording::Pulse;

/// Whether a pulse rises at a time. `place` is looked at first, and becomes the next to look at, as
/// times are asked for in rising order; the answer does not depend on it.
pub fn has_rise(pulses: &[Pulse], time: u64, place: &mut usize) -> bool
    requires { IsNonDecreasingBy (λ (p : SomePulse). p.rise) pulses.now }
    ensures { result ≡ is_rise pulses.now time }
{
    let first = first_rise(pulses, time, *place);
    let found = first < pulses.len() && pulses[first].rise == time;
    *place = if found { first + 1 } else { first };
    found
}

/// The place of the first pulse that does not rise before a time; `place` is looked at first.
fn first_rise(pulses: &[Pulse], time: u64, place: usize) -> usize
    requires { IsNonDecreasingBy (λ (p : SomePulse). p.rise) pulses.now }
    ensures before { (j : ℕ) (d : SomePulse) → j < result → j < length pulses.now
        → (get_or pulses.now j d).rise < time }
    ensures after { (d : SomePulse) → result < length pulses.now
        → time ≤ (get_or pulses.now result d).rise }
{
    if place < pulses.len()
        && time <= pulses[place].rise
        && (place == 0 || pulses[place - 1].rise < time)
    {
        return place;
    }
    pulses.partition_point(|pulse| pulse.rise < time)
}

/// Whether a pulse falls at a time; `place` is looked at first.
pub fn has_fall(pulses: &[Pulse], time: u64, place: usize) -> bool
    requires { IsNonDecreasingBy (λ (p : SomePulse). p.fall) pulses.now }
    ensures { result ≡ is_fall pulses.now time }
{
    let first = first_fall(pulses, time, place);
    first < pulses.len() && pulses[first].fall == time
}

/// The place of the first pulse that does not fall before a time, in the same way.
fn first_fall(pulses: &[Pulse], time: u64, place: usize) -> usize
    requires { IsNonDecreasingBy (λ (p : SomePulse). p.fall) pulses.now }
    ensures before { (j : ℕ) (d : SomePulse) → j < result → j < length pulses.now
        → (get_or pulses.now j d).fall < time }
    ensures after { (d : SomePulse) → result < length pulses.now
        → time ≤ (get_or pulses.now result d).fall }
{
    if place < pulses.len()
        && time <= pulses[place].fall
        && (place == 0 || pulses[place - 1].fall < time)
    {
        return place;
    }
    pulses.partition_point(|pulse| pulse.fall < time)
}

/// Whether a pulse rises when a recorded one does, or rises when one falls and falls when one
/// rises, as a gap does that became a pulse when the recording was turned over.
pub fn is_anchor(recorded: &[Pulse], pulse: Pulse, place: &mut usize) -> bool
    requires rising { IsNonDecreasingBy (λ (p : SomePulse). p.rise) recorded.now }
    requires falling { IsNonDecreasingBy (λ (p : SomePulse). p.fall) recorded.now }
    ensures { result ≡ is_anchor recorded.now (Some pulse) }
{
    has_rise(recorded, pulse.rise, place)
        || has_fall(recorded, pulse.rise, *place) && is_rise(recorded, pulse.fall, *place)
}

/// As `has_rise`, but `place` stays.
fn is_rise(recorded: &[Pulse], time: u64, place: usize) -> bool
    requires { IsNonDecreasingBy (λ (p : SomePulse). p.rise) recorded.now }
    ensures { result ≡ is_rise recorded.now time }
{
    let mut at = place;
    has_rise(recorded, time, &mut at)
}

/// When a pulse rises, in microseconds; 0 if there is none.
pub fn rise_or(pulse: Option<Pulse>) -> u64
    ensures { result ≡ rise_or pulse }
{
    match pulse {
        Some(pulse) => pulse.rise,
        None => 0,
    }
}
