//! What is known of a recording as it was opened.

ghost use Rattle.std.specs.Prelude.{◌≡◌, ◌↔◌, ◌<◌, IsTrue, get_or};
ghost use Rattle.std.specs.Prelude.{true};
ghost use Rattle.std.specs.List.Sorted.{IsNonDecreasingBy};
ghost use Rattle.irig_recording.specs.declared.pulse.Pulse.{Pulse as SomePulse};
ghost use Rattle.irig_safety.specs.Anchors.{is_anchor};
ghost use Rattle.irig_safety.specs.Original.{IsNear, IsRecorded, others_of};
ghost use Rattle.irig_safety.specs.{Others.is_told, Rises.rise_in};

use crate::odd::Odd;
use crate::others::is_told;
use crate::recorded::has_alike;
use crate::rises::{is_anchor, rise_or};
use crate::shown::Shown;
use crate::terms::{Others, Terms};
use irig_codes::Format;
use irig_recording::Pulse;
use std::marker::Model;

/// What is known of a recording as it was opened: its former frames, their markers and its pulses;
/// whether frames may move; what else repairs are judged by; and the rises of loose pulses.
#[derive(Drop)]
pub struct Original {
    frames: Vec<Shown>,
    markers: Vec<usize>,
    pulses: Vec<Pulse>,
    moved: bool,
    others: Others,
    loose: Vec<u64>,
}

impl Model for Original {
    ghost use Rattle.std.specs.List.Sorted.{IsNonDecreasingBy};
    ghost use Rattle.irig_safety.specs.Original.{OriginalView};

    ghost Value = { OriginalView };

    ghost view = { λ o. record {
      frames = o.frames.items;
      markers = o.markers.items;
      pulses = o.pulses.items;
      odd = o.others.odd;
      loose = o.loose.items;
      terms = record { moved = o.moved; others = o.others.frames; even = o.others.even };
    } };

    ghost invariant = { λ o. IsNonDecreasingBy (λ p. p.rise) o.pulses.items
        × IsNonDecreasingBy (λ p. p.fall) o.pulses.items };
}

impl Original {
    /// `markers` has the marker of each of `frames`. The searches need that pulses rise and fall in
    /// order.
    pub fn new(
        frames: Vec<Shown>,
        markers: Vec<usize>,
        pulses: Vec<Pulse>,
        odd: Vec<Odd>,
        loose: Vec<u64>,
        terms: Terms,
    ) -> Original
        requires rising { IsNonDecreasingBy (λ (p : SomePulse). p.rise) pulses.items }
        requires falling { IsNonDecreasingBy (λ (p : SomePulse). p.fall) pulses.items }
        ensures frames { result.frames ≡ frames.items }
        ensures markers { result.markers ≡ markers.items }
        ensures pulses { result.pulses ≡ pulses.items }
        ensures odd { result.odd ≡ odd.items }
        ensures loose { result.loose ≡ loose.items }
        ensures terms { result.terms ≡ terms }
    {
        Original {
            frames,
            markers,
            pulses,
            moved: terms.moved,
            others: Others {
                frames: terms.others,
                even: terms.even,
                odd,
            },
            loose,
        }
    }

    /// Whether frames may be at another time than in the recording.
    pub fn is_moved(&self) -> bool
        ensures { result ≡ self.now.terms.moved }
    {
        self.moved
    }

    /// Whether more frames of other recordings with the time of `frame` have a control function as
    /// `frame` has it than otherwise.
    pub fn is_told(&self, frame: &Shown, function: u32) -> bool
        requires { function < 64 }
        ensures { result ≡ is_told function self.now.terms.others frame.now }
    {
        is_told(self.others.frames.as_slice(), frame, function)
    }

    /// Frames of other recordings of the same code, and which pulses of this one are odd.
    pub fn others(&self) -> &Others
        ensures { result.now ≡ others_of self.now }
    {
        &self.others
    }

    /// The former frames, in rising order.
    pub fn frames(&self) -> &[Shown]
        ensures { result.now ≡ self.now.frames }
    {
        self.frames.as_slice()
    }

    /// The marker of the frame at a place of `frames`; 0 if there is no such frame.
    pub fn marker(&self, place: usize) -> usize
        ensures { result ≡ get_or self.now.markers place 0 }
    {
        match self.markers.get(place) {
            Some(marker) => *marker,
            None => 0,
        }
    }

    /// All pulses of the recording, in rising order.
    pub fn pulses(&self) -> &[Pulse]
        ensures { result.now ≡ self.now.pulses }
    {
        self.pulses.as_slice()
    }

    /// In microseconds, in rising order.
    pub fn loose(&self) -> &[u64]
        ensures { result.now ≡ self.now.loose }
    {
        self.loose.as_slice()
    }

    /// When an element of the frame with this marker rises, in microseconds; 0 if it is not there.
    /// The test subtracts, as the sum could be too large.
    pub fn rise(&self, marker: usize, element: usize) -> u64
        ensures { result ≡ rise_in self.now.pulses marker element }
    {
        let pulses = self.pulses.as_slice();
        if marker < pulses.len() && element < pulses.len() - marker {
            rise_or(Some(pulses[marker + element]))
        } else {
            rise_or(None)
        }
    }

    /// Whether `pulse` is an anchor, because it is recorded, or was a gap that became a pulse when
    /// the recording was turned over. `place` is looked at first, to save a search.
    pub fn holds(&self, pulse: Option<Pulse>, place: &mut usize) -> bool
        ensures { result ≡ is_anchor self.now.pulses pulse }
    {
        match pulse {
            Some(pulse) => is_anchor(self.pulses.as_slice(), pulse, place),
            None => false,
        }
    }

    /// Whether a recorded pulse of the same class rises within a tenth of an interval of `pulse`.
    pub fn has(&self, format: Format, pulse: Pulse) -> bool
        ensures { IsTrue result ↔ IsRecorded format self.now.pulses pulse }
    {
        has_alike(format, false, self.pulses.as_slice(), pulse)
    }

    /// Whether a recorded pulse that has a class rises within half an interval of `pulse`.
    pub fn has_any(&self, format: Format, pulse: Pulse) -> bool
        ensures { IsTrue result ↔ IsNear format true self.now.pulses pulse }
    {
        has_alike(format, true, self.pulses.as_slice(), pulse)
    }
}
