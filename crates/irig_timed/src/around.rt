//! The pulses with a time around a moment, and what is between them.

ghost use Rattle.std.specs.Prelude.{◌≡◌, ◌<◌, ◌+◌, ◌^◌, ℕ, Bool, List, MatchOption};
ghost use Rattle.irig_codes.specs.Format.{FormatView};
ghost use Rattle.irig_law.specs.declared.frame.Frame.{Frame};
ghost use Rattle.irig_recording.specs.declared.pulse.Pulse.{Pulse};
ghost use Rattle.irig_timed.specs.{Knowns.IsKnownIn, Runs.nth_of};
ghost use Rattle.irig_timed.specs.Runs.{AreRuns, place_at, place_before};

use crate::gap::Gap;
use crate::run::{Place, Run, runs_before};
use irig_law::Point;

/// The last pulse with a time that has risen, the next one, and what is between them.
#[derive(Clone, Copy)]
pub struct Around {
    pub from: Option<Place>,
    pub to: Option<Place>,
    pub gap: Gap,
}

/// Two pulses between which time goes on the line, and by how many trillionths of an interval it
/// can be off.
#[derive(Clone, Copy)]
pub struct Line {
    pub from: Place,
    pub to: Place,
    pub bound: u64,
}

impl Around {
    ghost use Rattle.irig_timed.specs.Knowns.{IsAround, IsLine};
    ghost use Rattle.irig_timed.specs.declared.run.Place.{Place};

    /// By the runs of a track and the gaps between them, if that many pulses have risen.
    pub fn of(runs: &[Run], gaps: &[Gap], risen: usize) -> Around
        requires known { (f : FormatView) × (century : ℕ) × (ps : List Pulse)
            × (believed : List Frame) × (held : List Bool)
            × IsKnownIn f century ps believed held runs.now gaps.now }
        ensures around { (f : FormatView) (century : ℕ) (ps : List Pulse) (believed : List Frame)
            (held : List Bool) → IsKnownIn f century ps believed held runs.now gaps.now
            → IsAround f century ps believed held risen result }
    {
        let place = runs_before(runs, risen);
        if 0 < place {
            let run = runs[place - 1];
            let over = risen - run.number;
            if over < run.count {
                return Around {
                    from: Some(nth_of(&run, over - 1)),
                    to: Some(nth_of(&run, over)),
                    gap: Gap::Line(0),
                };
            }
        }
        Around {
            from: place_before(runs, place),
            to: place_at(runs, place),
            gap: gaps[place],
        }
    }

    /// The line between the two, if there is one.
    pub fn line(&self) -> Option<Line>
        ensures { MatchOption result ((p q : Place) (b : ℕ) → IsLine self.now p q b → ⊥)
            (λ l. IsLine self.now l.from l.to l.bound) }
    {
        match (self.from, self.to, self.gap) {
            (Some(from), Some(to), Gap::Line(bound)) => Some(Line { from, to, bound }),
            (Some(_), Some(_), Gap::Untimed(_)) => None,
            (Some(_), None, _) => None,
            (None, _, _) => None,
        }
    }
}

/// The last pulse of the run before a place.
pub fn place_before(runs: &[Run], place: usize) -> Option<Place>
    requires { (f : FormatView) × (ps : List Pulse) × AreRuns f ps runs.now }
    ensures { result ≡ place_before runs.now place }
{
    if place == 0 {
        return None;
    }
    if runs.len() < place {
        return None;
    }
    let run = runs[place - 1];
    Some(nth_of(&run, run.count - 1))
}

/// The first pulse of the run at a place.
pub fn place_at(runs: &[Run], place: usize) -> Option<Place>
    requires { (f : FormatView) × (ps : List Pulse) × AreRuns f ps runs.now }
    ensures { result ≡ place_at runs.now place }
{
    if place < runs.len() {
        Some(nth_of(&runs[place], 0))
    } else {
        None
    }
}

/// A pulse of a run, counted from 0.
fn nth_of(run: &Run, nth: usize) -> Place
    requires { (run.now.number + nth < 2 ^ 64) × (run.now.element + nth < 2 ^ 64) }
    ensures { result ≡ nth_of run.now nth }
{
    Place {
        number: run.number + nth,
        point: Point {
            frame: run.frame,
            element: run.element + nth,
        },
    }
}
