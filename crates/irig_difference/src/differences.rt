//! The stretches in which two recordings differ, one after the other.

ghost use Rattle.std.specs.Prelude.{◌≡◌, ◌≤◌, ◌+◌, ◌↔◌, [], ◌∷◌, ℕ, List, MatchOption, length, max};
ghost use Rattle.irig_recording.specs.Recording.{RisesFrom, UpTo, level_by_edges};
ghost use Rattle.irig_recording.specs.declared.pulse.Pulse.{Pulse};
ghost use Rattle.irig_track.specs.Edges.{edges_of};
ghost use Rattle.irig_difference.specs.Flips.{flips, patched, unlike};
ghost use Rattle.irig_difference.specs.Stretches.{is_within, stretches_between};

use crate::edges_left::EdgesLeft;
use irig_recording::{Pulse, Recording};
use std::marker::Model;

/// The stretches in which two recordings differ, as pulses that are high where they do. It takes no
/// memory.
#[derive(Drop)]
pub struct Differences<'a> {
    before: EdgesLeft<'a>,
    after: EdgesLeft<'a>,
}

impl<'a> Model for Differences<'a> {
    ghost use Rattle.std.specs.Prelude.{◌≡◌, true, List};
    ghost use Rattle.irig_recording.specs.Recording.{RisesFrom, is_even_long};
    ghost use Rattle.irig_recording.specs.declared.pulse.Pulse.{Pulse};
    ghost use Rattle.irig_difference.specs.{Flips.flips, Stretches.pairs};

    ghost Value = { List Pulse };

    ghost view = { λ d. pairs (flips d.after d.before) };

    ghost invariant = { λ d. RisesFrom 0 d.before × RisesFrom 0 d.after
        × (is_even_long (flips d.after d.before) ≡ true) };
}

impl<'a> Differences<'a> {
    /// The stretches in which `before` and `after` differ. After its end a recording is low.
    pub fn between(before: &'a Recording, after: &'a Recording) -> Differences<'a>
        ensures exact { result ≡ stretches_between before.now after.now }
        // Each time at which the levels differ, and no other.
        ensures complete { (t : ℕ) → is_within t result
            ≡ unlike (level_by_edges t after.now.edges) (level_by_edges t before.now.edges) }
        // In order, none without width, and no two touch.
        ensures apart { RisesFrom 0 (edges_of result) }
        ensures within { UpTo (max before.now.micros after.now.micros) (edges_of result) }
        // As inverts they make the one of the other, and no fewer do.
        ensures patch { patched result before.now.edges ≡ after.now.edges }
        ensures least { (others : List Pulse) → patched others before.now.edges ≡ after.now.edges
            → length result ≤ length others }
        ensures none { result ≡ [] ↔ before.now.edges ≡ after.now.edges }
    {
        Differences {
            before: EdgesLeft::new(before.pulses()),
            after: EdgesLeft::new(after.pulses()),
        }
    }

    /// The next stretch, from the microsecond at which the levels begin to differ to the one at
    /// which they are the same again.
    pub fn next(&mut self) -> Option<Pulse>
        ensures { MatchOption result ((self.old ≡ []) × (self.new ≡ []))
            (λ stretch. self.old ≡ stretch ∷ self.new) }
    {
        // Both recordings end low, so edges that only one has come in pairs.
        let rise = next_edge(&mut self.before, &mut self.after)?;
        let fall = next_edge(&mut self.before, &mut self.after)?;
        Some(Pulse { rise, fall })
    }
}

/// Goes past the next edge that only one of two recordings has, and returns its time in
/// microseconds. Pulses that both begin with are passed first, which is quicker.
fn next_edge(before: &mut EdgesLeft<'_>, after: &mut EdgesLeft<'_>) -> Option<u64>
    requires before { RisesFrom 0 before.old }
    requires after { RisesFrom 0 after.old }
    ensures before { RisesFrom 0 before.new }
    ensures after { RisesFrom 0 after.new }
    ensures next { MatchOption result
        (flips after.old before.old ≡ [])
        (λ t. flips after.old before.old ≡ t ∷ flips after.new before.new) }
    ensures last { result ≡ None → flips after.new before.new ≡ [] }
{
    before.pass_common(after);
    loop {
        match (before.first(), after.first()) {
            (Some(was), Some(now)) => {
                if was < now {
                    before.pass();
                    return Some(was);
                }
                after.pass();
                if now < was {
                    return Some(now);
                }
                before.pass();
            }
            (Some(was), None) => {
                before.pass();
                return Some(was);
            }
            (None, Some(now)) => {
                after.pass();
                return Some(now);
            }
            (None, None) => return None,
        }
    }
}
