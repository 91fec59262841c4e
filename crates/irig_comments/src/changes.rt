//! The frames that differ between two recordings.

ghost use Rattle.std.specs.Prelude.{◌≡◌, [], ◌∷◌, ◌<◌, ◌^◌, MatchOption, length};
ghost use Rattle.irig_comments.specs.Framed.{shown_frames};
ghost use Rattle.irig_comments.specs.Sides.{AreChanges, changes};

use crate::framed::Framed;
use crate::sides::Sides;
use crate::sides_left::SidesLeft;
use std::marker::Model;

/// The frames that differ between two recordings, in the order of their places. It takes no memory.
#[derive(Drop)]
pub struct Changes<'a> {
    sides: SidesLeft<'a>,
}

impl<'a> Model for Changes<'a> {
    ghost use Rattle.std.specs.Prelude.{List, filter};
    ghost use Rattle.irig_comments.specs.Sides.{differs};
    ghost use Rattle.irig_comments.specs.declared.sides.Sides.{Sides};

    ghost Value = { List Sides };

    ghost view = { λ c. filter differs c.sides };
}

impl<'a> Changes<'a> {
    /// The frames that differ between `before` and `after`. `few`: each has fewer than 2^31 frames.
    pub fn between(before: &'a Framed, after: &'a Framed) -> Changes<'a>
        ensures exact { result ≡ changes before.now after.now }
        // One item for each place at which the sides differ, and for no other place.
        ensures places { AreChanges (shown_frames before.now) (shown_frames after.now) result }
        ensures few { length result < 2 ^ 32 }
    {
        // For the proof: the calls' contracts say how many frames there are, and in which order.
        let _counts = (before.len(), after.len());
        Changes {
            sides: SidesLeft::between(before, after),
        }
    }

    pub fn next(&mut self) -> Option<Sides>
        ensures { MatchOption result ((self.old ≡ []) × (self.new ≡ []))
            (λ s. self.old ≡ s ∷ self.new) }
    {
        while let Some(sides) = self.sides.next() {
            if sides.differ() {
                return Some(sides);
            }
        }
        None
    }
}
