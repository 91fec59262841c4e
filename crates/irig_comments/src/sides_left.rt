//! The frames of two recordings by their places, one place after the other.

ghost use Rattle.std.specs.Prelude.{◌≡◌, [], ◌∷◌, MatchOption, filter, length, ◌<◌, ◌^◌};
ghost use Rattle.irig_comments.specs.Framed.{shown_frames};
ghost use Rattle.irig_comments.specs.Sides.{differs, sides_of};

use crate::framed::Framed;
use crate::sides::Sides;
use std::marker::Model;

/// The frames of two recordings that are still to come.
#[derive(Drop)]
pub struct SidesLeft<'a> {
    before: &'a Framed,
    after: &'a Framed,
    // How many frames are past, of `before` and of `after`.
    past_before: usize,
    past_after: usize,
}

impl<'a> Model for SidesLeft<'a> {
    ghost use Rattle.std.specs.Prelude.{List, drop};
    ghost use Rattle.irig_comments.specs.{Framed.shown_frames, Sides.sides_of};
    ghost use Rattle.irig_comments.specs.declared.sides.Sides.{Sides};

    ghost Value = { List Sides };

    ghost view = { λ l. sides_of (drop l.past_before (shown_frames l.before.now))
        (drop l.past_after (shown_frames l.after.now)) };
}

impl<'a> SidesLeft<'a> {
    pub fn between(before: &'a Framed, after: &'a Framed) -> SidesLeft<'a>
        ensures { result ≡ sides_of (shown_frames before.now) (shown_frames after.now) }
    {
        SidesLeft {
            before,
            after,
            past_before: 0,
            past_after: 0,
        }
    }

    /// The frames at the next place: of both recordings if both begin at one microsecond, else the
    /// earlier one. Both lists are in the order of their places.
    pub fn next(&mut self) -> Option<Sides>
        ensures { MatchOption result ((self.old ≡ []) × (self.new ≡ []))
            (λ s. self.old ≡ s ∷ self.new) }
    {
        let before = self.before.shown(self.past_before);
        let after = self.after.shown(self.past_after);
        match (before, after) {
            (None, None) => return None,
            (Some(_), None) => self.past_before += 1,
            (None, Some(_)) => self.past_after += 1,
            (Some(was), Some(now)) => {
                if now.rise < was.rise {
                    self.past_after += 1;
                    return Some(Sides {
                        before: None,
                        after,
                    });
                }
                self.past_before += 1;
                if was.rise < now.rise {
                    return Some(Sides {
                        before,
                        after: None,
                    });
                }
                self.past_after += 1;
            }
        }
        Some(Sides { before, after })
    }
}
