//! Single changes turned in place, with the frames repaired at their places; nothing fails here.

ghost use Rattle.std.specs.Prelude.{◌≡◌, ◌≤◌, ◌<◌, [], IsTrue, neg_ℤ, length};
ghost use Rattle.irig_codes.specs.Format.{is_permitted};
ghost use Rattle.irig_track.specs.Shifts.{CanShift, count_to, shifted};
ghost use Rattle.irig_track.specs.Splices.{CanSplice, piece, spliced};
ghost use Rattle.irig_track.specs.{Edges.edges_of, Toggles.CanToggle, Toggles.toggled};
ghost use Rattle.irig_edit.specs.Changes.Held.{single_of};
ghost use Rattle.irig_edit.specs.Changes.Looks.{Rose, RoseWithin, looks_by, standing_in, window};
ghost use Rattle.irig_edit.specs.State.Marks.{AllMayMove, marks_moved};
ghost use Rattle.irig_edit.specs.State.Places.{HoldsState, KeepsPlaces, places_in};
ghost use Rattle.irig_edit.specs.Changes.Room.{HasRoomFor, passing};
ghost use Rattle.irig_edit.specs.Changes.Single.{FitsSingle, IsRoomFor, IsShift, goes, pulses_of};
ghost use Rattle.irig_edit.specs.Changes.Single.{turned_single};
ghost use Rattle.irig_edit.specs.State.State.{IsState, state, with_pulses};

use crate::changes::kinds::{permitted, turn_mark, turn_shift, turn_toggle};
use crate::changes::turn::Turn;
use crate::state::present::Present;
use irig_codes::Kind;
use irig_gap::Gap;
use irig_saved::{Letters, Pulses, Single};
use irig_track::Pulse;

impl Present {
    /// Turns the change of `turn` and repairs the frames. This takes no memory.
    pub(crate) fn make_turn(&mut self, turn: &mut Turn)
        requires fits { FitsSingle self.old.state (single_of turn.old) }
        requires room { HasRoomFor (places_in self.old) self.old.state turn.old }
        ensures known { IsState self.old.state }
        ensures turned { (self.new.state, single_of turn.new)
            ≡ turned_single self.old.state (single_of turn.old) }
        ensures looks { RoseWithin (looks_by (single_of turn.old) self.new.state.pulses)
            self.old.index.looks self.new.index.looks }
        ensures places { KeepsPlaces self.old self.new }
        ensures back { HasRoomFor (places_in self.new) self.new.state turn.new }
    {
        let _track = self.track();
        self.turn_single(&mut turn.single, &mut turn.taken);
    }

    /// Turns a single change. `taken` has places for the pulses that go, and afterwards for those
    /// that came. A change that was found possible names no pulse 0, so `at - 1` does not wrap.
    fn turn_single(&mut self, single: &mut Single, taken: &mut Gap<Pulse>)
        requires fits { FitsSingle self.old.state single.old }
        requires empty { taken.old.items ≡ [] }
        requires takes { IsRoomFor (goes single.old) taken.old.capacity }
        requires before { HoldsState (places_in self.old) (passing single.old) self.old.state }
        requires after { HoldsState (places_in self.old) (passing single.old)
            (turned_single self.old.state single.old).0 }
        ensures turned { (self.new.state, single.new)
            ≡ turned_single self.old.state single.old }
        ensures looks { RoseWithin (looks_by single.old self.new.state.pulses)
            self.old.index.looks self.new.index.looks }
        ensures places { KeepsPlaces self.old self.new }
        ensures empty { taken.new.items ≡ [] }
        ensures takes { IsRoomFor (goes single.new) taken.new.capacity }
    {
        match single {
            Single::Splice { at, count, put } => {
                self.splice(*at as usize - 1, count, put, taken);
            }
            Single::Toggle { a, b } => self.toggle(*a, *b),
            Single::Shift { .. } => self.turn_shift(single),
            Single::SetFormat { kind, expression } => self.set_format(kind, expression),
            Single::SetMark { letter, time } => {
                turn_mark(&mut self.marks, letter.place() as usize, time);
            }
        }
    }

    /// Replaces `count` pulses from `at` on, from 0, by those of `put`; `exchange` swaps `taken`
    /// with the buffer of `put`.
    fn splice(&mut self, at: usize, count: &mut u64, put: &mut Pulses, taken: &mut Gap<Pulse>)
        requires can { CanSplice self.old.state.micros at count.old put.old
            self.old.state.pulses }
        requires empty { taken.old.items ≡ [] }
        requires takes { IsRoomFor count.old taken.old.capacity }
        requires holds { HoldsState (places_in self.old) 0
            (with_pulses (spliced at count.old put.old self.old.state.pulses) self.old.state) }
        ensures state { self.new.state ≡
            with_pulses (spliced at count.old put.old self.old.state.pulses) self.old.state }
        ensures back { (count.new ≡ length put.old)
            × (put.new ≡ piece at count.old self.old.state.pulses) }
        ensures looks { RoseWithin (window (length put.old)) self.old.index.looks
            self.new.index.looks }
        ensures places { KeepsPlaces self.old self.new }
        ensures empty { taken.new.items ≡ [] }
        ensures takes { IsRoomFor count.new taken.new.capacity }
    {
        let come = put.len() as u64;
        let span = put.exchange(&mut self.track, at, *count as usize, taken);
        *count = come;
        self.index.repair(&mut self.track.lens(), self.format, span);
    }

    /// Inverts the level from `a` to `b`. On the way there can be one pulse more, so the track must
    /// have a free place: the 1 in the clauses.
    fn toggle(&mut self, a: u64, b: u64)
        requires can { CanToggle self.old.state.micros a b self.old.state.pulses }
        requires before { HoldsState (places_in self.old) 1 self.old.state }
        requires holds { HoldsState (places_in self.old) 1 (with_pulses
            (pulses_of (toggled a b (edges_of self.old.state.pulses))) self.old.state) }
        ensures state { self.new.state ≡ with_pulses
            (pulses_of (toggled a b (edges_of self.old.state.pulses))) self.old.state }
        ensures looks { RoseWithin (window (standing_in a b self.new.state.pulses))
            self.old.index.looks self.new.index.looks }
        ensures places { KeepsPlaces self.old self.new }
    {
        let span = turn_toggle(&mut self.track, a, b);
        self.index.repair(&mut self.track.lens(), self.format, span);
    }

    /// Turns a shift. `by` is set only after the pulses have moved: until then `marks` is borrowed.
    fn turn_shift(&mut self, single: &mut Single)
        requires shift { IsShift single.old }
        requires fits { FitsSingle self.old.state single.old }
        requires after { HoldsState (places_in self.old) 0
            (turned_single self.old.state single.old).0 }
        ensures turned { (self.new.state, single.new)
            ≡ turned_single self.old.state single.old }
        ensures looks { RoseWithin (looks_by single.old self.new.state.pulses)
            self.old.index.looks self.new.index.looks }
        ensures places { KeepsPlaces self.old self.new }
    {
        let back = match &*single {
            Single::Shift { i, j, by, marks } => {
                self.shift(*i as usize - 1, *j as usize - 1, *by, marks)
            }
            _ => unreachable!(),
        };
        if let Single::Shift { by, .. } = single {
            *by = back;
        }
    }

    /// Moves the pulses `i` to `j`, both included and from 0, with the marks of `letters`. Returns
    /// the distance of the way back.
    fn shift(&mut self, i: usize, j: usize, by: i64, letters: &Letters) -> i64
        requires can { CanShift self.old.state.micros i j by self.old.state.pulses }
        requires marks { AllMayMove self.old.state.micros by letters.now self.old.state.marks }
        requires holds { HoldsState (places_in self.old) 0 (state self.old.state.micros
            (shifted i j by self.old.state.pulses) self.old.state.format
            (marks_moved by letters.now self.old.state.marks)) }
        ensures state { self.new.state ≡ state self.old.state.micros
            (shifted i j by self.old.state.pulses) self.old.state.format
            (marks_moved by letters.now self.old.state.marks) }
        ensures back { result ≡ neg_ℤ by }
        ensures looks { RoseWithin (window (count_to i j)) self.old.index.looks
            self.new.index.looks }
        ensures places { KeepsPlaces self.old self.new }
    {
        let _length = self.track.length();
        let mut back = by;
        let span = turn_shift(&mut self.track, &mut self.marks, i, j, &mut back, letters);
        self.index.repair(&mut self.track.lens(), self.format, span);
        back
    }

    /// Sets a format; `kind` and `expression` are then those of the former one. All frames are read
    /// again, so the looks have no bound.
    fn set_format(&mut self, kind: &mut Kind, expression: &mut u8)
        requires permitted { IsTrue (is_permitted kind.old expression.old) }
        requires holds { HoldsState (places_in self.old) 0 (state self.old.state.micros
            self.old.state.pulses (record { kind = kind.old; expression = expression.old })
            self.old.state.marks) }
        ensures state { self.new.state ≡ state self.old.state.micros self.old.state.pulses
            (record { kind = kind.old; expression = expression.old }) self.old.state.marks }
        ensures back { (kind.new ≡ self.old.state.format.kind)
            × (expression.new ≡ self.old.state.format.expression) }
        ensures looks { Rose self.old.index.looks self.new.index.looks }
        ensures places { KeepsPlaces self.old self.new }
    {
        let format = permitted(*kind, *expression);
        *kind = self.format.kind();
        *expression = self.format.expression();
        self.format = format;
        self.index.rebuild(&mut self.track.lens(), self.format);
    }
}
