//! Whether a change of the present state can be made, and room for its turn.

ghost use Rattle.std.specs.Prelude.{◌≡◌, ◌≤◌, ◌↔◌, IsTrue, OnErr, OnOk, length};
ghost use Rattle.irig_track.specs.{Shifts.CanShift, Splices.CanSplice, Toggles.CanToggle};
ghost use Rattle.irig_edit.specs.Changes.Ample.{IsAmpleFor, PutsIn, records_for};
ghost use Rattle.irig_edit.specs.State.Places.{IsWithin, places_in};
ghost use Rattle.irig_edit.specs.Changes.Single.{FitsSingle};
ghost use Rattle.irig_edit.specs.{Changes.Held.single_of, Changes.Room.HasRoomFor};
ghost use Rattle.irig_edit.specs.{State.Marks.AllMayMove, State.State.IsState};

use crate::changes::kinds::permitted;
use crate::changes::turn::Turn;
use crate::state::marks::all_may_move;
use crate::state::present::Present;
use irig_codes::Format;
use irig_index::{Index, markers_among};
use irig_saved::{Letters, Pulses, Single};
use std::alloc::AllocError;

impl Present {
    /// Whether the level can be inverted from `a` to `b`, in microseconds.
    pub(crate) fn can_toggle(&self, a: u64, b: u64) -> bool
        ensures { IsTrue result ↔ CanToggle self.now.state.micros a b self.now.state.pulses }
    {
        self.track.can_toggle(a, b)
    }

    /// Whether the pulses `i` to `j`, both included and from 0, can be moved by `by` microseconds.
    pub(crate) fn can_shift(&self, i: usize, j: usize, by: i64) -> bool
        ensures can { IsTrue result ↔ CanShift self.now.state.micros i j by self.now.state.pulses }
        ensures state { IsState self.now.state }
    {
        let _len = self.track.len();
        self.track.can_shift(i, j, by)
    }

    /// Whether `count` pulses from `at` on, from 0, can be replaced by those of `put`.
    fn can_splice(&self, at: usize, count: usize, put: &Pulses) -> bool
        ensures { IsTrue result ↔ CanSplice self.now.state.micros at count put.now
            self.now.state.pulses }
    {
        self.track.can_splice(at, count, put.as_gap())
    }

    /// Whether pulses can be moved with the marks of the letters that are true in `letters`.
    fn can_move(&self, i: usize, j: usize, by: i64, letters: &Letters) -> bool
        ensures { IsTrue result ↔ CanShift self.now.state.micros i j by self.now.state.pulses
            × AllMayMove self.now.state.micros by letters.now self.now.state.marks
            × (length letters.now ≡ 26) }
    {
        let _first = letters[0];
        self.can_shift(i, j, by) && all_may_move(&self.marks, letters, by, self.track.length())
    }

    /// Whether a single change can be made. It can come from a saved journal, so it can name a
    /// pulse 0.
    pub(crate) fn allows(&self, single: &Single) -> bool
        ensures { IsTrue result ↔ FitsSingle self.now.state single.now }
    {
        match single {
            Single::Splice { at, count, put } => {
                *at > 0 && self.can_splice(*at as usize - 1, *count as usize, put)
            }
            Single::Toggle { a, b } => self.can_toggle(*a, *b),
            Single::Shift { i, j, by, marks } => {
                *i > 0 && *j > 0 && self.can_move(*i as usize - 1, *j as usize - 1, *by, marks)
            }
            Single::SetFormat { kind, expression } => Format::new(*kind, *expression).is_ok(),
            // The place is read for the law of its type alone.
            Single::SetMark { letter, time } => letter.place() < 26 && self.may_mark(*time),
        }
    }
}

impl Present {
    /// Makes room for a turn and its turn back. The way back needs no more: places stay, and the
    /// pulses that it removes go to the buffer in which they came. What was reserved before an
    /// error stays.
    pub(crate) fn room_for(&mut self, turn: &mut Turn) -> Result<(), AllocError>
        requires fits { FitsSingle self.old.state (single_of turn.old) }
        ensures known { IsState self.old.state }
        ensures stays { (self.new.state ≡ self.old.state)
            × (single_of turn.new ≡ single_of turn.old)
            × (self.new.index.looks ≡ self.old.index.looks) }
        ensures grows { IsWithin (places_in self.old) (places_in self.new) }
        ensures room { OnOk result (HasRoomFor (places_in self.new) self.new.state turn.new) }
        ensures refused { OnErr result
            (IsAmpleFor (places_in self.old) self.old.state turn.old → ⊥) }
    {
        let records = self.records_for(&turn.single);
        self.reserve_put(&turn.single)?;
        turn.reserve_taken()?;
        self.index.reserve(records)
    }

    /// An upper bound of how many records a turn adds. New pulses can be markers, each after
    /// another new one (`markers_among`); so can the first new pulse and the pulse after the last
    /// one: 2. A shift brings only those two, and for a format all frames are counted.
    fn records_for(&self, single: &Single) -> usize
        requires fits { FitsSingle self.now.state single.now }
        ensures records { result ≡ records_for self.now.state single.now }
        ensures state { IsState self.now.state }
    {
        let pulses = self.track().len();
        match single {
            Single::Splice { put, .. } => markers_among(put.as_gap(), self.format) + 2,
            Single::Toggle { a, b } => {
                // The new pulses are at most those that rise after `a` up to `b` (`between`) and 2
                // more; the track has at most `pulses + 1` afterwards.
                let between = self.find(*b).saturating_sub(self.find(*a));
                (between + 4).min(pulses + 3)
            }
            Single::Shift { .. } => 2,
            Single::SetFormat { kind, expression } => {
                // All frames are read again.
                let format = permitted(*kind, *expression);
                Index::count(&mut self.track.lens(), format).saturating_sub(self.index.len())
            }
            Single::SetMark { .. } => 0,
        }
    }

    /// Makes places in the track for the pulses that come, beyond those of the pulses that go.
    /// While it is made, a toggle needs one place more than it leaves pulses: 2.
    fn reserve_put(&mut self, single: &Single) -> Result<(), AllocError>
        ensures state { self.new.state ≡ self.old.state }
        ensures index { self.new.index ≡ self.old.index }
        ensures grows { self.old.spare ≤ self.new.spare }
        ensures puts { OnOk result
            (PutsIn (places_in self.new) self.new.state single.now) }
        ensures refused { OnErr result
            (PutsIn (places_in self.old) self.old.state single.now → ⊥) }
    {
        match single {
            Single::Splice { count, put, .. } => {
                let more = put.len().saturating_sub(*count as usize);
                self.track.reserve(more)
            }
            Single::Toggle { .. } => self.track.reserve(2),
            Single::Shift { .. } | Single::SetFormat { .. } | Single::SetMark { .. } => Ok(()),
        }
    }
}
