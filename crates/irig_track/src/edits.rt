//! The edits of a track: splice, shift and toggle, each with the test that it may be made.

ghost use Rattle.std.specs.Prelude.{◌≡◌, ◌+◌, ◌-◌, ◌^◌, ◌<◌, ◌≤◌, ◌↔◌, ℕ, length, take, drop, []};
ghost use Rattle.std.specs.Prelude.{IsTrue};
ghost use Rattle.irig_track.specs.Edges.{edges_of, is_edge, replaced, inverted};
ghost use Rattle.irig_track.specs.Free.{following, first_or};
ghost use Rattle.irig_track.specs.Shifts.{shifted, moved, count_to, CanShift};
ghost use Rattle.irig_track.specs.Splices.{spliced, piece, CanSplice, IsSpan, risen_by};
ghost use Rattle.irig_track.specs.Splices.{ended_before};
ghost use Rattle.irig_track.specs.Toggles.{toggled, CanToggle};

use crate::shift::{ahead_of, back_of, move_pulses};
use crate::span::Span;
use crate::splice::replace;
use crate::stands::stands;
use crate::toggle::toggle_right;
use crate::track::Track;
use irig_gap::Gap;
use irig_recording::Pulse;

impl Track {
    /// Whether replacing `count` pulses from `at` on, from 0, by those of `put` leaves a track
    /// within the limits. Only `put` is looked through: it has to fit between the pulses that stay.
    pub fn can_splice(&self, at: usize, count: usize, put: &Gap<Pulse>) -> bool
        ensures { IsTrue result ↔ CanSplice self.now.micros at count put.now.items self.now.pulses }
    {
        let len = self.len();
        // If `at` is above `len`, the difference is not taken, so it cannot wrap.
        if at > len || count > len - at {
            return false;
        }
        if put.len() > self.room() + count {
            return false;
        }
        stands(put, self.free_from(at), self.free_to(at + count))
    }

    /// Replaces the `count` pulses from `at` on, from 0, by those of `put`, which is empty then.
    /// The replaced ones go to `taken`, which must be empty and have room for them.
    pub fn splice(
        &mut self,
        at: usize,
        count: usize,
        put: &mut Gap<Pulse>,
        taken: &mut Gap<Pulse>,
    ) -> Span
        requires can { CanSplice self.old.micros at count put.old.items self.old.pulses }
        requires spare { length put.old.items ≤ self.old.spare + count }
        requires empty { taken.old.items ≡ [] }
        requires room { count ≤ taken.old.capacity }
        ensures pulses { self.new.pulses ≡ spliced at count put.old.items self.old.pulses }
        ensures edges { (t : ℕ) →
            is_edge t self.new.pulses ≡
            replaced (edges_of taken.new.items) (edges_of put.old.items) t
            (is_edge t self.old.pulses) }
        ensures moved { (taken.new.items ≡ piece at count self.old.pulses) × (put.new.items ≡ []) }
        ensures place { taken.new.place ≡ count }
        ensures rest { (self.new.micros ≡ self.old.micros)
            × (length self.new.pulses + self.new.spare ≡ length self.old.pulses + self.old.spare)
            × (put.new.capacity ≡ put.old.capacity) × (taken.new.capacity ≡ taken.old.capacity) }
        ensures span { (result.at ≡ at) × (result.old ≡ count)
            × (result.new ≡ length put.old.items) }
        ensures spanned { IsSpan result.at result.old result.new self.old.pulses self.new.pulses }
    {
        // For its bound.
        let _count = self.pulses.len();
        let come = put.len();
        replace(&mut self.pulses, at, count, put, taken);
        Span {
            at,
            old: count,
            new: come,
        }
    }

    /// Whether moving the pulses `i` to `j`, both included, by `by` microseconds leaves a track
    /// within the limits. Each side of a comparison is a sum, as a difference could go below 0.
    pub fn can_shift(&self, i: usize, j: usize, by: i64) -> bool
        ensures { IsTrue result ↔ CanShift self.now.micros i j by self.now.pulses }
    {
        if i > j || j >= self.len() {
            return false;
        }
        let first = self.pulse(i).rise + ahead_of(by);
        let last = self.pulse(j).fall + ahead_of(by);
        let back = back_of(by);
        self.free_from(i) + back <= first && last < self.free_to(j + 1) + back
    }

    /// Moves the pulses `i` to `j`, both included, by `by` microseconds, below 0 to earlier times.
    pub fn shift(&mut self, i: usize, j: usize, by: i64) -> Span
        requires { CanShift self.old.micros i j by self.old.pulses }
        ensures pulses { self.new.pulses ≡ shifted i j by self.old.pulses }
        ensures edges { (t : ℕ) →
            is_edge t self.new.pulses ≡
            replaced (edges_of (piece i (count_to i j) self.old.pulses))
            (edges_of (moved by (piece i (count_to i j) self.old.pulses))) t
            (is_edge t self.old.pulses) }
        ensures rest { (self.new.micros ≡ self.old.micros) × (self.new.spare ≡ self.old.spare) }
        ensures span { (result.at ≡ i) × (result.old ≡ count_to i j) × (result.new ≡ count_to i j) }
        ensures spanned { IsSpan result.at result.old result.new self.old.pulses self.new.pulses }
    {
        let count = j - i + 1;
        move_pulses(&mut self.pulses, i, count, ahead_of(by), back_of(by));
        Span {
            at: i,
            old: count,
            new: count,
        }
    }

    /// Whether toggling the edges at the times `a` and `b`, in microseconds, leaves a track within
    /// the limits. There is one pulse more only if neither time has an edge.
    pub fn can_toggle(&self, a: u64, b: u64) -> bool
        ensures { IsTrue result ↔ CanToggle self.now.micros a b self.now.pulses }
    {
        if a >= b || b > self.length() {
            return false;
        }
        self.room() > 0 || self.is_edge_at(a) || self.is_edge_at(b)
    }

    /// Toggles the edges at the times `a` and `b`, in microseconds: one that is there goes, else
    /// one comes, so the level is inverted between them. The Span has the pulses that rise at or
    /// before `b` and fall at or after `a`.
    pub fn toggle(&mut self, a: u64, b: u64) -> Span
        requires can { CanToggle self.old.micros a b self.old.pulses }
        requires spare { 0 < self.old.spare }
        ensures pulses { edges_of self.new.pulses ≡ toggled a b (edges_of self.old.pulses) }
        ensures edges { (t : ℕ) →
            is_edge t self.new.pulses ≡ inverted a b t (is_edge t self.old.pulses) }
        ensures rest { (self.new.micros ≡ self.old.micros)
            × (length self.new.pulses + self.new.spare ≡ length self.old.pulses + self.old.spare) }
        ensures old { (result.at ≡ ended_before a self.old.pulses)
            × (result.at + result.old ≡ risen_by b self.old.pulses) }
        ensures new { (result.at ≡ ended_before a self.new.pulses)
            × (result.at + result.new ≡ risen_by b self.new.pulses) }
        ensures spanned { IsSpan result.at result.old result.new self.old.pulses self.new.pulses }
    {
        // Pulses before `at` fall before `a`, those from `before` on rise after `b`: all these
        // stay.
        let at = self.first_reaching(a);
        let before = self.find(b);
        self.pulses.move_to(at);
        toggle_right(&mut self.pulses, a, b);
        let end = self.pulses.gap_at();
        // For its bound.
        let _count = self.pulses.len();
        Span {
            at,
            old: before - at,
            new: end - at,
        }
    }

    /// The least time at which a pulse just before pulse `at` may rise, in microseconds.
    fn free_from(&self, at: usize) -> u64
        requires { at ≤ length self.now.pulses }
        ensures time { result ≡ following 0 (edges_of (take at self.now.pulses)) }
        ensures within { result ≤ 2 ^ 40 + 1 }
    {
        if at == 0 {
            0
        } else {
            self.pulse(at - 1).fall + 1
        }
    }

    /// The time before which a pulse just before pulse `at` has to fall, in microseconds.
    fn free_to(&self, at: usize) -> u64
        requires { at ≤ length self.now.pulses }
        ensures time { result ≡
            first_or (self.now.micros + 1) (edges_of (drop at self.now.pulses)) }
        ensures within { result ≤ 2 ^ 40 + 1 }
    {
        if at < self.len() {
            self.pulse(at).rise
        } else {
            self.length() + 1
        }
    }
}
