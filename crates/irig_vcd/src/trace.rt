//! The level of a wire, traced change by change, and its edges.

ghost use Rattle.std.specs.Prelude.{◌≡◌, ◌≤◌, ◌*◌, ◌^◌, true, false, ◌∷◌, [], ◌++◌, ℕ, List};
ghost use Rattle.std.specs.Prelude.{OnOk, OnErr, IfOk, length, take};
ghost use Rattle.std.specs.Prelude.{if◌then◌else◌};
ghost use Rattle.irig_vcd.specs.Level.{Change, change, differs};
ghost use Rattle.irig_vcd.specs.{Code.Trace.EdgeBefore, Code.Trace.Follows};
ghost use Rattle.irig_vcd.specs.{Code.Trace.IsKept, Extent.most_pulses, Window.moved};
ghost use Rattle.irig_vcd.specs.Window.{within};
ghost use Rattle.irig_recording.specs.Edges.{edges_kept};

use crate::extent::Extent;
use crate::window::moved;
use irig_recording::Edges;
use std::alloc::{AllocError, Global};

/// A level that was followed up to `time`, in microseconds of the dump; it is `now` from there on.
/// The last change in a microsecond counts: so an edge is kept only when the trace goes on to a
/// later one of the window, if the level differs from that of the microsecond before (`before`).
#[derive(Drop)]
pub struct Trace {
    pub extent: Extent,
    pub(crate) time: u64,
    pub(crate) before: bool,
    pub(crate) now: bool,
    pub(crate) edges: Edges,
}

impl Trace {
    /// A trace that has followed no change: the level is low from time 0 on.
    pub fn new(alloc: Global, extent: Extent) -> Trace
        ensures start { result.time ≡ 0 }
        ensures follows { Follows [] result }
        ensures extent { result.extent ≡ extent }
    {
        Trace {
            extent,
            time: 0,
            before: false,
            now: false,
            edges: Edges::new(alloc),
        }
    }

    /// Goes on to `time`; the level does not change. If that falls on a later microsecond of the
    /// window than the last time, the level there is settled, and an edge is kept if it differs
    /// from the one before. On the same one a further change may come.
    fn advance(&mut self, time: u64) -> Result<(), AllocError>
        requires { self.old.time ≤ time }
        ensures ok { OnOk result
            ((changes : List Change) → Follows changes self.old → Follows changes self.new) }
        ensures time { OnOk result (self.new.time ≡ time) }
        ensures extent { self.new.extent ≡ self.old.extent }
        ensures refused { OnErr result
            (length self.old.edges ≤ 2 * most_pulses self.old.extent) }
        ensures memory { OnErr result
            ((changes : List Change) → Follows changes self.old → EdgeBefore time changes) }
    {
        let window = self.extent.window;
        let place = moved(window, self.time);
        if moved(window, time) <= place {
            self.time = time;
            return Ok(());
        }
        let most = self.extent.most_pulses();
        keep(&mut self.edges, most, differ(self.now, self.before), place)?;
        self.before = self.now;
        self.time = time;
        Ok(())
    }

    /// Takes the next change: from `time` on the level is high (`high`) or low.
    pub fn put(&mut self, time: u64, high: bool) -> Result<(), AllocError>
        requires { self.old.time ≤ time }
        ensures ok { OnOk result
            ((changes : List Change) → Follows changes self.old
            → Follows (changes ++ change time high ∷ []) self.new) }
        ensures time { OnOk result (self.new.time ≡ time) }
        ensures extent { self.new.extent ≡ self.old.extent }
        ensures refused { OnErr result
            (length self.old.edges ≤ 2 * most_pulses self.old.extent) }
        ensures memory { OnErr result
            ((changes : List Change) → Follows changes self.old → EdgeBefore time changes) }
    {
        self.advance(time)?;
        self.now = high;
        Ok(())
    }

    /// The edges of the window, each at its microsecond of the window, if the dump ends at `end`.
    /// If the level is high there, a fall is added, so that the last pulse ends.
    pub fn finish(mut self, end: u64) -> Result<Edges, AllocError>
        requires { self.time ≤ end }
        ensures edges { IfOk result
            (λ edges. (changes : List Change) → Follows changes self
            → IsKept (most_pulses self.extent) (within self.extent.window changes)
            (moved self.extent.window end) edges) }
        ensures memory { OnErr result
            ((changes : List Change) → Follows changes self → EdgeBefore end changes) }
    {
        self.advance(end)?;
        let most = self.extent.most_pulses();
        let place = moved(self.extent.window, end);
        keep(&mut self.edges, most, self.before, place)?;
        Ok(self.edges)
    }
}

fn differ(level: bool, other: bool) -> bool
    ensures { result ≡ differs level other }
{
    level != other
}

/// Adds an edge if `is_edge` is true, unless there are more already than `most` pulses have: that
/// there are too many can be seen then.
fn keep(edges: &mut Edges, most: usize, is_edge: bool, edge: u64) -> Result<(), AllocError>
    requires limit { most ≤ 2 ^ 26 }
    ensures ok { OnOk result
        ((all : List ℕ) → edges.old ≡ take (edges_kept most) all
        → edges.new ≡ take (edges_kept most) (all ++ (if is_edge then edge ∷ [] else []))) }
    ensures refused { OnErr result ((is_edge ≡ true) × (length edges.old ≤ 2 * most)) }
{
    if !is_edge {
        return Ok(());
    }
    if edges.is_full(most) {
        return Ok(());
    }
    edges.push(edge)
}
