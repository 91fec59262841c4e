//! Stretches of a trace, in which whole pulses are taken in one step.

ghost use Rattle.std.specs.Prelude.{◌≡◌, ◌≤◌, ◌<◌, ◌+◌, ◌++◌, ◌∷◌, [], ◌↔◌, List, true, false};
ghost use Rattle.std.specs.Prelude.{OnOk, OnErr, IfSome, length};
ghost use Rattle.irig_vcd.specs.Level.{Change, change};
ghost use Rattle.irig_vcd.specs.{Code.Along.LiesOn, Code.Trace.Follows};
ghost use Rattle.irig_recording.specs.Edges.{edges_kept};

use crate::trace::Trace;
use irig_recording::LENGTH_LIMIT;
use std::alloc::AllocError;

/// What becomes of the edges from the trace's time up to and with the microsecond `limit`. If
/// `is_kept` is true, they are in the window: each is kept at its time less `from`, and at most 2 *
/// `most` + 1 of all edges of the dump. No two are in one microsecond, so no test is needed for
/// that, and the steps are fast.
#[derive(Clone, Copy)]
pub struct Stretch {
    pub from: u64,
    pub limit: u64,
    pub most: usize,
    pub is_kept: bool,
}

impl Trace {
    /// Whether the level is low after the last change.
    #[inline(always)]
    pub fn is_low(&self) -> bool
        ensures { result ≡ true → self.entry.now.now ≡ false }
    {
        !self.now
    }

    /// The stretch that begins at the trace's time. Before the window it goes up to its begin,
    /// after it to `LENGTH_LIMIT`, and in it, at a fall whose rise is kept, up to its end. Else in
    /// the window there is none, as no fall waits.
    #[inline(always)]
    pub fn stretch(&self) -> Option<Stretch>
        requires { self.now.now ≡ false }
        ensures { IfSome result (λ s. LiesOn s self.entry.now) }
    {
        let (from, to) = match self.extent.window {
            None => (0, LENGTH_LIMIT),
            Some(window) => (window.from, window.to.min(LENGTH_LIMIT)),
        };
        let most = self.extent.most_pulses();
        if self.time < from {
            return Some(apart(from.min(LENGTH_LIMIT), most));
        }
        if self.time >= to {
            return Some(apart(LENGTH_LIMIT, most));
        }
        // High before and low now: a fall is at the trace's time.
        if self.before && self.edges.is_open() {
            return Some(Stretch {
                from,
                limit: to,
                most,
                is_kept: true,
            });
        }
        None
    }

    /// Whether two edges more can be kept on the stretch.
    #[inline(always)]
    pub fn has_room(&self, stretch: Stretch) -> bool
        ensures { result ≡ true ↔ (length self.entry.now.edges + 2 ≤ edges_kept stretch.most) }
    {
        self.edges.has_room(stretch.most)
    }

    /// Takes the next rise and the next fall, for which the caller asked `has_room`. The last fall
    /// of a trace is not kept before the next rise comes: if edges are kept, the fall that waits is
    /// kept with `rise`, and then `fall` waits.
    #[inline(always)]
    pub fn put_pulse(&mut self, rise: u64, fall: u64, stretch: Stretch) -> Result<(), AllocError>
        requires here { LiesOn stretch self.old }
        requires room { stretch.is_kept ≡ true
            → length self.old.edges + 2 ≤ edges_kept stretch.most }
        requires first { self.old.time < rise }
        requires second { rise < fall }
        requires within { fall ≤ stretch.limit }
        ensures ok { OnOk result
            ((changes : List Change) → Follows changes self.old
            → Follows (changes ++ change rise true ∷ change fall false ∷ []) self.new) }
        ensures time { OnOk result (self.new.time ≡ fall) }
        ensures here { OnOk result (LiesOn stretch self.new) }
        ensures extent { self.new.extent ≡ self.old.extent }
        ensures kept { OnErr result (stretch.is_kept ≡ true) }
    {
        if !stretch.is_kept {
            self.time = fall;
            return Ok(());
        }
        self.edges
            .close_and_open(self.time - stretch.from, rise - stretch.from)?;
        self.time = fall;
        Ok(())
    }
}

/// A stretch outside the window: no edge is kept, and `from` is not used.
fn apart(limit: u64, most: usize) -> Stretch
    ensures limit { result.limit ≡ limit }
    ensures most { result.most ≡ most }
    ensures apart { result.is_kept ≡ false }
{
    Stretch {
        from: 0,
        limit,
        most,
        is_kept: false,
    }
}
