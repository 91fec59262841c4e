//! What is known of a stretch between two frames: what happened there, how many pulses deny each
//! frame of the code, and what is seen of its pulses.

ghost use Rattle.std.specs.Prelude.{◌≡◌, ◌<◌, ◌≤◌, ◌+◌, ◌^◌, IfOk};
ghost use Rattle.irig_law.specs.Told.{IsTold};

use crate::clocks::slack_of;
use crate::doubts::denials_by;
use crate::frame::Frame;
use crate::happened::{Happened, stretch, what_happened};
use crate::names::Seen;
use crate::seens::{seen_after, seen_before};
use irig_codes::Format;
use irig_track::Lens;
use std::alloc::{AllocError, Global};

#[derive(Drop)]
pub struct Told {
    pub happened: Happened,
    pub denials: Vec<u32>,
    pub after: Vec<Seen>,
    pub before: Vec<Seen>,
}

/// Of two frames next to each other.
pub fn told_of(
    alloc: Global,
    pulses: &mut Lens<'_>,
    format: Format,
    century: u32,
    from: &Frame,
    to: &Frame,
) -> Result<Told, AllocError>
    requires century { century ≤ 99 }
    requires times { (from.now.time.micros < 61000000) × (to.now.time.micros < 61000000) }
    requires order { (from.now.marker < to.now.marker) × (to.now.marker + 100 ≤ 2 ^ 26) }
    ensures told { IfOk result (λ t.
        IsTold format century pulses.old.track.pulses from.now to.now t) }
    ensures pulses { pulses.new.track ≡ pulses.old.track }
{
    let slack = slack_of(pulses, from, to);
    let many = stretch(format, from, to);
    let after = seen_after(alloc, pulses, format, from, slack, many)?;
    let gap = to.marker - from.marker;
    let before = seen_before(alloc, pulses, format, to, slack, gap + 1)?;
    let happened = what_happened(alloc, pulses, format, century, from, to, &after, &before)?;
    let denials = denials_by(alloc, pulses, format, from, to, &happened, &after, &before)?;
    Ok(Told {
        happened,
        denials,
        after,
        before,
    })
}
