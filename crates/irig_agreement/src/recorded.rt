//! What is kept of a recording, so that results can be compared with it.

ghost use Rattle.std.specs.Prelude.{◌≡◌, ◌≤◌, IfOk, false};
ghost use Rattle.irig_timed.specs.Knowns.{IsKnown};
ghost use Rattle.irig_agreement.specs.Recorded.{IsKept};

use crate::doubts::doubts_of;
use irig_codes::Format;
use irig_index::Index;
use irig_timed::Known;
use irig_times::FrameLens;
use irig_track::Track;
use std::alloc::{AllocError, Global};
use std::marker::Model;

/// What is known of the times of a recording, and of each pulse whether it is doubted; the format
/// in which its frames are read, and the century of years of two digits.
#[derive(Drop)]
pub struct Kept {
    pub known: Known,
    pub doubts: Vec<bool>,
    pub format: Format,
    pub century: u32,
}

/// A recording, as it was, with that.
#[derive(Drop)]
pub struct Recorded {
    pub(crate) track: Track,
    pub(crate) kept: Kept,
}

impl Model for Recorded {
    ghost use Rattle.irig_agreement.specs.Recorded.{IsKept, RecordedView};

    ghost Value = { RecordedView };

    ghost view = { λ r. record {
      format = r.kept.format;
      century = r.kept.century;
      pulses = r.track.pulses;
    } };

    ghost invariant = { λ r. IsKept r.track.pulses r.kept };
}

impl Recorded {
    pub fn of(
        alloc: Global,
        track: Track,
        format: Format,
        century: u32,
    ) -> Result<Recorded, AllocError>
        requires century { century ≤ 99 }
        ensures format { IfOk result (λ r. r.format ≡ format) }
        ensures century { IfOk result (λ r. r.century ≡ century) }
        ensures pulses { IfOk result (λ r. r.pulses ≡ track.pulses) }
    {
        let kept = kept_of(alloc, &track, format, century)?;
        Ok(Recorded { track, kept })
    }
}

fn kept_of(alloc: Global, track: &Track, format: Format, century: u32) -> Result<Kept, AllocError>
    requires century { century ≤ 99 }
    ensures kept { IfOk result (λ kept. IsKept track.now.pulses kept) }
    ensures format { IfOk result (λ kept. kept.format ≡ format) }
    ensures century { IfOk result (λ kept. kept.century ≡ century) }
{
    let known = known_of(alloc, track, format, century)?;
    let doubts = doubts_of(alloc, &mut track.lens(), &known.frames, format, century)?;
    Ok(Kept {
        known,
        doubts,
        format,
        century,
    })
}

/// What is known of the times of a track.
pub fn known_of(
    alloc: Global,
    track: &Track,
    format: Format,
    century: u32,
) -> Result<Known, AllocError>
    requires century { century ≤ 99 }
    ensures known { IfOk result (λ known. IsKnown format false century track.now.pulses known) }
{
    let mut pulses = track.lens();
    let index = Index::build(alloc, &mut pulses, format)?;
    let mut records = FrameLens::new(&index);
    let known = Known::of(alloc, &mut pulses, &mut records, format, century, false)?;
    Ok(known)
}
