//! What is known of the times of a track.

ghost use Rattle.std.specs.Prelude.{◌≡◌, ◌↔◌, ◌≤◌, ◌+◌, ◌^◌, ℕ, IfOk, length};
ghost use Rattle.irig_index.specs.Frames.{frames};
ghost use Rattle.irig_law.specs.declared.point.Point.{Point};
ghost use Rattle.irig_law.specs.Points.{AreFrames};
ghost use Rattle.irig_timed.specs.{Knowns.AreGaps, Moments.IsElement, Reasons.gap_with};
ghost use Rattle.irig_timed.specs.Runs.{AreRuns, IsIn, place_at, place_before};

use crate::around::{place_at, place_before};
use crate::gap::{Gap, gap_at};
use crate::held::{has_doubtful, held_in, with_doubt};
use crate::run::{Run, add_points};
use irig_codes::Format;
use irig_law::{Frame, Points, believed_frames, part_begin, part_points};
use irig_times::FrameLens;
use irig_track::Lens;
use std::alloc::{AllocError, Global};

/// The pulses that have a time, in runs, in the order of the track, and what is before each run and
/// after the last one.
#[derive(Drop)]
pub struct Known {
    pub runs: Vec<Run>,
    pub gaps: Vec<Gap>,
    /// Of each record of the track, whether its frame is believed.
    pub held: Vec<bool>,
    pub frames: Vec<Frame>,
}

impl Known {
    ghost use Rattle.irig_timed.specs.Knowns.{IsKnown, IsKnownBy};

    /// What is known of a track; `alone` believes each frame that reads well.
    pub fn of(
        alloc: Global,
        pulses: &mut Lens<'_>,
        records: &mut FrameLens<'_>,
        format: Format,
        century: u32,
        alone: bool,
    ) -> Result<Known, AllocError>
        requires frames { records.old.records ≡ frames format pulses.old.track.pulses }
        requires century { century ≤ 99 }
        ensures known { IfOk result (λ known.
            IsKnown format alone century pulses.old.track.pulses known) }
        ensures pulses { pulses.new.track ≡ pulses.old.track }
        ensures same { records.new.records ≡ records.old.records }
    {
        let frames = believed_frames(alloc, pulses, records, format, century, alone)?;
        let runs = track_runs(alloc, pulses, &frames, format, century)?;
        let held = held_in(alloc, records, &frames)?;
        let gaps = gaps_of(
            alloc, pulses, records, &held, &frames, &runs, format, century,
        )?;
        Ok(Known {
            runs,
            gaps,
            held,
            frames,
        })
    }
}

/// The runs of a track by its believed frames, part by part, so that the points of one part alone
/// take memory.
fn track_runs(
    alloc: Global,
    pulses: &mut Lens<'_>,
    frames: &[Frame],
    format: Format,
    century: u32,
) -> Result<Vec<Run>, AllocError>
    requires century { century ≤ 99 }
    requires frames { AreFrames pulses.old.track.pulses frames.now }
    ensures runs { IfOk result (λ list. AreRuns format pulses.old.track.pulses list.items) }
    ensures points { IfOk result (λ list. (k : ℕ) (x : Point) → IsIn list.items k x
        ↔ IsElement format century pulses.old.track.pulses frames.now k x) }
    ensures pulses { pulses.new.track ≡ pulses.old.track }
{
    let all = pulses.len();
    let mut runs = Vec::new(alloc);
    let mut points = Points::none(alloc);
    for part in 0..frames.len() + 1 {
        points = part_points(alloc, pulses, frames, format, century, part, &points)?;
        let from = part_begin(frames, part, all);
        let to = part_begin(frames, part + 1, all);
        add_points(&mut runs, pulses, format, &points, from, to)?;
    }
    Ok(runs)
}

/// What is before each run of a track, and after the last one.
fn gaps_of(
    alloc: Global,
    pulses: &mut Lens<'_>,
    records: &mut FrameLens<'_>,
    held: &[bool],
    believed: &[Frame],
    runs: &[Run],
    format: Format,
    century: u32,
) -> Result<Vec<Gap>, AllocError>
    requires century { century ≤ 99 }
    requires records { records.old.records ≡ frames format pulses.old.track.pulses }
    requires held { length held.now ≡ length records.old.records }
    requires believed { AreFrames pulses.old.track.pulses believed.now }
    requires runs { AreRuns format pulses.old.track.pulses runs.now }
    ensures gaps { IfOk result (λ list. AreGaps format century pulses.old.track.pulses believed.now
        held.now runs.now list.items) }
    ensures pulses { pulses.new.track ≡ pulses.old.track }
    ensures same { records.new.records ≡ records.old.records }
{
    let mut list = Vec::new(alloc);
    for place in 0..runs.len() + 1 {
        let gap = gap_before(
            pulses, records, held, believed, runs, format, century, place,
        );
        list.push(gap)?;
    }
    Ok(list)
}

/// What is before the run at a place, or after the last one.
fn gap_before(
    pulses: &mut Lens<'_>,
    records: &mut FrameLens<'_>,
    held: &[bool],
    believed: &[Frame],
    runs: &[Run],
    format: Format,
    century: u32,
    place: usize,
) -> Gap
    requires century { century ≤ 99 }
    requires records { records.old.records ≡ frames format pulses.old.track.pulses }
    requires held { length held.now ≡ length records.old.records }
    requires believed { AreFrames pulses.old.track.pulses believed.now }
    requires runs { AreRuns format pulses.old.track.pulses runs.now }
    requires place { place ≤ length runs.now }
    ensures gap { result ≡ gap_with format century pulses.old.track.pulses believed.now held.now
        (place_before runs.now place) (place_at runs.now place) }
    ensures pulses { pulses.new.track ≡ pulses.old.track }
    ensures same { records.new.records ≡ records.old.records }
{
    // For the proof alone: the call promises how many pulses there can be.
    let _count = pulses.len();
    let from = place_before(runs, place);
    let to = place_at(runs, place);
    let gap = gap_at(pulses, believed, format, century, from, to);
    let doubt = has_doubtful(records, held, format, from, to);
    with_doubt(doubt, gap)
}
