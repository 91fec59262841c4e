//! Which pulses of a track the law of time doubts, as a list that has it of each pulse. Of a pulse
//! past its end it has that it is not.

ghost use Rattle.std.specs.Prelude.{◌≡◌, ◌⊎◌, ◌↔◌, ◌≤◌, ◌<◌, ◌+◌, ◌^◌, ℕ, IfOk, OnOk, false, true, get_or};
ghost use Rattle.std.specs.Prelude.{Some, length, slice_get};
ghost use Rattle.irig_law.specs.{Doubting.IsDoubted, Points.AreFrames};
ghost use Rattle.irig_agreement.specs.Doubts.{AreDoubts};

use irig_codes::Format;
use irig_law::{Frame, doubted_in};
use irig_track::Lens;
use std::alloc::{AllocError, Global};

/// The pulses that are doubted between the believed frames of a track.
pub fn doubts_of(
    alloc: Global,
    pulses: &mut Lens<'_>,
    frames: &[Frame],
    format: Format,
    century: u32,
) -> Result<Vec<bool>, AllocError>
    requires century { century ≤ 99 }
    requires frames { AreFrames pulses.old.track.pulses frames.now }
    ensures doubts { IfOk result (λ list.
        AreDoubts format century pulses.old.track.pulses frames.now list.items) }
    ensures pulses { pulses.new.track ≡ pulses.old.track }
{
    // For the proof alone: the call promises how many pulses there can be.
    let _count = pulses.len();
    let mut list = Vec::new(alloc);
    for place in 1..frames.len() {
        let from = frame_at(frames, place - 1);
        let to = frame_at(frames, place);
        add_doubts(alloc, &mut list, pulses, format, century, &from, &to)?;
    }
    Ok(list)
}

fn frame_at(frames: &[Frame], place: usize) -> Frame
    requires { place < length frames.now }
    ensures { slice_get frames.now place ≡ Some result }
{
    frames[place]
}

/// Adds those between two frames next to each other. If memory runs out, some are added.
fn add_doubts(
    alloc: Global,
    list: &mut Vec<bool>,
    pulses: &mut Lens<'_>,
    format: Format,
    century: u32,
    from: &Frame,
    to: &Frame,
) -> Result<(), AllocError>
    requires century { century ≤ 99 }
    requires times { (from.now.time.micros < 61000000) × (to.now.time.micros < 61000000) }
    requires order { (from.now.marker < to.now.marker) × (to.now.marker + 100 ≤ 2 ^ 26) }
    requires short { length list.old.items ≤ from.now.marker }
    ensures short { OnOk result (length list.new.items ≤ to.now.marker) }
    ensures doubts { OnOk result ((k : ℕ) → (get_or list.new.items k false ≡ true)
        ↔ ((get_or list.old.items k false ≡ true)
        ⊎ IsDoubted format century pulses.old.track.pulses from.now to.now k)) }
    ensures pulses { pulses.new.track ≡ pulses.old.track }
{
    // A frame has a hundred pulses, which are not doubted.
    if to.marker == from.marker + 100 {
        return Ok(());
    }
    let doubts = doubted_in(alloc, pulses, format, century, from, to)?;
    lengthen(list, from.marker)?;
    list.extend_from_slice(&doubts)?;
    Ok(())
}

/// Makes a list so long, with pulses that are not doubted.
fn lengthen(list: &mut Vec<bool>, many: usize) -> Result<(), AllocError>
    requires short { length list.old.items ≤ many }
    ensures long { OnOk result (length list.new.items ≡ many) }
    ensures same { OnOk result ((k : ℕ) → get_or list.new.items k false
        ≡ get_or list.old.items k false) }
{
    for _place in list.len()..many {
        list.push(false)?;
    }
    Ok(())
}
