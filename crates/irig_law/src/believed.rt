//! Which frames are believed.

ghost use Rattle.std.specs.Prelude.{◌≡◌, ◌≤◌, ◌<◌, ◌+◌, ◌^◌, ◌++◌, [], ℕ, IfOk, OnOk, map};
ghost use Rattle.irig_index.specs.Frames.{frames};
ghost use Rattle.irig_law.specs.Believed.{believed, believed_in, chain_after, is_true_at, kept};
ghost use Rattle.irig_law.specs.Believed.{with_frame};
ghost use Rattle.irig_law.specs.{Chains.chains_of, OfOne.is_right, Points.AreFrames};

use crate::chain::{Chain, agree};
use crate::chains::{chains_of, fine_at};
use crate::fine::{Fine, fine_frames};
use crate::frame::Frame;
use crate::of_one::{is_right, sizes_of};
use irig_codes::Format;
use irig_times::FrameLens;
use irig_track::Lens;
use std::alloc::{AllocError, Global};

/// The frames that `part_points` takes, in order: with `alone` all that read well.
pub fn believed_frames(
    alloc: Global,
    pulses: &mut Lens<'_>,
    records: &mut FrameLens<'_>,
    format: Format,
    century: u32,
    alone: bool,
) -> Result<Vec<Frame>, AllocError>
    requires frames { records.old.records ≡ frames format pulses.old.track.pulses }
    requires century { century ≤ 99 }
    ensures believed { IfOk result (λ list.
        list.items ≡ believed format alone century pulses.old.track.pulses) }
    ensures frames { IfOk result (λ list.
        AreFrames pulses.old.track.pulses list.items) }
    ensures pulses { pulses.new.track ≡ pulses.old.track }
    ensures same { records.new.records ≡ records.old.records }
{
    let fine = fine_frames(alloc, pulses, records, format)?;
    let list = believed_in(alloc, format, century, alone, &fine)?;
    Ok(list)
}

/// Those among the frames that read well.
fn believed_in(
    alloc: Global,
    format: Format,
    century: u32,
    alone: bool,
    frames: &[Fine],
) -> Result<Vec<Frame>, AllocError>
    requires century { century ≤ 99 }
    ensures believed { IfOk result (λ list.
        list.items ≡ believed_in format alone century frames.now) }
{
    if alone || frames.len() == 1 {
        return all(alloc, frames);
    }
    let right = rights_of(alloc, format, century, frames)?;
    let list = kept(alloc, format, century, frames, &right)?;
    Ok(list)
}

/// All of some frames.
fn all(alloc: Global, frames: &[Fine]) -> Result<Vec<Frame>, AllocError>
    ensures { IfOk result (λ list. list.items ≡ map (λ x. x.frame) frames.now) }
{
    let mut list = Vec::new(alloc);
    for place in 0..frames.len() {
        list.push(fine_at(frames, place).frame)?;
    }
    Ok(list)
}

/// Whether each chain of some frames is right.
fn rights_of(
    alloc: Global,
    format: Format,
    century: u32,
    frames: &[Fine],
) -> Result<Vec<bool>, AllocError>
    requires century { century ≤ 99 }
    ensures right { IfOk result (λ list. (i : ℕ) → is_true_at list.items i
        ≡ is_right format century (chains_of format century frames.now) i) }
{
    let chains = chains_of(alloc, format, century, frames)?;
    let list = rights_in(alloc, format, century, &chains)?;
    Ok(list)
}

/// Whether each of some chains is right.
fn rights_in(
    alloc: Global,
    format: Format,
    century: u32,
    chains: &[Chain],
) -> Result<Vec<bool>, AllocError>
    requires century { century ≤ 99 }
    ensures right { IfOk result (λ list. (i : ℕ) → is_true_at list.items i
        ≡ is_right format century chains.now i) }
{
    let sizes = sizes_of(alloc, format, century, chains)?;
    let mut list = Vec::new(alloc);
    for one in 0..chains.len() {
        let right = is_right(format, century, chains, &sizes, one);
        list.push(right)?;
    }
    Ok(list)
}

/// The frames of the chains of which `right` is true.
fn kept(
    alloc: Global,
    format: Format,
    century: u32,
    frames: &[Fine],
    right: &[bool],
) -> Result<Vec<Frame>, AllocError>
    requires century { century ≤ 99 }
    ensures { IfOk result (λ list.
        list.items ≡ kept format century (is_true_at right.now) frames.now) }
{
    let mut list = Vec::new(alloc);
    if frames.is_empty() {
        return Ok(list);
    }
    let mut before = fine_at(frames, 0);
    let mut number = 0;
    keep(&mut list, is_true_at(right, number), &before)?;
    for place in 1..frames.len() {
        let frame = fine_at(frames, place);
        number = chain_after(format, century, number, &before, &frame);
        keep(&mut list, is_true_at(right, number), &frame)?;
        before = frame;
    }
    Ok(list)
}

/// Adds a frame to a list, if its chain is right.
fn keep(list: &mut Vec<Frame>, right: bool, frame: &Fine) -> Result<(), AllocError>
    ensures { OnOk result (list.new.items ≡ list.old.items ++ with_frame right frame.now []) }
{
    if right {
        list.push(frame.frame)?;
        Ok(())
    } else {
        Ok(())
    }
}

/// The number of the chain of a frame, if the frame before it is of the chain `number`.
fn chain_after(format: Format, century: u32, number: usize, before: &Fine, frame: &Fine) -> usize
    requires century { century ≤ 99 }
    requires few { number < 2 ^ 63 }
    ensures number { result ≡ chain_after format century number before.now frame.now }
    ensures low { result ≤ number + 1 }
{
    if agree(format, century, before, frame) {
        number
    } else {
        number + 1
    }
}

/// Whether a list has `true` there.
fn is_true_at(list: &[bool], place: usize) -> bool
    ensures { result ≡ is_true_at list.now place }
{
    place < list.len() && list[place]
}
