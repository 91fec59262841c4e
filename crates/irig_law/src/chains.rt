//! The chains of the frames of a track.

ghost use Rattle.std.specs.Prelude.{◌≡◌, ◌<◌, ◌≤◌, ◌+◌, ◌^◌, ◌++◌, ◌∷◌, IfOk, List, Some};
ghost use Rattle.std.specs.Prelude.{length, slice_get};
ghost use Rattle.irig_law.specs.Chains.{chains_from, chains_of};
ghost use Rattle.irig_law.specs.declared.fine.Fine.{Fine};

use crate::chain::{Chain, agree, alone, longer};
use crate::fine::Fine;
use irig_codes::Format;
use std::alloc::{AllocError, Global};

/// The chains of some frames, in order.
pub fn chains_of(
    alloc: Global,
    format: Format,
    century: u32,
    frames: &[Fine],
) -> Result<Vec<Chain>, AllocError>
    requires century { century ≤ 99 }
    ensures chains { IfOk result (λ list.
        list.items ≡ chains_of format century frames.now) }
{
    let mut list = Vec::new(alloc);
    if frames.is_empty() {
        return Ok(list);
    }
    let mut chain = alone(&fine_at(frames, 0));
    for place in 1..frames.len() {
        let frame = fine_at(frames, place);
        chain = go_on(&mut list, format, century, chain, &frame)?;
    }
    list.push(chain)?;
    Ok(list)
}

/// The chain that a frame is in, which is after those of a chain so far. If that one ends, it is
/// added to a list.
fn go_on(
    list: &mut Vec<Chain>,
    format: Format,
    century: u32,
    chain: Chain,
    frame: &Fine,
) -> Result<Chain, AllocError>
    requires century { century ≤ 99 }
    requires many { chain.many < 2 ^ 63 }
    ensures chains { IfOk result (λ next. (rest : List Fine) → list.new.items
        ++ chains_from format century next rest ≡ list.old.items
        ++ chains_from format century chain (frame.now ∷ rest)) }
    ensures many { IfOk result (λ next. next.many ≤ chain.many + 1) }
{
    if agree(format, century, &chain.last, frame) {
        Ok(longer(&chain, frame))
    } else {
        list.push(chain)?;
        Ok(alone(frame))
    }
}

/// The frame at a place of a list.
pub fn fine_at(frames: &[Fine], place: usize) -> Fine
    requires { place < length frames.now }
    ensures { slice_get frames.now place ≡ Some result }
{
    frames[place]
}
