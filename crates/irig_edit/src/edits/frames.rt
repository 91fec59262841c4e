//! The pulses of frames that are generated: 100 a frame, one for each element.

ghost use Rattle.std.specs.Prelude.{◌≡◌, ◌+◌, ◌*◌, ◌^◌, ◌<◌, ◌≤◌, ◌++◌, length, IsTrue, IfOk};
ghost use Rattle.irig_codes.specs.Format.{control_count_of, interval_of};
ghost use Rattle.irig_gap.specs.Items.{gap_view};
ghost use Rattle.irig_moment.specs.Generated.{starts_in};
ghost use Rattle.irig_edit.specs.Edits.Regenerated.{index_point, frame_pulses, frames_end};
ghost use Rattle.irig_edit.specs.Edits.Regenerated.{frames_pulses};

use irig_codes::{Element, Format, encode, nominal};
use irig_gap::Gap;
use irig_moment::Moment;
use irig_saved::Pulses;
use irig_track::Pulse;
use std::alloc::{AllocError, Global};

/// How long this many frames are together, in microseconds. An interval has at most 100,000.
pub(crate) fn span(format: Format, frames: u64) -> u64
    requires { frames ≤ 10000 }
    ensures value { result ≡ 100 * frames * interval_of format.kind }
    ensures short { result ≤ 100000000000 }
{
    100 * frames * format.interval()
}

/// The pulses of `frames` frames from `start` on. The first carries the moment, each later one a
/// frame period more. All carry `control`, whose lowest bit is the first control element.
pub(crate) fn pulses_of(
    alloc: Global,
    format: Format,
    start: u64,
    frames: u64,
    moment: Moment,
    control: u64,
) -> Result<Pulses, AllocError>
    requires few { frames ≤ 10000 }
    requires within { frames_end format start frames ≤ 2 ^ 40 }
    requires starts { IsTrue (starts_in format moment) }
    requires controls { control < 2 ^ control_count_of format }
    ensures { IfOk result (λ put. put ≡ frames_pulses format start frames moment control) }
{
    let mut pulses = Gap::new(alloc);
    pulses.reserve(100 * frames as usize)?;
    for k in 0..frames {
        let elements = encode(format, &moment.fields(format, k, control));
        put_frame(&mut pulses, format, start, k, &elements);
    }
    Ok(Pulses::of(pulses))
}

/// Adds the 100 pulses of frame `k`, from 0. With the limits `few` and `within` no sum is too
/// large.
fn put_frame(pulses: &mut Gap<Pulse>, format: Format, start: u64, k: u64, elements: &[Element; 100])
    requires last { pulses.old.place ≡ length pulses.old.items }
    requires room { length pulses.old.items + 100 ≤ pulses.old.capacity }
    requires few { k ≤ 10000 }
    requires within { index_point format start k 100 ≤ 2 ^ 40 }
    ensures { pulses.new ≡ gap_view
        (pulses.old.items ++ frame_pulses format start k elements.now)
        (pulses.old.place + 100) pulses.old.capacity }
{
    let interval = format.interval();
    for element in 0..100 {
        let rise = start + (100 * k + element as u64) * interval;
        let width = nominal(format, elements[element]);
        pulses.put(Pulse {
            rise,
            fall: rise + width,
        });
    }
}
