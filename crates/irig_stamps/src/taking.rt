//! Bytes of lines are taken, as they come.

ghost use Rattle.std.specs.Prelude.{◌≡◌, ◌≢◌, ◌∷◌, [], OnOk};
ghost use Rattle.irig_stamps.specs.Ready.{IsReady};
ghost use Rattle.irig_stamps.specs.Steps.{PushesAs, Takes, TakesAs};

use crate::fault::TakeFault;
use crate::progress::Progress;
use crate::settings::Settings;
use crate::stamping::put_line_out;
use irig_codes::Format;
use irig_timed::Known;
use irig_track::Lens;
use std::alloc::AllocError;

/// The most bytes of a line, its newline not counted: 1 MiB.
const LINE_LIMIT: usize = 1_048_576;

/// Takes a byte.
fn take_byte(
    state: &mut Progress,
    text: &mut Vec<u8>,
    pulses: &mut Lens<'_>,
    known: &Known,
    format: Format,
    settings: &Settings<'_>,
    byte: u8,
) -> Result<(), TakeFault>
    requires ready { IsReady format settings.now pulses.old.track.pulses known.now }
    ensures taken { TakesAs format pulses.old.track.pulses settings.now (byte ∷ [])
        text.old.items text.new.items state.old state.new result }
    ensures pulses { pulses.new.track ≡ pulses.old.track }
{
    if byte != b'\n' {
        return push_byte(state, byte);
    }
    match end_line(state, text, pulses, known, format, settings) {
        Ok(()) => Ok(()),
        Err(_) => Err(TakeFault::OutOfMemory),
    }
}

/// Adds a byte, which is no newline, to the line so far.
fn push_byte(state: &mut Progress, byte: u8) -> Result<(), TakeFault>
    requires plain { byte ≢ 10 }
    ensures { PushesAs byte state.old state.new result }
{
    if state.line.len() >= LINE_LIMIT {
        return Err(TakeFault::TooLong);
    }
    match state.line.push(byte) {
        Ok(()) => Ok(()),
        Err(_) => Err(TakeFault::OutOfMemory),
    }
}

/// Ends the line so far: adds what comes out for it to the text, counts it, and makes it empty.
pub fn end_line(
    state: &mut Progress,
    text: &mut Vec<u8>,
    pulses: &mut Lens<'_>,
    known: &Known,
    format: Format,
    settings: &Settings<'_>,
) -> Result<(), AllocError>
    requires ready { IsReady format settings.now pulses.old.track.pulses known.now }
    ensures taken { OnOk result (Takes format pulses.old.track.pulses settings.now (10 ∷ [])
        text.old.items text.new.items state.old state.new) }
    ensures next { OnOk result (state.new.line.items ≡ []) }
    ensures pulses { pulses.new.track ≡ pulses.old.track }
{
    let line = state.line.as_slice();
    let look = put_line_out(text, pulses, known, format, settings, state.count, line)?;
    state.tally.add(look);
    state.count = state.count.saturating_add(1);
    state.line.clear();
    Ok(())
}

/// Takes some bytes, in order.
pub fn take_part(
    state: &mut Progress,
    text: &mut Vec<u8>,
    pulses: &mut Lens<'_>,
    known: &Known,
    format: Format,
    settings: &Settings<'_>,
    part: &[u8],
) -> Result<(), TakeFault>
    requires ready { IsReady format settings.now pulses.old.track.pulses known.now }
    ensures taken { TakesAs format pulses.old.track.pulses settings.now part.now
        text.old.items text.new.items state.old state.new result }
    ensures pulses { pulses.new.track ≡ pulses.old.track }
{
    for byte in part {
        match take_byte(state, text, pulses, known, format, settings, *byte) {
            Ok(()) => {}
            Err(fault) => return Err(fault),
        }
    }
    Ok(())
}
