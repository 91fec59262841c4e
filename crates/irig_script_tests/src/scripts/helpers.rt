//! What scripts are obeyed on.

use irig_codes::{Format, Kind};
use irig_edit::Session;
use irig_recording::Recording;
use std::alloc::Global;

pub const TWO_PULSES: &[u8] =
    b"$timescale 1 us $end $var wire 1 ! c $end $enddefinitions $end #100 1! #120 0! #200 1! #280 \
    0! #1000";

/// Two pulses as a session in format G 2. `None` only if memory runs out.
pub fn two_pulses(alloc: Global) -> Option<Session> {
    let format = Format::new(Kind::G, 2).ok()?;
    let recording = Recording::new(alloc, 1_000, &[100, 120, 200, 280]).ok()??;
    Session::open(alloc, recording, format).ok()
}
