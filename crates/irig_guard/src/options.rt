//! What the values of a command line mean.

ghost use Rattle.std.specs.Prelude.{◌≡◌, ◌↔◌, IfErr, IfOk, IsTrue};
ghost use Rattle.irig_guard.specs.Chosen.{HasFault, IsChosen, is_out_track};

use crate::chosen::{OptionFault, Settings};
use crate::raw_values::RawValues;
use irig_words::{format_named, window_named};

/// What the values of a command line ask for.
pub fn settings_of<'a>(raw: RawValues<'a>) -> Result<Settings<'a>, OptionFault>
    ensures chosen { IfOk result (IsChosen raw.entry) }
    ensures fault { IfErr result (HasFault raw.entry) }
{
    let window = match window_named(raw.from, raw.to) {
        Ok(window) => window,
        Err(fault) => return Err(OptionFault::Window(fault)),
    };
    let format = match format_named(raw.format, raw.expression) {
        Ok(format) => format,
        Err(fault) => return Err(OptionFault::Format(fault)),
    };
    if is_out_track(&raw) {
        return Err(OptionFault::Out);
    }
    if raw.save && raw.out.is_none() {
        return Err(OptionFault::Save);
    }
    Ok(Settings {
        track: raw.track,
        wire: raw.wire,
        window,
        out: raw.out,
        others: raw.others,
        save: raw.save,
        moved: raw.moved,
        format,
    })
}

/// Whether `--out` is written as the track is; other names of one file are found out later.
fn is_out_track(raw: &RawValues<'_>) -> bool
    ensures { result ≡ is_out_track raw.now }
{
    match raw.out {
        Some(out) => out == raw.track,
        None => false,
    }
}
