//! What the values of a command line mean.

ghost use Rattle.std.specs.Prelude.{◌≡◌, IfErr, IfOk};
ghost use Rattle.irig_diff.specs.Chosen.{AreFrames, HasFault, IsChosen, names_format};

use crate::chosen::{OptionFault, Settings};
use crate::raw_values::RawValues;
use irig_codes::Format;
use irig_words::{format_named, window_named};

/// What the values of a command line ask for.
pub fn settings_of<'a>(raw: &RawValues<'a>) -> Result<Settings<'a>, OptionFault>
    ensures chosen { IfOk result (IsChosen raw.now) }
    ensures fault { IfErr result (HasFault raw.now) }
{
    let window = match window_named(raw.part.from, raw.part.to) {
        Ok(window) => window,
        Err(fault) => return Err(OptionFault::Window(fault)),
    };
    match frames_of(raw) {
        Ok(frames) => Ok(Settings {
            before: raw.before,
            wire: raw.part.wire,
            after: raw.after,
            wire_after: raw.wire_after,
            window,
            frames,
        }),
        Err(fault) => Err(fault),
    }
}

/// The format of the frames that are shown; `None` if they are not asked for.
fn frames_of(raw: &RawValues<'_>) -> Result<Option<Format>, OptionFault>
    ensures frames { IfOk result (AreFrames raw.now) }
    ensures fault { IfErr result (HasFault raw.now) }
{
    if raw.frames {
        return match format_named(raw.part.format, raw.part.expression) {
            Ok(format) => Ok(Some(format)),
            Err(fault) => Err(OptionFault::Format(fault)),
        };
    }
    if names_format(raw) {
        return Err(OptionFault::Alone);
    }
    Ok(None)
}

/// Whether an option of the format of frames is given: `--format` or `--expression`.
fn names_format(raw: &RawValues<'_>) -> bool
    ensures { result ≡ names_format raw.now }
{
    raw.part.format.is_some() || raw.part.expression.is_some()
}
