//! What the values of a command line mean.

ghost use Rattle.std.specs.Prelude.{IfErr, IfOk};
ghost use Rattle.irig_explain.specs.Chosen.{HasFault, IsChosen};

use crate::chosen::{Chosen, OptionFault};
use crate::raw_values::RawValues;
use irig_words::{format_named, window_named};

pub fn chosen_of<'a>(raw: &RawValues<'a>) -> Result<Chosen<'a>, OptionFault>
    ensures chosen { IfOk result (IsChosen raw.now) }
    ensures fault { IfErr result (HasFault raw.now) }
{
    let window = match window_named(raw.part.from, raw.part.to) {
        Ok(window) => window,
        Err(fault) => return Err(OptionFault::Window(fault)),
    };
    match format_named(raw.part.format, raw.part.expression) {
        Ok(format) => Ok(Chosen {
            track: raw.track,
            wire: raw.part.wire,
            window,
            format,
            sure: raw.sure,
            json: raw.json,
        }),
        Err(fault) => Err(OptionFault::Format(fault)),
    }
}
