//! The window of a dump that a command line asks for, and where what is written of it goes.

ghost use Rattle.std.specs.Prelude.{◌≡◌, ◌&&◌, IfErr, IfOk, is_some, not};
ghost use Rattle.clap.specs.Words.{found_of};
ghost use Rattle.irig_settings.specs.Settings.{HasFault, IsPart};

use crate::chosen::OptionFault;
use clap::ArgMatches;
use irig_vcd::Window;
use irig_words::window_named;

/// The window that the matches ask for; a part must not replace the whole.
pub fn window_of(matches: &ArgMatches<'_>) -> Result<Option<Window>, OptionFault>
    ensures part { IfOk result (IsPart (found_of matches.now)) }
    ensures fault { IfErr result (HasFault (found_of matches.now)) }
{
    let from = matches.get_str("from");
    let to = matches.get_str("to");
    let out = matches.get_str("out");
    let window = match window_named(from, to) {
        Ok(window) => window,
        Err(fault) => return Err(OptionFault::Window(fault)),
    };
    if lacks_path(window, out) {
        return Err(OptionFault::Out);
    }
    Ok(window)
}

fn lacks_path(window: Option<Window>, out: Option<&str>) -> bool
    ensures { result ≡ (is_some window && not (is_some out.entry)) }
{
    window.is_some() && out.is_none()
}
