//! The command line, read by `clap`.

ghost use Rattle.std.specs.Prelude.{IfErr, IfOk, map, string_bytes};
ghost use Rattle.clap.specs.Words.{app_of, found_of};
ghost use Rattle.irig_settings.specs.Options.{IsCommand, IsParsed};
ghost use Rattle.irig_settings.specs.Errors.{MayRefuse};
ghost use Rattle.irig_settings.specs.Settings.{Chooses, Reads};

use crate::chosen::{OptionFault, Settings};
use crate::part::window_of;
use clap::{ArgMatches, Command, Error};
use irig_words::{Argument, UsageFault, command_of, format_named, matches_of};
use std::alloc::{AllocError, Global};

static ARGUMENTS: [Argument<'static>; 7] = [
    Argument::Valued("wire", "NAME"),
    Argument::Valued("from", "TIME"),
    Argument::Valued("to", "TIME"),
    Argument::Choice("format", "FORMAT", &["A", "B", "E", "G"]),
    Argument::Choice(
        "expression",
        "NUMBER",
        &["0", "1", "2", "3", "4", "5", "6", "7"],
    ),
    Argument::Valued("out", "PATH"),
    Argument::Needed("TRACK"),
];

/// What the words of a command line ask for, the program's name being the first.
pub fn settings<'a>(
    alloc: Global,
    words: &'a [String],
) -> Result<Settings<'a>, UsageFault<OptionFault>>
    ensures { Reads (map string_bytes words.entry.now) result }
{
    match parse_words(alloc, words) {
        Ok(matches) => chosen_of(&matches),
        Err(error) => Err(UsageFault::Words(error)),
    }
}

/// What matches ask for. `clap` has tested the letter and the digit of the format.
fn chosen_of<'a>(matches: &ArgMatches<'a>) -> Result<Settings<'a>, UsageFault<OptionFault>>
    ensures { Chooses (found_of matches.now) result }
{
    let window = match window_of(matches) {
        Ok(window) => window,
        Err(fault) => return Err(UsageFault::Value(fault)),
    };
    let format = match format_named(matches.get_str("format"), matches.get_str("expression")) {
        Ok(format) => format,
        Err(_) => return Err(UsageFault::Value(OptionFault::BadExpression)),
    };
    let Some(track) = matches.get_str("TRACK") else {
        // `clap` accepts no line without the track, so this does not come.
        return Err(UsageFault::Words(AllocError.into()));
    };
    Ok(Settings {
        track,
        wire: matches.get_str("wire"),
        window,
        out: matches.get_str("out").unwrap_or(track),
        format,
    })
}

fn parse_words<'a>(alloc: Global, words: &'a [String]) -> Result<ArgMatches<'a>, Error>
    ensures parsed { IfOk result (IsParsed (map string_bytes words.entry.now)) }
    ensures refused { IfErr result (MayRefuse (map string_bytes words.entry.now)) }
{
    matches_of(command(alloc)?, words)
}

/// The command line of the program.
pub fn command<'a>(alloc: Global) -> Result<Command<'a>, AllocError>
    ensures { IfOk result (λ c. IsCommand (app_of c)) }
{
    command_of(alloc, "irig_ed", ARGUMENTS.as_slice())
}
