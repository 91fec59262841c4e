//! The command line, read by `clap`.

ghost use Rattle.std.specs.Prelude.{◌≡◌, IfErr, IfOk, Some, codes, map, string_bytes};
ghost use Rattle.clap.specs.Words.{first_value, found_of};
ghost use Rattle.irig_explain.specs.Options.{the_command};
ghost use Rattle.irig_explain.specs.Settings.{AreValues, Reads};
ghost use Rattle.irig_words.specs.Errors.{MayRefuse, WantsMemory};
ghost use Rattle.irig_words.specs.Usage.{Values};

use crate::chosen::{Chosen, OptionFault};
use crate::options::chosen_of;
use crate::raw_values::RawValues;
use clap::{ArgMatches, Error};
use irig_words::{Argument, UsageFault, is_on, matches_with, part_values};
use std::alloc::{AllocError, Global};

pub static ARGUMENTS: [Argument<'static>; 8] = [
    Argument::Valued("wire", "NAME"),
    Argument::Valued("from", "TIME"),
    Argument::Valued("to", "TIME"),
    Argument::Valued("format", "FORMAT"),
    Argument::Valued("expression", "NUMBER"),
    Argument::Flag("sure"),
    Argument::Flag("json"),
    Argument::Needed("TRACK"),
];

/// What the words of a command line ask for, the program's name being the first.
pub fn chosen<'a>(alloc: Global, words: &'a [String]) -> Result<Chosen<'a>, UsageFault<OptionFault>>
    ensures { Reads (map string_bytes words.entry.now) result }
{
    let raw = match raw_values(alloc, words) {
        Ok(raw) => raw,
        Err(error) => return Err(UsageFault::Words(error)),
    };
    match chosen_of(&raw) {
        Ok(chosen) => Ok(chosen),
        Err(fault) => Err(UsageFault::Value(fault)),
    }
}

fn raw_values<'a>(alloc: Global, words: &'a [String]) -> Result<RawValues<'a>, Error>
    ensures values { IfOk result (Values the_command AreValues
        (map string_bytes words.entry.now)) }
    ensures refused { IfErr result (MayRefuse the_command (map string_bytes words.entry.now)) }
{
    match matches_with(alloc, "irig_explain", ARGUMENTS.as_slice(), words) {
        Ok(matches) => values_of(&matches),
        Err(error) => Err(error),
    }
}

/// The values of the matches, each as it was written; `None` for an option that is not given.
fn values_of<'a>(matches: &ArgMatches<'a>) -> Result<RawValues<'a>, Error>
    ensures values { IfOk result (AreValues (found_of matches.now)) }
    ensures memory { IfErr result WantsMemory }
{
    let Some(track) = matches.get_str("TRACK") else {
        // `clap` accepts no line without the track, so this does not come.
        return Err(AllocError.into());
    };
    Ok(raw_of(track, matches))
}

fn raw_of<'a>(track: &'a str, matches: &ArgMatches<'a>) -> RawValues<'a>
    requires { first_value (found_of matches.now) (codes "TRACK") ≡ Some track.now }
    ensures { AreValues (found_of matches.now) result }
{
    RawValues {
        track,
        part: part_values(matches),
        sure: is_on(matches, "sure"),
        json: is_on(matches, "json"),
    }
}
