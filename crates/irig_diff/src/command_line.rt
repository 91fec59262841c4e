//! The command line, read by `clap`.

ghost use Rattle.std.specs.Prelude.{IfErr, IfOk, map, string_bytes};
ghost use Rattle.clap.specs.Words.{found_of};
ghost use Rattle.irig_diff.specs.Options.{the_command};
ghost use Rattle.irig_diff.specs.Settings.{AreValues, Reads};
ghost use Rattle.irig_words.specs.Errors.{MayRefuse, WantsMemory};
ghost use Rattle.irig_words.specs.Usage.{Values};

use crate::chosen::{OptionFault, Settings};
use crate::options::settings_of;
use crate::raw_values::RawValues;
use clap::{ArgMatches, Error};
use irig_words::{Argument, UsageFault, is_on, matches_with, part_values};
use std::alloc::{AllocError, Global};

pub static ARGUMENTS: [Argument<'static>; 9] = [
    Argument::Valued("wire", "NAME"),
    Argument::Valued("wire-after", "NAME"),
    Argument::Valued("from", "TIME"),
    Argument::Valued("to", "TIME"),
    Argument::Flag("frames"),
    Argument::Valued("format", "FORMAT"),
    Argument::Valued("expression", "NUMBER"),
    Argument::Needed("BEFORE"),
    Argument::Needed("AFTER"),
];

/// What the words of a command line ask for, the program's name being the first.
pub fn settings<'a>(
    alloc: Global,
    words: &'a [String],
) -> Result<Settings<'a>, UsageFault<OptionFault>>
    ensures { Reads (map string_bytes words.entry.now) result }
{
    let raw = match raw_values(alloc, words) {
        Ok(raw) => raw,
        Err(error) => return Err(UsageFault::Words(error)),
    };
    match settings_of(&raw) {
        Ok(chosen) => Ok(chosen),
        Err(fault) => Err(UsageFault::Value(fault)),
    }
}

/// The values of a command line as text: the words, as `clap` takes them apart.
fn raw_values<'a>(alloc: Global, words: &'a [String]) -> Result<RawValues<'a>, Error>
    ensures values { IfOk result (Values the_command AreValues
        (map string_bytes words.entry.now)) }
    ensures refused { IfErr result (MayRefuse the_command (map string_bytes words.entry.now)) }
{
    match matches_with(alloc, "irig_diff", ARGUMENTS.as_slice(), words) {
        Ok(matches) => values_of(&matches),
        Err(error) => Err(error),
    }
}

/// The values of the matches, each as it was written.
fn values_of<'a>(matches: &ArgMatches<'a>) -> Result<RawValues<'a>, Error>
    ensures values { IfOk result (AreValues (found_of matches.now)) }
    ensures memory { IfErr result WantsMemory }
{
    // `clap` accepts no line without the two paths, so these errors do not come.
    let Some(before) = matches.get_str("BEFORE") else {
        return Err(AllocError.into());
    };
    let Some(after) = matches.get_str("AFTER") else {
        return Err(AllocError.into());
    };
    Ok(RawValues {
        before,
        after,
        part: part_values(matches),
        wire_after: matches.get_str("wire-after"),
        frames: is_on(matches, "frames"),
    })
}
