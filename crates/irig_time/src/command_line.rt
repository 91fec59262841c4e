//! The command line, read by `clap`.

ghost use Rattle.std.specs.Prelude.{◌≡◌, IfErr, IfOk, Some, codes, map, string_bytes};
ghost use Rattle.clap.specs.Words.{first_value, found_of};
ghost use Rattle.irig_time.specs.Chosen.{IsSound};
ghost use Rattle.irig_time.specs.Options.{the_command};
ghost use Rattle.irig_time.specs.Settings.{AreValues, Reads};
ghost use Rattle.irig_words.specs.Errors.{MayRefuse, WantsMemory};
ghost use Rattle.irig_words.specs.Usage.{Values};

use crate::chosen::{Chosen, OptionFault};
use crate::options::chosen_of;
use crate::raw_values::RawValues;
use clap::{ArgMatches, Error};
use irig_words::{Argument, UsageFault, is_on, matches_with, part_values};
use std::alloc::{AllocError, Global};

pub static ARGUMENTS: [Argument<'static>; 23] = [
    Argument::Valued("wire", "NAME"),
    Argument::Valued("from", "TIME"),
    Argument::Valued("to", "TIME"),
    Argument::Valued("format", "FORMAT"),
    Argument::Valued("expression", "NUMBER"),
    Argument::Valued("unit", "UNIT"),
    Argument::Valued("offset", "NUMBER"),
    Argument::Valued("column", "COLUMN"),
    Argument::Valued("comma", "CHARACTER"),
    Argument::Valued("header", "NUMBER"),
    Argument::Valued("name", "NAME"),
    Argument::Valued("year", "YEAR"),
    Argument::Valued("form", "FORM"),
    Argument::Flag("alone"),
    Argument::Flag("why"),
    Argument::Flag("bound"),
    Argument::Valued("within", "NUMBER"),
    Argument::Flag("table"),
    Argument::Flag("holes"),
    Argument::Flag("json"),
    Argument::Valued("out", "FILE"),
    Argument::Flag("quiet"),
    Argument::Needed("TRACK"),
];

/// What the words of a command line ask for, the program's name being the first.
pub fn chosen<'a>(alloc: Global, words: &'a [String]) -> Result<Chosen<'a>, UsageFault<OptionFault>>
    ensures reads { Reads (map string_bytes words.entry.now) result }
    ensures sound { IfOk result (λ c. IsSound c.settings) }
{
    let raw = match raw_values(alloc, words) {
        Ok(raw) => raw,
        Err(error) => return Err(UsageFault::Words(error)),
    };
    match chosen_of(&raw) {
        Ok(chosen) => Ok(chosen),
        Err(fault) => Err(UsageFault::Value(fault)),
    }
}

fn raw_values<'a>(alloc: Global, words: &'a [String]) -> Result<RawValues<'a>, Error>
    ensures values { IfOk result (Values the_command AreValues
        (map string_bytes words.entry.now)) }
    ensures refused { IfErr result (MayRefuse the_command (map string_bytes words.entry.now)) }
{
    match matches_with(alloc, "irig_time", ARGUMENTS.as_slice(), words) {
        Ok(matches) => values_of(&matches),
        Err(error) => Err(error),
    }
}

/// The values of the matches, each as it was written; `None` for an option that is not given.
fn values_of<'a>(matches: &ArgMatches<'a>) -> Result<RawValues<'a>, Error>
    ensures values { IfOk result (AreValues (found_of matches.now)) }
    ensures memory { IfErr result WantsMemory }
{
    let Some(track) = matches.get_str("TRACK") else {
        // `clap` accepts no line without the track, so this does not come.
        return Err(AllocError.into());
    };
    Ok(raw_of(track, matches))
}

fn raw_of<'a>(track: &'a str, matches: &ArgMatches<'a>) -> RawValues<'a>
    requires { first_value (found_of matches.now) (codes "TRACK") ≡ Some track.now }
    ensures { AreValues (found_of matches.now) result }
{
    RawValues {
        track,
        part: part_values(matches),
        unit: matches.get_str("unit"),
        offset: matches.get_str("offset"),
        column: matches.get_str("column"),
        comma: matches.get_str("comma"),
        header: matches.get_str("header"),
        name: matches.get_str("name"),
        year: matches.get_str("year"),
        form: matches.get_str("form"),
        out: matches.get_str("out"),
        alone: is_on(matches, "alone"),
        why: is_on(matches, "why"),
        bound: is_on(matches, "bound"),
        within: matches.get_str("within"),
        table: is_on(matches, "table"),
        holes: is_on(matches, "holes"),
        json: is_on(matches, "json"),
        quiet: is_on(matches, "quiet"),
    }
}
