//! What `clap` finds in the words of a command line.

ghost use Rattle.std.specs.Prelude.{◌≡◌, IfErr, IfOk, map, string_bytes, true};
ghost use Rattle.clap.specs.Words.{HasMatchesOf, app_of, is_simple_and_free};
ghost use Rattle.irig_words.specs.Arguments.{command_with, rule_for};
ghost use Rattle.irig_words.specs.Errors.{IsMistake, MayRefuse};

use crate::arguments::{Argument, command_of};
use clap::error::ErrorKind;
use clap::{ArgMatches, Command, Error};
use std::alloc::{AllocError, Global};

/// The matches of the words, the program's name being the first. The command must have no argument
/// with a rule on another one.
pub fn matches_of<'a>(command: Command<'a>, words: &'a [String]) -> Result<ArgMatches<'a>, Error>
    requires { is_simple_and_free (app_of command) ≡ true }
    ensures parsed { IfOk result
        (HasMatchesOf (app_of command.entry) (map string_bytes words.entry.now)) }
    ensures refused { IfErr result
        (MayRefuse (app_of command.entry) (map string_bytes words.entry.now)) }
{
    command.try_get_matches_from(words)
}

/// The matches by a program's arguments.
pub fn matches_with<'a>(
    alloc: Global,
    program: &'a str,
    arguments: &[Argument<'a>],
    words: &'a [String],
) -> Result<ArgMatches<'a>, Error>
    requires { is_simple_and_free (command_with program.now (map rule_for arguments.now)) ≡ true }
    ensures parsed { IfOk result
        (HasMatchesOf (command_with program.entry.now (map rule_for arguments.now))
        (map string_bytes words.entry.now)) }
    ensures refused { IfErr result
        (MayRefuse (command_with program.entry.now (map rule_for arguments.now))
        (map string_bytes words.entry.now)) }
{
    matches_of(command_of(alloc, program, arguments)?, words)
}

/// The error for an argument that is not UTF-8, or that memory ran out, also for the command.
pub fn not_text(command: Result<Command<'_>, AllocError>) -> Error
    ensures { IsMistake result }
{
    match not_text_by(command) {
        Ok(error) => error,
        Err(error) => error.into(),
    }
}

fn not_text_by(command: Result<Command<'_>, AllocError>) -> Result<Error, AllocError>
    ensures { IfOk result IsMistake }
{
    match command {
        Ok(mut command) => not_text_of(&mut command),
        Err(error) => Err(error),
    }
}

fn not_text_of(command: &mut Command<'_>) -> Result<Error, AllocError>
    ensures { IfOk result IsMistake }
{
    command.error(
        ErrorKind::InvalidValue,
        "invalid UTF-8 was detected in one or more arguments",
    )
}
