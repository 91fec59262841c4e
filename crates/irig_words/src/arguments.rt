//! The arguments of a command line, as `clap` takes them.

ghost use Rattle.std.specs.Prelude.{◌≡◌, IfOk, None, Some, false, map};
ghost use Rattle.clap.specs.Words.{app_of, rule_of};
ghost use Rattle.clap.specs.declared.builder.value_parser.ValueParser.TheVariants.{Names};
ghost use Rattle.irig_words.specs.Arguments.{command_with, flag, needed, option, repeated};
ghost use Rattle.irig_words.specs.Arguments.{rule_for};

use clap::{Arg, ArgAction, Command};
use std::alloc::{AllocError, Global};

/// Its name, and what a mistake calls its value.
#[derive(Clone, Copy)]
pub enum Argument<'a> {
    /// An option `--name` with a value; it can be left out.
    Valued(&'a str, &'a str),
    /// Such an option with one of these values: `clap` refuses any other.
    Choice(&'a str, &'a str, &'a [&'a str]),
    /// Such an option, which can come more than once.
    Repeated(&'a str, &'a str),
    /// An option `--name` without a value, for which `clap` stores `true`.
    Flag(&'a str),
    /// A word by itself that has to be there.
    Needed(&'a str),
}

pub fn command_of<'a>(
    alloc: Global,
    program: &'a str,
    arguments: &[Argument<'a>],
) -> Result<Command<'a>, AllocError>
    ensures { IfOk result (λ c. app_of c
        ≡ command_with program.entry.now (map rule_for arguments.now)) }
{
    let mut command = Command::new(alloc, program);
    for argument in arguments {
        command = command.arg(arg_of(alloc, *argument))?;
    }
    Ok(command)
}

fn arg_of<'a>(alloc: Global, argument: Argument<'a>) -> Arg<'a>
    ensures rule { rule_of result ≡ rule_for argument.entry }
    ensures local { result.global ≡ false }
{
    match argument {
        Argument::Valued(name, value) => valued(alloc, name, value),
        Argument::Choice(name, value, values) => choice(alloc, name, value, values),
        Argument::Repeated(name, value) => repeated(alloc, name, value),
        Argument::Flag(name) => flag(alloc, name),
        Argument::Needed(name) => needed(alloc, name),
    }
}

fn valued<'a>(alloc: Global, name: &'a str, value: &'a str) -> Arg<'a>
    ensures rule { rule_of result ≡ option name.entry.now None }
    ensures local { result.global ≡ false }
{
    Arg::new(alloc, name)
        .long(name)
        .value_name(value)
        .action(ArgAction::Set)
}

fn choice<'a>(alloc: Global, name: &'a str, value: &'a str, values: &'a [&'a str]) -> Arg<'a>
    ensures rule { rule_of result ≡ option name.entry.now (Some (Names values.entry)) }
    ensures local { result.global ≡ false }
{
    valued(alloc, name, value).value_parser(values)
}

fn repeated<'a>(alloc: Global, name: &'a str, value: &'a str) -> Arg<'a>
    ensures rule { rule_of result ≡ repeated name.entry.now }
    ensures local { result.global ≡ false }
{
    valued(alloc, name, value).action(ArgAction::Append)
}

fn flag<'a>(alloc: Global, name: &'a str) -> Arg<'a>
    ensures rule { rule_of result ≡ flag name.entry.now }
    ensures local { result.global ≡ false }
{
    Arg::new(alloc, name).long(name).action(ArgAction::SetTrue)
}

fn needed<'a>(alloc: Global, name: &'a str) -> Arg<'a>
    ensures rule { rule_of result ≡ needed name.entry.now }
    ensures local { result.global ≡ false }
{
    Arg::new(alloc, name).required(true).action(ArgAction::Set)
}
