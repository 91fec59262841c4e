//! What a program says of itself, and the statuses with which it ends.

ghost use Rattle.std.specs.Prelude.{◌≡◌};
ghost use Rattle.std.specs.Process.{exit_status};
ghost use Rattle.irig_words.specs.Errors.{IsHelp, IsMistake};
ghost use Rattle.irig_words.specs.Telling.{EndsWith, Explains, Helps, unprinted_status};

use crate::arguments::{Argument, command_of};
use crate::errors::not_text;
use crate::next::what_next;
use crate::usage::UsageFault;
use clap::{Command, Error};
use irig_files::TrackFault;
use irig_print::{PrintFault, put_all};
use irig_vcd::VcdFault;
use std::alloc::AllocError;
use std::fmt::Display;
use std::io;
use std::io::Write;
use std::process::ExitCode;

/// The status if nobody reads the output any more: 128 and the number of SIGPIPE, as of `cat`.
const CLOSED: u8 = 141;

/// What a program says of itself.
#[derive(Clone, Copy)]
pub struct Program<'a> {
    /// With this it begins what it says of faults.
    pub name: &'a str,
    pub help: &'a str,
    /// With this it ends if its output fails.
    pub status: u8,
    pub fault: &'a str,
}

impl<'a> Program<'a> {
    /// Says on the standard error why the program ends; if that fails, nothing else can be said.
    pub fn tell<R: Eprint, T: Display>(&self, rt: &R, status: u8, why: &T) -> ExitCode
        ensures { exit_status result ≡ status }
    {
        let name = self.name;
        let _ = eprintln!(rt; "{name}: {why}");
        ExitCode::from(status)
    }

    /// The same, with the path of the file that has the fault.
    pub fn tell_of<R: Eprint, T: Display>(
        &self,
        rt: &R,
        status: u8,
        path: &str,
        why: &T,
    ) -> ExitCode
        ensures { exit_status result ≡ status }
    {
        let name = self.name;
        let _ = eprintln!(rt; "{name}: {path}: {why}");
        ExitCode::from(status)
    }

    /// Says what is wrong with the dump at this path, and what to do next.
    pub fn tell_dump<R: Eprint>(&self, rt: &R, status: u8, path: &str, fault: VcdFault) -> ExitCode
        ensures { exit_status result ≡ status }
    {
        let (name, next) = (self.name, what_next(fault));
        let _ = eprintln!(rt; "{name}: {path}: {fault}{next}");
        ExitCode::from(status)
    }

    pub fn tell_track<R: Eprint>(
        &self,
        rt: &R,
        status: u8,
        path: &str,
        fault: &TrackFault,
    ) -> ExitCode
        ensures { exit_status result ≡ status }
    {
        match fault {
            TrackFault::File(fault) => self.tell_of(rt, status, path, fault),
            TrackFault::Dump(fault) => self.tell_dump(rt, status, path, *fault),
        }
    }

    /// Says that the output failed, if somebody reads it.
    pub fn tell_unprinted<R: Eprint>(&self, rt: &R, why: PrintFault) -> ExitCode
        ensures { exit_status result ≡ unprinted_status self.now.status why }
    {
        match why {
            PrintFault::Closed => ExitCode::from(CLOSED),
            PrintFault::Other => self.tell(rt, self.status, &self.fault),
        }
    }

    /// Says why `given` failed.
    pub fn tell_not_given<R: Eprint + AllocGlobal>(
        &self,
        rt: &R,
        why: &io::Error,
        arguments: &[Argument<'_>],
    ) -> ExitCode
        ensures { exit_status result ≡ 2 }
    {
        self.tell_no_words(rt, why, command_of(rt.alloc(), self.name, arguments))
    }

    /// Says why there are no words. Of one that is not UTF-8 `clap` does, for which it needs the
    /// program's own `command`.
    pub fn tell_no_words<R: Eprint>(
        &self,
        rt: &R,
        why: &io::Error,
        command: Result<Command<'_>, AllocError>,
    ) -> ExitCode
        ensures { exit_status result ≡ 2 }
    {
        if why.kind() == io::ErrorKind::InvalidData {
            tell_mistake(rt, &not_text(command))
        } else {
            self.tell(rt, 2, why)
        }
    }

    /// Says why a command line asks for no run; its help goes to `help`, the program's output.
    pub fn explain<R: Eprint, F: Display, H: Write>(
        &self,
        rt: &R,
        fault: &UsageFault<F>,
        help: &mut H,
    ) -> ExitCode
        ensures { Explains self.now.help.now self.now.status fault.now (H.contents help.old)
            (H.contents help.new) (exit_status result) }
    {
        match fault {
            UsageFault::Words(error) => self.explain_words(rt, error, help),
            UsageFault::Value(fault) => self.tell(rt, 2, fault),
        }
    }

    /// For `clap` a call for help is an error, too, of which `use_stderr` is false.
    fn explain_words<R: Eprint, H: Write>(&self, rt: &R, error: &Error, help: &mut H) -> ExitCode
        ensures mistake { IsMistake error.now → EndsWith 2 (H.contents help.old)
            (H.contents help.new) (exit_status result) }
        ensures help { IsHelp error.now → Helps self.now.help.now self.now.status
            (H.contents help.old) (H.contents help.new) (exit_status result) }
    {
        if error.use_stderr() {
            return tell_mistake(rt, error);
        }
        self.print(rt, self.help, help)
    }

    /// Prints a text that was asked for, and ends with 0.
    pub fn print<R: Eprint, H: Write>(&self, rt: &R, text: &str, help: &mut H) -> ExitCode
        ensures { Helps text.now self.now.status (H.contents help.old) (H.contents help.new)
            (exit_status result) }
    {
        match put_all(help, text.as_bytes()) {
            Ok(()) => ExitCode::SUCCESS,
            Err(_) => self.tell(rt, self.status, &self.fault),
        }
    }
}

/// The text of `clap` begins with `error:` and ends its line, so nothing is added to it.
fn tell_mistake<R: Eprint>(rt: &R, error: &Error) -> ExitCode
    ensures { exit_status result ≡ 2 }
{
    let _ = eprint!(rt; "{error}");
    ExitCode::from(2)
}
