//! A line editor for recorded time tracks: `serve` of irig_editor with what the system has.
#![tactic(auto)]

use irig_editor::{program, serve};
use irig_files::system_files;
use irig_script::{NoWitness, Screen};
use std::process::ExitCode;
use std::rt::Runtime;
use std::{env, io};

// `system_files` takes the memory for the paths of files, and fails only if there is none.
fn main(rt: HostRuntime) -> ExitCode {
    let Ok(mut files) = system_files(&rt) else {
        return program().tell(&rt, 2, &io::Error::from(io::ErrorKind::OutOfMemory));
    };
    serve(
        &rt,
        arguments(&rt),
        &mut files,
        &mut rt.reader(),
        &mut Screen::new(io::writer(&rt), NoWitness),
        &mut io::writer(&rt),
    )
}

/// The words, the program's name first. `Err` also if one is not UTF-8, or memory runs out.
fn arguments<R: Runtime + AllocGlobal>(rt: &R) -> io::Result<Vec<String>> {
    let words = env::args(rt)?.collect(rt.alloc())?;
    Ok(words)
}
