//! Why a command line asks for no run of the program.

use clap::Error;

/// `F` is the program's own fault of an option's value.
#[derive(Drop)]
pub enum UsageFault<F> {
    /// `clap` does not accept the words, or they ask for help; or memory ran out.
    Words(Error),
    /// An option has a value that it cannot have.
    Value(F),
}
