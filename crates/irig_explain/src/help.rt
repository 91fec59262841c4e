//! What the program says of itself, its help first.

ghost use Rattle.std.specs.Prelude.{◌≡◌};
ghost use Rattle.irig_explain.specs.Help.{help_text, version_text};

use irig_words::Program;

pub fn program<'a>() -> Program<'a>
    ensures help { result.help.now ≡ help_text }
    ensures status { result.status ≡ 4 }
{
    Program {
        name: "irig_explain",
        help: help_text(),
        // The status if its output fails.
        status: 4,
        fault: "standard output: output failed",
    }
}

fn help_text<'a>() -> &'a str
    ensures { result.now ≡ help_text }
{
    "Usage: irig_explain [OPTIONS] <TRACK>\n\nArguments:\n  \
     <TRACK>  the dump; 10 million pulses take a minute and 700 MB\n\nOptions:\n      \
     --wire <NAME>          the wire of the dump\n      \
     --from <TIME>          in microseconds, is the new 0: 0\n      \
     --to <TIME>            in microseconds, ends the part that is read\n      \
     --format <FORMAT>      A, B, E or G: B\n      \
     --expression <NUMBER>  of the format: 2\n      \
     --sure                 how sure that is: takes longer\n      \
     --json                 an object of JSON for each line\n      \
     --version              says which tool prints the version\n  \
     -h, --help                 Print help\n"
}

pub fn version_text<'a>() -> &'a str
    ensures { result.now ≡ version_text }
{
    "irig_explain has the version of the tools that were installed with it: irig_mend --version\n"
}
