//! What the program says of itself, its help first.

ghost use Rattle.std.specs.Prelude.{◌≡◌};
ghost use Rattle.irig_time.specs.Help.{help_text, version_text};

use irig_words::Program;

/// What the program says of itself: its name, its help, and its status and words if help cannot be
/// printed.
pub fn program<'a>() -> Program<'a>
    ensures help { result.help.now ≡ help_text }
    ensures status { result.status ≡ 4 }
{
    Program {
        name: "irig_time",
        help: help_text(),
        // The status if its output fails.
        status: 4,
        fault: "standard output: output failed",
    }
}

fn help_text<'a>() -> &'a str
    ensures { result.now ≡ help_text }
{
    "Usage: irig_time [OPTIONS] <TRACK>\n\nArguments:\n  \
     <TRACK>  the dump; lines come on standard input\n\nOptions:\n      \
     --wire <NAME>          the wire of the dump\n      \
     --from <TIME>          in microseconds, is the new 0: 0\n      \
     --to <TIME>            in microseconds, ends the part that is read\n      \
     --format <FORMAT>      A, B, E or G: B\n      --expression <NUMBER>  of the format: 2\n      \
     --unit <UNIT>          s, ms, us, ns, ps; 10ns, 100ns: us\n      \
     --offset <NUMBER>      its time at the start of TRACK: 0\n      \
     --column <COLUMN>      of its time: a number from 1, or its name in the header: 1\n      \
     --comma <CHARACTER>    parts columns, if not white space\n      \
     --header <NUMBER>      lines of the header: 0\n      --name <NAME>          of the new \
     column: time\n      --year <YEAR>          the year of the first fine frame\n      \
     --form <FORM>          ordinal, calendar or seconds\n      \
     --alone                take each frame that reads well, supported or not\n      \
     --why                  a word in place of - says why a line has no time\n      \
     --bound                how many microseconds each time can be off\n      \
     --within <NUMBER>      a time that can be off by more microseconds is none\n      \
     --table                print a table of the frames; no lines are read\n      \
     --holes                print each stretch without a time; no lines are read\n      \
     --json                 of --holes: an object of JSON for each\n      \
     --out <FILE>           takes all at the end, from memory: standard output\n      \
     --quiet                no line at the end says what was done\n      \
     --version              says which tool prints the version\n  \
     -h, --help                 Print help\n"
}

pub fn version_text<'a>() -> &'a str
    ensures { result.now ≡ version_text }
{
    "irig_time has the version of the tools that were installed with it: irig_mend --version\n"
}
