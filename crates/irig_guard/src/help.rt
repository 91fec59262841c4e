//! What the program says of itself, its help first.

ghost use Rattle.std.specs.Prelude.{◌≡◌};
ghost use Rattle.irig_guard.specs.Help.{help_text};

use irig_words::Program;

/// What the program says of itself; its status and words if the help cannot be printed.
pub fn program<'a>() -> Program<'a>
    ensures help { result.help.now ≡ help_text }
    ensures status { result.status ≡ 4 }
{
    Program {
        name: "irig_guard",
        help: "Usage: irig_guard [OPTIONS] <TRACK>\n\n\
            Arguments:\n  \
            <TRACK>  the dump; repairs come on standard input\n\n\
            Options:\n      \
            --wire <NAME>          the wire of the dump\n      \
            --from <TIME>          in microseconds, is the new 0: 0\n      \
            --to <TIME>            in microseconds, ends the part that is read\n      \
            --format <FORMAT>      A, B, E or G: B\n      \
            --expression <NUMBER>  of the format: 2\n      \
            --moved                frames that are fine may move, in their order\n      \
            --with <OTHER>         another recording of the same code\n      \
            --out <PATH>           where the mended track is written\n      \
            --save                 write the journal with the track\n  \
            -h, --help                 Print help\n",
        // The status if its output fails.
        status: 4,
        fault: "S6 PrintFailed",
    }
}
