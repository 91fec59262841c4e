//! What the program says of itself, its help first.

ghost use Rattle.std.specs.Prelude.{◌≡◌};
ghost use Rattle.irig_diff.specs.Help.{help_text};

use irig_words::Program;

/// What the program says of itself; its status and words if the help cannot be printed.
pub fn program<'a>() -> Program<'a>
    ensures help { result.help.now ≡ help_text }
    ensures status { result.status ≡ 2 }
{
    Program {
        name: "irig_diff",
        help: "Usage: irig_diff [OPTIONS] <BEFORE> <AFTER>\n\n\
            Arguments:\n  \
            <BEFORE>  the dump of the track before\n  \
            <AFTER>   the dump of the track after\n\n\
            Options:\n      \
            --wire <NAME>          the wire of BEFORE\n      \
            --wire-after <NAME>    the wire of AFTER\n      \
            --from <TIME>          in microseconds, is the new 0: 0\n      \
            --to <TIME>            in microseconds, ends the part that is read\n      \
            --frames               show in comments what the lines do to the frames\n      \
            --format <FORMAT>      A, B, E or G: B\n      \
            --expression <NUMBER>  of the format: 2\n  \
            -h, --help                 Print help\n",
        // The status if its output fails.
        status: 2,
        fault: "output failed",
    }
}
