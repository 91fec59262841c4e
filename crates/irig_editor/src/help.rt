//! What the program says of itself, its help first.

ghost use Rattle.std.specs.Prelude.{◌≡◌};
ghost use Rattle.irig_editor.specs.Help.{help_text};

use irig_words::Program;

/// What the program says of itself; its status and words if the help cannot be printed.
pub fn program<'a>() -> Program<'a>
    ensures help { result.help.now ≡ help_text }
    ensures status { result.status ≡ 4 }
{
    Program {
        name: "irig_ed",
        help: "Usage: irig_ed [OPTIONS] <TRACK>\n\n\
            Arguments:\n  \
            <TRACK>  the dump; commands come on standard input\n\n\
            Options:\n      \
            --wire <NAME>          the wire of the dump\n      \
            --from <TIME>          in microseconds, is the new 0: 0\n      \
            --to <TIME>            in microseconds, ends the part that is read\n      \
            --format <FORMAT>      B, if not given [possible values: A, B, E, G]\n      \
            --expression <NUMBER>  2, if not given [possible values: 0, 1, 2, 3, 4, 5, \
            6, 7]\n      \
            --out <PATH>           what `write` and `save` write, if not TRACK\n  \
            -h, --help                 Print help\n",
        // The status if its output fails.
        status: 4,
        fault: "S6 PrintFailed",
    }
}
