//! What a user can do next about a fault of a dump.

ghost use Rattle.std.specs.Prelude.{◌≡◌};
ghost use Rattle.irig_words.specs.Next.{what_next};

use irig_vcd::VcdFault;

/// The end of the line of a fault; nothing, if the fault says what to do.
pub fn what_next<'a>(fault: VcdFault) -> &'a str
    ensures { result.now ≡ what_next fault }
{
    match fault {
        VcdFault::NoSuchWire
        | VcdFault::ManyWires
        | VcdFault::NoEndDefinitions
        | VcdFault::BadToken(_) => "; irig_what FILE says more",
        _ => "",
    }
}
