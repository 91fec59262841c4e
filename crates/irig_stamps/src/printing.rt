//! What comes out for the lines is printed: `text` is that of the lines that have ended, so far as
//! it is not printed yet.

ghost use Rattle.std.specs.Prelude.{◌≡◌, [], OnOk, IfOk};
ghost use Rattle.irig_stamps.specs.{Steps.PrintsAll, Steps.Stops};

use crate::fault::{RunFault, TakeFault};
use irig_print::put_all;
use std::io::Write;

/// Prints the text and makes it empty.
pub fn print<W: Write>(out: &mut W, text: &mut Vec<u8>, ended: bool) -> Result<bool, RunFault>
    ensures printed { PrintsAll (W.contents out.old) (W.contents out.new) text.old.items result }
    ensures empty { OnOk result (text.new.items ≡ []) }
    ensures ended { IfOk result (λ b. b ≡ ended) }
{
    match put_all(out, text) {
        Ok(()) => {}
        Err(why) => return Err(RunFault::PrintFailed(why)),
    }
    text.clear();
    Ok(ended)
}

/// Why the run is broken off, if a byte of the lines was not taken (`fault`).
pub fn stop<W: Write>(out: &mut W, text: &[u8], count: u64, fault: TakeFault) -> RunFault
    ensures { Stops (W.contents out.old) (W.contents out.new) text.now count fault result }
{
    match fault {
        TakeFault::OutOfMemory => RunFault::OutOfMemory,
        TakeFault::TooLong => match put_all(out, text) {
            Ok(()) => RunFault::TooLong(count.saturating_add(1)),
            Err(why) => RunFault::PrintFailed(why),
        },
    }
}
