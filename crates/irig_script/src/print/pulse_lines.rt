//! The listing of pulses; a line has at most `LINE_ROOM` bytes, which are 72.

ghost use Rattle.std.specs.Prelude.{◌≡◌, ◌≤◌, ◌-◌, ◌*◌, length, drop};
ghost use Rattle.irig_script.specs.Print.Listings.{list_text};
ghost use Rattle.irig_print.specs.Front.{Prints};

use irig_edit::Session;
use irig_print::{LINE_ROOM, PrintFault, put_all, write_pulse};
use std::io::Write;

/// The most lines for a short block, just below 1 KiB. A block is filled with zeros first, so a
/// short listing should not have a long one.
const FEW: usize = 14;

/// The bytes of a long block: 227 lines.
const BLOCK: usize = 16384;

/// Prints the lines of `count` pulses after the first `before`, by the shortest block that has room
/// for all.
pub fn print_pulses<W: Write>(
    session: &Session,
    before: usize,
    count: usize,
    out: &mut W,
) -> Result<(), PrintFault>
    ensures { Prints (W.contents out.old) (W.contents out.new)
        (list_text before count session.now.state) result }
{
    if count == 1 {
        print_in_blocks(session, before, count, &mut [0; LINE_ROOM], out)
    } else if count <= FEW {
        print_in_blocks(session, before, count, &mut [0; FEW * LINE_ROOM], out)
    } else {
        print_many(session, before, count, out)
    }
}

/// Prints these lines by a long block. It is not inlined, else the block would be on the stack for
/// a short listing, too.
#[inline(never)]
fn print_many<W: Write>(
    session: &Session,
    before: usize,
    count: usize,
    out: &mut W,
) -> Result<(), PrintFault>
    ensures { Prints (W.contents out.old) (W.contents out.new)
        (list_text before count session.now.state) result }
{
    print_in_blocks(session, before, count, &mut [0; BLOCK], out)
}

/// Prints these lines by this block: all that it has room for go out at a time.
fn print_in_blocks<W: Write>(
    session: &Session,
    before: usize,
    count: usize,
    block: &mut [u8],
    out: &mut W,
) -> Result<(), PrintFault>
    requires room { 72 ≤ length block.old }
    ensures { Prints (W.contents out.old) (W.contents out.new)
        (list_text before count session.now.state) result }
{
    let there = count.min(session.len().saturating_sub(before));
    let mut done = 0;
    while done < there {
        let lines = (there - done).min(block.len() / LINE_ROOM);
        let start = write_pulses(block, session, before + done + lines, lines);
        match put_all(out, &block[start..]) {
            Ok(()) => {}
            Err(fault) => return Err(fault),
        }
        done += lines;
    }
    Ok(())
}

/// Writes the lines of `count` pulses, the last of number `last`, to the end of `bytes`, and
/// returns where they start. Written from the last to the first, no digit is counted or moved.
fn write_pulses(bytes: &mut [u8], session: &Session, last: usize, count: usize) -> usize
    requires room { 72 * count ≤ length bytes.old }
    requires there { (count ≤ last) × (last ≤ length session.now.state.pulses) }
    ensures within { (result ≤ length bytes.old) × (length bytes.new ≡ length bytes.old) }
    ensures written { drop result bytes.new
        ≡ list_text (last - count) count session.now.state }
{
    let format = session.current_format();
    let mut start = bytes.len();
    for back in 0..count {
        let number = last - back;
        start = write_pulse(bytes, start, format, number as u64, session.pulse(number));
    }
    start
}
