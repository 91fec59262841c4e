//! Dumps, by hand from the format and from what simulators write.

use super::Wanted::{self, Edges, Fault};
use super::{Row, check_rows, is_right};
use irig_vcd::VcdFault;

/// The last time line sets the length.
const TWO_PULSES: &str = "$timescale 1 us $end
$var wire 1 ! code $end
$enddefinitions $end
#100 1!
#120 0!
#200 1!
#280 0!
#1000
";

/// In picoseconds, with another variable of eight bits, whose values are skipped; `x` is low.
const SIMULATED: &str = "$date today $end $version a simulator $end
$timescale
 1ps
$end
$scope module top $end
$var wire 1 ! irig $end
$var reg 8 \" n [7:0] $end
$upscope $end
$enddefinitions $end
#0
$dumpvars
bU \"
x!
$end
#2000000
1!
b1 \"
#4000000
0!
#5000000
";

/// Dumps, the wire that is asked for, and what they are to be read as.
static WHOLE: [(&str, Option<&[u8]>, Wanted); 17] = [
    (TWO_PULSES, None, Edges(1000, &[100, 120, 200, 280])),
    (SIMULATED, None, Edges(5, &[2, 4])),
    (SIMULATED, Some(b"irig"), Edges(5, &[2, 4])),
    (SIMULATED, Some(b"!"), Edges(5, &[2, 4])),
    // The names above are a reference and a code; this one is of the eight bits.
    (SIMULATED, Some(b"n"), Fault(VcdFault::NotOneBit)),
    ("", None, Fault(VcdFault::NoEndDefinitions)),
    (
        "$timescale 1 us $end $var wire 1",
        None,
        Fault(VcdFault::Unclosed),
    ),
    (
        "$var wire 1 ! c $end $enddefinitions $end",
        None,
        Fault(VcdFault::NoTimescale),
    ),
    // Only 1, 10 and 100 of a unit are permitted.
    ("$timescale 5 us $end", None, Fault(VcdFault::BadTimescale)),
    (
        "$timescale 10000000ps $end",
        None,
        Fault(VcdFault::BadTimescale),
    ),
    ("$var wire one ! c $end", None, Fault(VcdFault::BadVar)),
    ("META samplerate: 1", None, Fault(VcdFault::BadToken(0))),
    (
        // Without a time the length is 0.
        "$timescale 1 us $end $var wire 1 ! code $end $enddefinitions $end",
        None,
        Edges(0, &[]),
    ),
    (
        // The fall at 2000 ns and the rise at 2500 ns cancel out.
        "$timescale 1 ns $end $var wire 1 ! c $end $enddefinitions $end #1999 1! #2000 0! #2500 1! \
        #9000 0!",
        None,
        Edges(9, &[1, 9]),
    ),
    (
        "$timescale 100 s $end $var wire 1 ! c $end $enddefinitions $end #2 1! #3",
        None,
        Edges(300000000, &[200000000, 300000000]),
    ),
    (
        // The last time that is permitted: within microsecond 2^40.
        "$timescale 1fs $end $var wire 1 ! c $end $enddefinitions $end #1099511627776999999999",
        None,
        Edges(1099511627776, &[]),
    ),
    (
        // One unit more. Its token is after 62 bytes.
        "$timescale 1fs $end $var wire 1 ! c $end $enddefinitions $end #1099511627777000000000",
        None,
        Fault(VcdFault::TimeTooLarge(62)),
    ),
];

#[test]
fn whole_dumps(rt: HostRuntime) {
    for (dump, wire, want) in WHOLE.iter() {
        assert!(rt; is_right(rt.alloc(), dump.as_bytes(), *wire, want));
    }
}

/// Changes of each form, from byte 63 on, and what the dump is to be read as.
static CHANGES: [Row; 13] = [
    // A value without a code.
    ("1", Fault(VcdFault::BadToken(63))),
    ("#5 1! #4 0!", Fault(VcdFault::Backward(69))),
    // 2^40 is the largest time.
    ("#1099511627777", Fault(VcdFault::TimeTooLarge(63))),
    ("#1099511627776", Edges(1099511627776, &[])),
    (
        "#999999999999999999999999999999",
        Fault(VcdFault::TimeTooLarge(63)),
    ),
    ("#5x 1!", Fault(VcdFault::BadToken(63))),
    ("#0000000000000000000000005 1! #7", Edges(7, &[5, 7])),
    // The first value is at time 0; at 3 a fall and a rise cancel out; `X` is low.
    ("1! #3 0! 1! #5 X! #9", Edges(9, &[0, 5])),
    // A vector without a bit, at 63 + 14.
    ("#1 b0101 ! #2 b ! #3", Fault(VcdFault::BadToken(77))),
    // The last bit of a vector counts; a real and a text give no level.
    ("#1 b0101 ! #2 bx10 ! r1.5 ! sH ! #3", Edges(3, &[1, 2])),
    (
        // A time within a comment is none. Rise and fall at 1 cancel out.
        "#1 1! $comment #0 $end $dumpoff x! $end #4 $dumpon 1! $end #6",
        Edges(6, &[4, 6]),
    ),
    ("#1 1! #2 $comment", Fault(VcdFault::Unclosed)),
    // No value begins with `U`. The token is at 63 + 9.
    ("#1 1! #2 U!", Fault(VcdFault::BadToken(72))),
];

#[test]
fn changes_behind_a_header(rt: HostRuntime) {
    check_rows(&rt, rt.alloc(), &CHANGES);
}

/// One has a code that is the reference of another.
const THREE_WIRES: &[u8] =
    b"$timescale 1 us $end $var wire 1 ! c $end $var wire 1 \" d $end $var wire 1 # ! $end \
    $enddefinitions $end #1 1! #2 1\" #3 1# #4";

/// A reference counts before a code, so `!` is the third wire. Each pulse ends at the length.
static WIRES: [(Option<&[u8]>, Wanted); 6] = [
    (None, Fault(VcdFault::ManyWires)),
    (Some(b"q"), Fault(VcdFault::NoSuchWire)),
    (Some(b"c"), Edges(4, &[1, 4])),
    (Some(b"d"), Edges(4, &[2, 4])),
    (Some(b"\""), Edges(4, &[2, 4])),
    (Some(b"!"), Edges(4, &[3, 4])),
];

#[test]
fn wires_by_reference_and_by_code(rt: HostRuntime) {
    for (wire, want) in WIRES.iter() {
        assert!(rt; is_right(rt.alloc(), THREE_WIRES, *wire, want));
    }
}

/// How many bytes of `TWO_PULSES` are left, whose lines end after 21, 45, 66, 74, 82, 90, 98 and
/// 104 bytes, and what they are to be read as.
static TORN: [(usize, Wanted); 6] = [
    // Within the first section.
    (15, Fault(VcdFault::Unclosed)),
    // After the second section.
    (45, Fault(VcdFault::NoEndDefinitions)),
    // The length is 200 then, so that the rise there makes no pulse.
    (90, Edges(200, &[100, 120])),
    // The last time line is `#`, then `#28`, then `#280`.
    (91, Fault(VcdFault::BadToken(90))),
    (93, Fault(VcdFault::Backward(90))),
    (94, Edges(280, &[100, 120, 200, 280])),
];

#[test]
fn a_torn_dump_says_what_is_left(rt: HostRuntime) {
    for (len, want) in TORN.iter() {
        let torn = TWO_PULSES.as_bytes().get(..*len).expect(&rt, "short");
        assert!(rt; is_right(rt.alloc(), torn, None, want));
    }
}
