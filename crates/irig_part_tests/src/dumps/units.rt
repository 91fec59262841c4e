//! Pulses in units of less than a microsecond, and of more, in one step or token by token.

use super::Wanted::{self, Edges, Fault};
use super::are_right;
use irig_vcd::VcdFault;
use std::alloc::Global;

/// Pulses with that many bytes after them are read in one step; with fewer than 64 bytes after
/// their begin they are read token by token.
const COMMENT: &str =
    "$comment ................................................................ $end\n";

/// A pulse from 1 to 2 microseconds. Those after it are read in one step.
const FIRST: &str = "#1000\n1!\n#2000\n0!\n";

/// Changes in nanoseconds after that pulse, and what the dump is to be read as. Each line of a time
/// with its value has 9 bytes: a fault at `OFFSET` + 18 is at the third time.
static NANOSECONDS: [(&str, Wanted); 12] = [
    (
        "#3999\n1!\n#5000\n0!\n#6000\n1!\n#7999\n0!\n#9999\n",
        Edges(9, &[1, 2, 3, 5, 6, 7]),
    ),
    // both times in one microsecond: the edges cancel out
    (
        "#3100\n1!\n#3900\n0!\n#5000\n1!\n#6000\n0!\n",
        Edges(6, &[1, 2, 5, 6]),
    ),
    // a fall in the microsecond of the next rise, and a rise in that of the last fall
    (
        "#3000\n1!\n#4100\n0!\n#4900\n1!\n#6000\n0!\n",
        Edges(6, &[1, 2, 3, 6]),
    ),
    // a rise in the microsecond of the first pulse's fall: one pulse
    ("#2001\n1!\n#3000\n0!\n", Edges(3, &[1, 3])),
    // a fall and a rise at the same number of nanoseconds
    (
        "#4500\n1!\n#5500\n0!\n#5500\n1!\n#6000\n0!\n",
        Edges(6, &[1, 2, 4, 6]),
    ),
    // a time that falls back, in its microsecond and below it
    (
        "#4500\n1!\n#4499\n0!\n",
        Fault(VcdFault::Backward(OFFSET + 9)),
    ),
    (
        "#4000\n1!\n#5500\n0!\n#5499\n1!\n#6000\n0!\n",
        Fault(VcdFault::Backward(OFFSET + 18)),
    ),
    (
        "#4000\n1!\n#5500\n0!\n#999\n1!\n#6000\n0!\n",
        Fault(VcdFault::Backward(OFFSET + 18)),
    ),
    (
        "#4000\n1!\n#5500\n0!\n#0\n1!\n#6000\n0!\n",
        Fault(VcdFault::Backward(OFFSET + 18)),
    ),
    // a rest of the last fall that is kept after pulses that were read in one step
    (
        "#3000\n1!\n#4000\n0!\n#5000\n1!\n#6789\n0!\n#6789\n1!\n#6788\n",
        Fault(VcdFault::Backward(OFFSET + 45)),
    ),
    // sixteen digits, and the last microsecond
    (
        "#1099511627775000\n1!\n#1099511627776999\n0!\n",
        Edges(1099511627776, &[1, 2, 1099511627775, 1099511627776]),
    ),
    (
        "#3000\n1!\n#1099511627777000\n0!\n",
        Fault(VcdFault::TimeTooLarge(OFFSET + 9)),
    ),
];

/// Where the changes after the first pulse begin: 63 bytes of declarations, and that pulse.
const OFFSET: usize = 63 + 18;

/// A unit, the changes of a dump, and what it is to be read as.
static UNITS: [(&str, &str, Wanted); 10] = [
    (
        // 0 to 999 is no pulse; the fall at 2000 and the rise at 2999 cancel out
        "1 ns",
        "#0\n1!\n#999\n0!\n#1000\n1!\n#2000\n0!\n#2999\n1!\n#3000\n0!\n",
        Edges(3, &[1, 3]),
    ),
    (
        // the fall at 299 and the rise at 301 do not cancel out; 580 to 599 is no pulse
        "10 ns",
        "#100\n1!\n#299\n0!\n#301\n1!\n#400\n0!\n#580\n1!\n#599\n0!\n#99999\n",
        Edges(999, &[1, 2, 3, 4]),
    ),
    (
        // the last microsecond that is permitted, 2^40, and its last unit
        "10 ns",
        "#100\n1!\n#200\n0!\n#109951162777599\n1!\n#109951162777699\n0!\n",
        Edges(1099511627776, &[1, 2, 1099511627775, 1099511627776]),
    ),
    (
        // one unit more: 64 bytes of declarations and 36 of changes are before its time
        "10 ns",
        "#100\n1!\n#200\n0!\n#109951162777599\n1!\n#109951162777700\n0!\n",
        Fault(VcdFault::TimeTooLarge(100)),
    ),
    (
        "100 ns",
        "#10\n1!\n#20\n0!\n#39\n1!\n#40\n0!\n#59\n1!\n#60\n0!\n",
        Edges(6, &[1, 2, 3, 4, 5, 6]),
    ),
    (
        "100 ps",
        "#10000\n1!\n#20000\n0!\n#39999\n1!\n#49999\n0!\n#50000\n",
        Edges(5, &[1, 2, 3, 4]),
    ),
    (
        "1 fs",
        "#1000000000\n1!\n#2000000000\n0!\n#3999999999\n1!\n#4000000000\n0!\n",
        Edges(4, &[1, 2, 3, 4]),
    ),
    (
        // a rise one unit after the fall: the two cancel out
        "1 fs",
        "#1000000000\n1!\n#2000000000\n0!\n#2000000001\n1!\n#3000000000\n0!\n",
        Edges(3, &[1, 3]),
    ),
    (
        "10 us",
        "#1\n1!\n#2\n0!\n#3\n1!\n#4\n0!\n#5\n1!\n#6\n0!\n",
        Edges(60, &[10, 20, 30, 40, 50, 60]),
    ),
    (
        "1 s",
        "#1\n1!\n#2\n0!\n#3\n1!\n#4\n0!\n",
        Edges(4000000, &[1000000, 2000000, 3000000, 4000000]),
    ),
];

const WIRE: &str = " $end\n$var wire 1 ! c $end\n$enddefinitions $end\n";

/// Whether two dumps are right: pulses are read in one step with the comment after them, and
/// without it the last ones token by token.
fn are_right_in(alloc: Global, unit: &str, first: &str, second: &str, want: &Wanted) -> bool {
    let short = ["$timescale ", unit, WIRE, first, second];
    let longer = ["$timescale ", unit, WIRE, first, second, COMMENT];
    are_right(alloc, &short, want) && are_right(alloc, &longer, want)
}

#[test]
fn pulses_in_nanoseconds(rt: HostRuntime) {
    for (changes, want) in NANOSECONDS.iter() {
        assert!(rt; are_right_in(rt.alloc(), "1 ns", FIRST, changes, want));
    }
}

#[test]
fn pulses_in_other_units(rt: HostRuntime) {
    for (unit, changes, want) in UNITS.iter() {
        assert!(rt; are_right_in(rt.alloc(), unit, "", changes, want));
    }
}
