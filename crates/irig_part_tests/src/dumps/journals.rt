//! Dumps that carry a journal: a comment after the declarations that begins with `irig-journal-1`.

ghost use Rattle.std.specs.Prelude.{◌≤◌, ◌^◌, length};

use super::Wanted::{Edges, Fault};
use super::{HEADER, Row, check_rows, is_right, put_texts};
use irig_vcd::{VcdFault, read_parts};
use std::alloc::Global;

/// If `want` is `None`, whether there is the fault of a second journal, which is at line 1.
fn gives(alloc: Global, dump: &[u8], want: Option<&[u8]>) -> bool
    requires { length dump.now ≤ 2 ^ 28 }
{
    match read_parts(alloc, dump, None) {
        Ok((_, journal)) => journal.is_some() && journal == want,
        Err(fault) => want.is_none() && fault == VcdFault::BadJournal(1),
    }
}

fn is_right_journal(alloc: Global, changes: &str, want: Option<&[u8]>) -> bool {
    let mut dump = Vec::new(alloc);
    put_texts(&mut dump, &[HEADER, changes])
        && dump.len() <= 1 << 28
        && gives(alloc, dump.as_slice(), want)
}

/// Changes with a comment, and the journal in it: its text up to `$end`, white space included.
static JOURNALS: [(&str, &[u8]); 4] = [
    ("#5 $comment irig-journal-1 $end", b"irig-journal-1 "),
    (
        // Line ends are kept.
        "#5\n$comment\nirig-journal-1\nformat G 2\n$end\n",
        b"irig-journal-1\nformat G 2\n",
    ),
    (
        // It comes before the first time.
        "$comment irig-journal-1\t$end #5 1! #6",
        b"irig-journal-1\t",
    ),
    (
        // Two comments before it are no journal. A `$comment` within it is text.
        "$comment $end $comment x $end $comment  irig-journal-1 a $comment b $end",
        b"irig-journal-1 a $comment b ",
    ),
];

#[test]
fn one_journal_is_given(rt: HostRuntime) {
    for (changes, journal) in JOURNALS.iter() {
        assert!(rt; is_right_journal(rt.alloc(), changes, Some(journal)));
    }
}

/// Changes with comments that are no journal, or with a fault that comes before that of a journal.
static OTHERS: [Row; 7] = [
    ("#5", Edges(5, &[])),
    // The first word has to be just that one.
    ("#5 $comment irig-journal-10 $end", Edges(5, &[])),
    ("#5 $comment irig-journal- $end", Edges(5, &[])),
    ("#5 $comment a irig-journal-1 $end", Edges(5, &[])),
    // `$comment` is the code of two values here.
    ("#5 b0 $comment r1 $comment #7", Edges(7, &[])),
    ("#5 $comment irig-journal-1", Fault(VcdFault::Unclosed)),
    (
        // The time that falls back, at 63 + 61, comes before the fault of the second journal.
        "$comment irig-journal-1 $end $comment irig-journal-1 $end #5 #4",
        Fault(VcdFault::Backward(124)),
    ),
];

/// A comment before the declarations is no journal.
const BEFORE: &[u8] =
    b"$comment irig-journal-1 $end $timescale 1 us $end $var wire 1 ! c $end $enddefinitions $end \
    #5";

#[test]
fn other_comments_are_no_journal(rt: HostRuntime) {
    check_rows(&rt, rt.alloc(), &OTHERS);
    assert!(rt; is_right(rt.alloc(), BEFORE, None, &Edges(5, &[])));
}

static SECOND: [&str; 2] = [
    "$comment irig-journal-1 $end $comment irig-journal-1 $end",
    "$comment irig-journal-1 a $end #5 $comment b $end $comment irig-journal-1 c $end #6",
];

#[test]
fn a_second_journal_is_told(rt: HostRuntime) {
    for changes in SECOND.iter() {
        assert!(rt; is_right_journal(rt.alloc(), changes, None));
    }
}
