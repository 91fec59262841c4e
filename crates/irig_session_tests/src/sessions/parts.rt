//! A saved session that is given in parts, block by block, against its text.

use super::helpers::{Call, is_saved, obey, two_pulses};
use irig_edit::Session;
use irig_text::{Text, new_block};
use std::alloc::{AllocError, Global};
use std::process::Abort;

/// A mark, a delete of both pulses, a group of two inserts, and a mark that `check` undoes.
static CALLS: [Call; 7] = [
    Call::Mark(0, Some(110)),
    Call::Delete(1, 2),
    Call::Begin,
    Call::Insert(300, 350),
    Call::Insert(400, 450),
    Call::End,
    Call::Mark(25, Some(110)),
];

/// By `docs/FORMATS.md`: the track, and the journal as a comment.
static TEXT: &[u8] = b"$timescale 1 us $end
$scope module irig $end
$var wire 1 ! code $end
$upscope $end
$enddefinitions $end
#0
$dumpvars
0!
$end
#300
1!
#350
0!
#400
1!
#450
0!
#1000
$comment
irig-journal-1
format G 2
cursor 2
mark a 110
past 3
at 2
setmark a -
at 2
splice 1 0 2
100 120
200 280
at 0
group 2
splice 2 1 0
splice 1 1 0
future 1
at 2
setmark z 110
$end
";

/// The text has less than 1,000 bytes, so 1,000 blocks suffice; more are an error.
fn joined(alloc: Global, session: &Session, enough: usize) -> Result<Vec<u8>, AllocError> {
    let mut all = Vec::new(alloc);
    let mut block = new_block(alloc)?;
    let mut parts = session.saved_parts();
    for _ in 0..1_000 {
        block.clear();
        let ended = parts.fill(&mut block, enough)?;
        all.extend_from_slice(block.as_slice())?;
        if ended {
            return Ok(all);
        }
    }
    Err(AllocError)
}

fn is_joined(alloc: Global, session: &Session, enough: usize) -> bool {
    match joined(alloc, session, enough) {
        Ok(all) => all.as_slice() == TEXT,
        Err(_) => false,
    }
}

fn check(rt: &impl Abort, alloc: Global, sizes: &[usize]) {
    let mut session = two_pulses(alloc).expect(rt, "a session");
    for call in &CALLS {
        obey(&mut session, *call);
    }
    obey(&mut session, Call::Undo);
    assert!(rt; is_saved(&session, TEXT));
    for enough in sizes {
        assert!(rt; is_joined(alloc, &session, *enough));
    }
}

#[test]
fn the_parts_of_a_saved_session_are_its_text(rt: HostRuntime) {
    check(&rt, rt.alloc(), &[1, 7, 100, 65_536]);
}
