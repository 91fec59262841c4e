//! The text of a track in parts, each made by one call of `fill`.

use crate::edges::track_of;
use irig_text::Text;
use irig_track::{Track, TrackText};
use std::alloc::Global;

/// The length is 1,000.
const EDGES: &[u64] = &[0, 120, 200, 280];

/// Its header with the rise at 0 (125 bytes), the fall of the first pulse (8 bytes), the second
/// pulse (16), and the line of the length (6).
static LINES: [&[u8]; 4] = [
    b"$timescale 1 us $end\n$scope module irig $end\n$var wire 1 ! code $end\n\
    $upscope $end\n$enddefinitions $end\n#0\n$dumpvars\n1!\n$end\n",
    b"#120\n0!\n",
    b"#200\n1!\n#280\n0!\n",
    b"#1000\n",
];

/// How many bytes are enough for a part, and how many rows of `LINES` each part has: it ends with
/// the row that makes it enough, but the line of the length is with the last pulse.
static PARTS: [(usize, &[usize]); 8] = [
    (1, &[1, 1, 2]),
    (8, &[1, 1, 2]),
    (9, &[1, 3]),
    (125, &[1, 3]),
    (126, &[2, 2]),
    (133, &[2, 2]),
    (134, &[4]),
    (usize::MAX, &[4]),
];

/// `saturating_add` saves a proof that the sum is below 2^64.
fn are_lines(bytes: &[u8], lines: &[&[u8]]) -> bool {
    let mut from = 0;
    for line in lines {
        let to = usize::saturating_add(from, line.len());
        if bytes.get(from..to) != Some(*line) {
            return false;
        }
        from = to;
    }
    from == bytes.len()
}

/// Whether the text says that it has ended is not compared.
fn is_part(alloc: Global, text: &mut TrackText<'_>, enough: usize, lines: &[&[u8]]) -> bool {
    let mut block = Vec::new(alloc);
    text.fill(&mut block, enough).is_ok() && are_lines(block.as_slice(), lines)
}

/// The part after all of `LINES` is empty.
fn has_parts(alloc: Global, text: &mut TrackText<'_>, enough: usize, parts: &[usize]) -> bool {
    let mut from = 0;
    for count in parts {
        let to = usize::saturating_add(from, *count);
        match LINES.get(from..to) {
            Some(lines) if is_part(alloc, text, enough, lines) => from = to,
            _ => return false,
        }
    }
    from == LINES.len() && is_part(alloc, text, enough, &[])
}

/// From the begin of the text each time.
fn comes_in_parts(alloc: Global, track: &Track) -> bool {
    for (enough, parts) in PARTS.iter() {
        if !has_parts(alloc, &mut track.text_parts(), *enough, parts) {
            return false;
        }
    }
    true
}

#[test]
fn a_text_comes_in_parts(rt: HostRuntime) {
    let track = track_of(rt.alloc(), 1000, EDGES).expect(&rt, "a track");
    assert!(rt; comes_in_parts(rt.alloc(), &track));
}
