//! What is made of the markers of a part of a track: their records, or their number.

ghost use Rattle.std.specs.Prelude.{◌≡◌, ℕ, ◌+◌, ◌-◌, ◌*◌, ◌^◌, ◌<◌, ◌≤◌, ◌++◌, length, take, drop};
ghost use Rattle.std.specs.Prelude.{max, min, OnOk, IsOk};
ghost use Rattle.irig_index.specs.Frames.{frames, records_in};
ghost use Rattle.irig_index.specs.Sides.{left_of, kept_right, shown, EndsUpTo, BeginsAfter};
ghost use Rattle.irig_index.specs.Stale.{LastMayBeStale, Retold, last_retold};
ghost use Rattle.irig_index.specs.{Checked.looks_of, Looked.Looked, Passed.Passed};

use crate::frame::{ELEMENTS, looks_of, verdict};
use crate::look::add_looks;
use crate::marker::next_marker;
use crate::places::{count_up_to, is_up_to, set_record};
use crate::record::Verdict;
use crate::sides::{put, record_at};
use crate::stored::Stored;
use irig_codes::Format;
use irig_gap::Gap;
use irig_track::{Lens, Span};
use std::alloc::AllocError;

/// One for each frame, broken or not.
pub fn count_markers(lens: &mut Lens<'_>, looks: &mut u64, format: Format) -> usize
    ensures count { result ≡ length (frames format lens.old.track.pulses) }
    ensures looked { Looked lens.old lens.new looks.old looks.new
        (2 * (length lens.old.track.pulses - 1)) }
{
    let to = lens.len().saturating_sub(1);
    let mut count = 0;
    let mut place = 0;
    while let Some((before, _)) = next_marker(lens, looks, format, place, to) {
        count += 1;
        place = before + 1;
    }
    count
}

/// Writes the records of the markers after the places `from` to `to`, without `to`, left of the
/// gap. If memory runs out, the records found so far stay.
pub fn fill(
    records: &mut Gap<Stored>,
    lens: &mut Lens<'_>,
    looks: &mut u64,
    format: Format,
    from: usize,
    to: usize,
) -> Result<(), AllocError>
    requires order { from ≤ to }
    requires within { from < to → to < length lens.old.track.pulses }
    ensures left { OnOk result (left_of records.new ≡ left_of records.old
        ++ records_in format lens.old.track.pulses from (to - from)) }
    ensures right { OnOk result (kept_right records.new ≡ kept_right records.old) }
    ensures room { length records.old.items
        + length (records_in format lens.old.track.pulses from (to - from)) ≤ records.old.capacity
        → IsOk result × (records.new.capacity ≡ records.old.capacity) }
    ensures bounded { OnOk result (2 * records.new.capacity
        ≤ max (2 * records.old.capacity) (3 * length records.new.items)) }
    ensures looked { Looked lens.old lens.new looks.old looks.new
        (min (101 * (to - from)) (3 * (to - from) + 98)) }
{
    // For its bound.
    let _len = lens.len();
    let mut place = from;
    while let Some((before, first)) = next_marker(lens, looks, format, place, to) {
        let marker = before + 1;
        let verdict = verdict(lens, looks, format, marker, first);
        put(records, Stored::new(marker, verdict))?;
        place = next_place(marker, verdict, to);
    }
    Ok(())
}

/// As `fill`, in room that `Index::reserve` has made, so that `unwrap` finds no error.
pub fn refill(
    records: &mut Gap<Stored>,
    lens: &mut Lens<'_>,
    looks: &mut u64,
    format: Format,
    from: usize,
    to: usize,
)
    requires order { from ≤ to }
    requires within { from < to → to < length lens.old.track.pulses }
    requires room { length records.old.items
        + length (records_in format lens.old.track.pulses from (to - from)) ≤ records.old.capacity }
    ensures left { left_of records.new ≡ left_of records.old
        ++ records_in format lens.old.track.pulses from (to - from) }
    ensures right { kept_right records.new ≡ kept_right records.old }
    ensures capacity { records.new.capacity ≡ records.old.capacity }
    ensures looked { Looked lens.old lens.new looks.old looks.new
        (min (101 * (to - from)) (3 * (to - from) + 98)) }
{
    fill(records, lens, looks, format, from, to).unwrap();
}

/// Retells the record of the last frame that begins before an edit, if the frame can reach into it:
/// only pulses after pulse `from` have changed. Returns whether the record after that one is of a
/// marker up to pulse `last`, the first after the edit by its old number.
pub fn retell_up_to(
    records: &mut Gap<Stored>,
    pulses: usize,
    lens: &mut Lens<'_>,
    looks: &mut u64,
    format: Format,
    from: usize,
    last: usize,
) -> bool
    requires { (count : ℕ) → EndsUpTo from (take count (shown pulses records.old))
        → BeginsAfter from (drop count (shown pulses records.old))
        → LastMayBeStale format lens.old.track.pulses (from - 99)
        (take count (shown pulses records.old)) }
    ensures told { Retold format lens.old.track.pulses from last
        (shown pulses records.old) (shown pulses records.new) result }
    ensures length { length records.new.items ≡ length records.old.items }
    ensures within { length records.old.items ≤ records.old.capacity }
    ensures capacity { records.new.capacity ≡ records.old.capacity }
    ensures looked { Looked lens.old lens.new looks.old looks.new 100 }
{
    // For its bound.
    let _count = records.len();
    let count = count_up_to(records, pulses, from);
    let more = is_up_to(records, pulses, count, last);
    // 99 pulses before `from`; 0 if there are fewer, and pulse 0 is no marker.
    let settled = from.saturating_sub(ELEMENTS - 1);
    retell(records, pulses, count, lens, looks, format, settled);
    more
}

/// Retells the last of the first `count` records, unless its frame ends before what has changed:
/// its marker is up to `settled`.
fn retell(
    records: &mut Gap<Stored>,
    pulses: usize,
    count: usize,
    lens: &mut Lens<'_>,
    looks: &mut u64,
    format: Format,
    settled: usize,
)
    requires within { count ≤ length records.old.items }
    requires stale { LastMayBeStale format lens.old.track.pulses settled
        (take count (shown pulses records.old)) }
    ensures shown { shown pulses records.new
        ≡ last_retold format lens.old.track.pulses (take count (shown pulses records.old))
        ++ drop count (shown pulses records.old) }
    ensures length { length records.new.items ≡ length records.old.items }
    ensures capacity { records.new.capacity ≡ records.old.capacity }
    ensures looked { Looked lens.old lens.new looks.old looks.new 100 }
{
    // For its bound.
    let _len = lens.len();
    if count == 0 {
        return;
    }
    let marker = record_at(records, pulses, count - 1).marker();
    if marker <= settled {
        return;
    }
    let first = lens.pulse(marker);
    add_looks(looks, 1);
    let verdict = verdict(lens, looks, format, marker, first);
    set_record(records, pulses, count - 1, Stored::new(marker, verdict));
}

/// The place before which a repair stops seeking markers: later pulses are as they were.
pub fn last_place(lens: &Lens<'_>, edit: Span) -> usize
    requires { edit.at + edit.new ≤ length lens.now.track.pulses }
    ensures least { result ≡ min (length lens.now.track.pulses - 1) (edit.at + edit.new) }
    ensures few { length lens.now.track.pulses ≤ 2 ^ 26 }
{
    let last = lens.len().saturating_sub(1);
    last.min(edit.at + edit.new)
}

/// The first place from `from` on, below `to`, with a marker after it; `to` if there is none.
pub fn next_marked(
    lens: &mut Lens<'_>,
    looks: &mut u64,
    format: Format,
    from: usize,
    to: usize,
) -> usize
    requires order { from ≤ to }
    requires within { from < to → to < length lens.old.track.pulses }
    ensures passed { Passed format lens.old.track.pulses from result 2
        lens.old lens.new looks.old looks.new }
    ensures within { result ≤ to }
{
    // For its bound.
    let _len = lens.len();
    match next_marker(lens, looks, format, from, to) {
        Some((before, _)) => before,
        None => to,
    }
}

/// The place from which on the next marker is sought: of the pulses that the verdict looked at only
/// the last can be one, as a frame has no two position identifiers in a row.
fn next_place(marker: usize, verdict: Verdict, to: usize) -> usize
    requires { marker ≤ to }
    ensures order { marker ≤ result }
    ensures within { result ≤ to }
    ensures near { (k : ℕ) → marker ≤ k → k < result → k + 1 < marker + looks_of verdict }
{
    let more = (looks_of(verdict) as usize).saturating_sub(1);
    marker + more.min(to - marker)
}
