//! Records by their place among all, from 0, on whichever side of the gap they are.

ghost use Rattle.std.specs.Prelude.{◌≡◌, ℕ, ◌+◌, ◌<◌, ◌≤◌, false, length, take, drop, slice_set};
ghost use Rattle.irig_index.specs.Sides.{shown, EndsUpTo, BeginsAfter};

use crate::sides::{begins_up_to, ends_after, record_at, turned};
use crate::stored::Stored;
use irig_gap::Gap;

/// How many records are of markers up to pulse `last`, by halves.
pub fn count_up_to(records: &Gap<Stored>, pulses: usize, last: usize) -> usize
    ensures within { result ≤ length records.now.items }
    ensures before { EndsUpTo last (take result (shown pulses records.now)) }
    ensures after { BeginsAfter last (drop result (shown pulses records.now)) }
{
    let mut low = least_up_to(records, pulses, last);
    let mut high = most_up_to(records, pulses, last);
    while low < high {
        let middle = low + (high - low) / 2;
        if record_at(records, pulses, middle).marker() <= last {
            low = middle + 1;
        } else {
            high = middle;
        }
    }
    low
}

/// A lower bound of that by the gap, which is mostly where the last edit was.
fn least_up_to(records: &Gap<Stored>, pulses: usize, last: usize) -> usize
    ensures within { result ≤ records.now.place }
    ensures before { EndsUpTo last (take result (shown pulses records.now)) }
{
    if ends_after(records, last) {
        0
    } else {
        records.gap_at()
    }
}

/// An upper bound of that by the gap.
fn most_up_to(records: &Gap<Stored>, pulses: usize, last: usize) -> usize
    ensures from { records.now.place ≤ result }
    ensures within { result ≤ length records.now.items }
    ensures after { BeginsAfter last (drop result (shown pulses records.now)) }
{
    if begins_up_to(records, pulses, last) {
        records.len()
    } else {
        records.gap_at()
    }
}

/// Whether there is a record at place `k`, and it is of a marker up to pulse `last`.
pub fn is_up_to(records: &Gap<Stored>, pulses: usize, k: usize, last: usize) -> bool
    requires { k ≤ length records.now.items }
    ensures { result ≡ false → BeginsAfter last (drop k (shown pulses records.now)) }
{
    k < records.len() && record_at(records, pulses, k).marker() <= last
}

/// The marker of `found` counts from the front.
pub fn set_record(records: &mut Gap<Stored>, pulses: usize, k: usize, found: Stored)
    requires { k < length records.old.items }
    ensures shown { shown pulses records.new ≡ slice_set (shown pulses records.old) k found }
    ensures length { length records.new.items ≡ length records.old.items }
    ensures capacity { records.new.capacity ≡ records.old.capacity }
{
    if k < records.gap_at() {
        records.set(k, found);
    } else {
        records.set(k, turned(pulses, found));
    }
}
