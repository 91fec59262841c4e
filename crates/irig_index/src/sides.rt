//! The records on both sides of a gap.

ghost use Rattle.std.specs.Prelude.{◌≡◌, ℕ, ◌+◌, ◌*◌, ◌^◌, ◌<◌, ◌≤◌, ◌∷◌, ◌++◌, [], true, false};
ghost use Rattle.std.specs.Prelude.{List, length, max, slice_get, Some, IsOk, OnOk};
ghost use Rattle.irig_index.specs.declared.record.Record.{Record};
ghost use Rattle.irig_index.specs.Cuts.{Cut, EndsWithin, Parts};
ghost use Rattle.irig_index.specs.Sides.{turned, left_of, kept_right, right_of, shown, EndsUpTo};
ghost use Rattle.irig_index.specs.Sides.{BeginsAfter, BeginsUpTo, Dropped};

use crate::stored::Stored;
use irig_gap::Gap;
use std::alloc::AllocError;

/// The record with its marker's number counted from the other end of the track. The clause `fits`
/// is only for the proof, which needs that a number has 64 bits.
pub fn turned(pulses: usize, kept: Stored) -> Stored
    ensures turned { result ≡ turned pulses kept }
    ensures fits { kept.marker < 2 ^ 64 }
{
    kept.at(pulses.wrapping_sub(kept.marker()))
}

/// Its marker is counted from the front.
pub fn record_at(records: &Gap<Stored>, pulses: usize, k: usize) -> Stored
    requires { k < length records.now.items }
    ensures { slice_get (shown pulses records.now) k ≡ Some result }
{
    let record = records.get(k);
    if k < records.gap_at() {
        record
    } else {
        turned(pulses, record)
    }
}

/// The memory stays taken.
pub fn clear(records: &mut Gap<Stored>)
    ensures items { records.new.items ≡ [] }
    ensures capacity { records.new.capacity ≡ records.old.capacity }
{
    while records.gap_at() > 0 {
        records.take_left();
    }
    while records.len() > 0 {
        records.take_right();
    }
}

/// Removes the records of the markers after `first`, up to `last`, and leaves the gap there. Those
/// left of the gap go first, so that it does not have to move over them.
pub fn cut_out(records: &mut Gap<Stored>, pulses: usize, first: usize, last: usize)
    requires { first ≤ last }
    ensures sides { (start middle rest : List Record)
        → Parts first last (shown pulses records.old) start middle rest
        → (left_of records.new ≡ start) × (right_of pulses records.new ≡ rest) }
    ensures capacity { records.new.capacity ≡ records.old.capacity }
{
    drop_back_to(records, pulses, first, last);
    part(records, pulses, first);
    drop_up_to(records, pulses, last);
}

/// Moves the gap to between the records of the markers up to `last` and all others.
fn part(records: &mut Gap<Stored>, pulses: usize, last: usize)
    ensures shown { shown pulses records.new ≡ shown pulses records.old }
    ensures left { EndsUpTo last (left_of records.new) }
    ensures right { BeginsAfter last (right_of pulses records.new) }
    ensures length { length records.new.items ≡ length records.old.items }
    ensures capacity { records.new.capacity ≡ records.old.capacity }
{
    while ends_after(records, last) {
        step_left(records, pulses);
    }
    while begins_up_to(records, pulses, last) {
        step_right(records, pulses);
    }
}

/// Moves the gap left over the records after `last`, and removes those left of it after `first`.
fn drop_back_to(records: &mut Gap<Stored>, pulses: usize, first: usize, last: usize)
    ensures cut { Cut first last (shown pulses records.old)
        (left_of records.new) (right_of pulses records.new) }
    ensures length { length records.new.items ≤ length records.old.items }
    ensures capacity { records.new.capacity ≡ records.old.capacity }
{
    while ends_after(records, last) {
        step_left(records, pulses);
    }
    while ends_within(records, first, last) {
        records.take_left();
    }
}

/// Removes the records right of the gap that are of markers up to `last`.
fn drop_up_to(records: &mut Gap<Stored>, pulses: usize, last: usize)
    ensures left { left_of records.new ≡ left_of records.old }
    ensures right { Dropped last (right_of pulses records.old) (right_of pulses records.new) }
    ensures length { length records.new.items ≤ length records.old.items }
    ensures capacity { records.new.capacity ≡ records.old.capacity }
{
    while begins_up_to(records, pulses, last) {
        records.take_right();
    }
}

/// Whether the record left of the gap is of a marker after `last`.
pub fn ends_after(records: &Gap<Stored>, last: usize) -> bool
    ensures left { result ≡ false → EndsUpTo last (left_of records.now) }
    ensures some { result ≡ true → 0 < records.now.place }
{
    let place = records.gap_at();
    place > 0 && records.get(place - 1).marker() > last
}

fn ends_within(records: &Gap<Stored>, first: usize, last: usize) -> bool
    ensures { result ≡ true → EndsWithin first last records.now.items records.now.place }
{
    let place = records.gap_at();
    if place == 0 {
        return false;
    }
    let marker = records.get(place - 1).marker();
    marker > first && marker <= last
}

/// Whether the record right of the gap is of a marker up to `last`.
pub fn begins_up_to(records: &Gap<Stored>, pulses: usize, last: usize) -> bool
    ensures right { result ≡ false → BeginsAfter last (right_of pulses records.now) }
    ensures some { result ≡ true → BeginsUpTo last (right_of pulses records.now) }
{
    let place = records.gap_at();
    place < records.len() && turned(pulses, records.get(place)).marker() <= last
}

/// Over one record, whose marker is then counted from the back.
fn step_left(records: &mut Gap<Stored>, pulses: usize)
    requires { 0 < records.old.place }
    ensures shown { shown pulses records.new ≡ shown pulses records.old }
    ensures place { records.new.place + 1 ≡ records.old.place }
    ensures length { length records.new.items ≡ length records.old.items }
    ensures capacity { records.new.capacity ≡ records.old.capacity }
{
    // Its place among all records.
    let last = records.gap_at() - 1;
    let record = records.get(last);
    records.set(last, turned(pulses, record));
    records.step_left();
}

/// Over one record, whose marker is then counted from the front.
fn step_right(records: &mut Gap<Stored>, pulses: usize)
    requires { records.old.place < length records.old.items }
    ensures shown { shown pulses records.new ≡ shown pulses records.old }
    ensures left { (last : ℕ) → BeginsUpTo last (right_of pulses records.old)
        → EndsUpTo last (left_of records.new) }
    ensures place { records.new.place ≡ records.old.place + 1 }
    ensures length { length records.new.items ≡ length records.old.items }
    ensures capacity { records.new.capacity ≡ records.old.capacity }
{
    let first = records.gap_at();
    let record = records.get(first);
    records.set(first, turned(pulses, record));
    records.step_right();
}

/// Inserts a record just left of the gap, its marker counted from the front. A full buffer grows by
/// half of its capacity, or by one place if that is more.
pub fn put(records: &mut Gap<Stored>, found: Stored) -> Result<(), AllocError>
    ensures left { OnOk result (left_of records.new ≡ left_of records.old ++ (found ∷ [])) }
    ensures right { OnOk result (kept_right records.new ≡ kept_right records.old) }
    ensures room { length records.old.items + 1 ≤ records.old.capacity
        → IsOk result × (records.new.capacity ≡ records.old.capacity) }
    ensures long { OnOk result (length records.new.items ≡ length records.old.items + 1) }
    ensures bounded { OnOk result (2 * records.new.capacity
        ≤ max (2 * records.old.capacity) (3 * length records.new.items)) }
{
    records.reserve(1)?;
    // For its bound.
    let _place = records.gap_at();
    records.put(found);
    Ok(())
}
