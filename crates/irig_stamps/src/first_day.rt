//! The day of the first frame that is believed, and how many frames have a time and are not
//! believed.

ghost use Rattle.std.specs.Prelude.{◌≡◌, ◌≤◌, ◌<◌, Some, slice_get, length};
ghost use Rattle.irig_index.specs.declared.record.Record.{Record};
ghost use Rattle.irig_times.specs.Times.{timed};
ghost use Rattle.irig_stamps.specs.Dates.{doubt_of, doubted, first_day, if_held};

use irig_codes::{Fields, Format};
use irig_times::{FrameLens, timed};

/// The day of the year, from 1, of the first frame that is believed; `None` if no frame is.
pub fn first_day(records: &mut FrameLens<'_>, held: &[bool], format: Format) -> Option<u32>
    ensures day { result ≡ first_day format held.now 0 records.old.records }
    ensures same { records.new.records ≡ records.old.records }
{
    for k in 0..records.len() {
        match held_fields(records, held, format, k) {
            Some(fields) => return Some(fields.days),
            None => {}
        }
    }
    None
}

/// Whether the frame of the record at a place, from 0, is believed; `None` if there is no record at
/// this place, and so nothing in `held`.
pub fn held_at(held: &[bool], place: usize) -> Option<bool>
    ensures { result ≡ slice_get held.now place }
{
    if place < held.len() {
        Some(held[place])
    } else {
        None
    }
}

/// The fields of the frame of the record at a place, from 0; `None` if the frame is not believed,
/// or has no time.
fn held_fields(
    records: &mut FrameLens<'_>,
    held: &[bool],
    format: Format,
    place: usize,
) -> Option<Fields>
    requires { place < length records.old.records }
    ensures fields { (r : Record) → slice_get records.old.records place ≡ Some r
        → result ≡ if_held (slice_get held.now place) (timed format r.verdict) }
    ensures same { records.new.records ≡ records.old.records }
{
    let record = records.record(place);
    match held_at(held, place) {
        Some(true) => timed(format, record.verdict),
        _ => None,
    }
}

/// How many frames have a time and are not believed.
pub fn count_doubted(records: &mut FrameLens<'_>, held: &[bool], format: Format) -> usize
    ensures count { result ≡ doubted format held.now 0 records.old.records }
    ensures same { records.new.records ≡ records.old.records }
{
    let mut count = 0;
    for k in 0..records.len() {
        count += doubt_of(records, held, format, k);
    }
    count
}

/// 1 if the frame of the record at a place, from 0, has a time and is not believed, else 0: what it
/// adds to `count_doubted`.
fn doubt_of(records: &mut FrameLens<'_>, held: &[bool], format: Format, place: usize) -> usize
    requires { place < length records.old.records }
    ensures doubt { (r : Record) → slice_get records.old.records place ≡ Some r
        → result ≡ doubt_of (slice_get held.now place) (timed format r.verdict) }
    ensures few { result ≤ 1 }
    ensures same { records.new.records ≡ records.old.records }
{
    let record = records.record(place);
    match held_at(held, place) {
        Some(false) if timed(format, record.verdict).is_some() => 1,
        _ => 0,
    }
}
