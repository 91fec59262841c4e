//! Times as numbers of frames from the begin of a year.

ghost use Rattle.std.specs.Prelude.{◌≡◌, ◌^◌, ◌<◌, ◌≤◌};
ghost use Rattle.irig_candidates.specs.Far.{alike, apart, can_insert, far, far_past_day_365};
ghost use Rattle.irig_candidates.specs.Far.{far_with_inserted, later, stays_inserted};
ghost use Rattle.irig_candidates.specs.Times.{day_of, fields_at, fields_since, inserted_of};
ghost use Rattle.irig_candidates.specs.Times.{is_inserted, is_time, minute_of, period_of, second_of};
ghost use Rattle.irig_candidates.specs.Times.{since, time_of, year_of};

use irig_codes::{Fields, Format, Kind};

/// How long a frame takes, in hundredths of a second.
fn period(kind: Kind) -> u64
    ensures value { result ≡ period_of kind }
    ensures least { 1 ≤ result }
    ensures most { result ≤ 1000 }
{
    match kind {
        Kind::A => 10,
        Kind::B => 100,
        Kind::E => 1_000,
        Kind::G => 1,
    }
}

pub fn second(kind: Kind) -> u64
    ensures value { result ≡ second_of kind }
    ensures small { result ≤ 100 }
{
    100 / period(kind)
}

pub fn minute(kind: Kind) -> u64
    ensures value { result ≡ minute_of kind }
    ensures least { 6 ≤ result }
    ensures most { result ≤ 6000 }
{
    match kind {
        Kind::A => 600,
        Kind::B => 60,
        Kind::E => 6,
        Kind::G => 6_000,
    }
}

pub fn day(kind: Kind) -> u64
    ensures value { result ≡ day_of kind }
    ensures least { 8640 ≤ result }
    ensures most { result ≤ 8640000 }
{
    match kind {
        Kind::A => 864_000,
        Kind::B => 86_400,
        Kind::E => 8_640,
        Kind::G => 8_640_000,
    }
}

pub fn year(kind: Kind) -> u64
    ensures value { result ≡ year_of kind }
    ensures least { 1 ≤ result }
    ensures most { result ≤ 3162240000 }
{
    366 * day(kind)
}

pub fn inserted(kind: Kind) -> u64
    ensures value { result ≡ inserted_of kind }
    ensures most { result ≤ 6324480000 }
{
    2 * year(kind)
}

/// The hundredths of a second from the begin of the year to a time.
pub fn since(kind: Kind, time: u64) -> u64
    ensures value { result ≡ since kind time }
    ensures most { result < 3162240000 }
{
    time % year(kind) * period(kind)
}

/// The fields of the frame of a time.
pub fn fields(format: Format, time: u64) -> Fields
    ensures { result ≡ fields_at format time }
{
    let inserted = u32::from(is_inserted(format.kind(), time));
    fields_since(format, since(format.kind(), time) as u32, inserted)
}

pub fn is_inserted(kind: Kind, time: u64) -> bool
    ensures { result ≡ is_inserted kind time }
{
    inserted(kind) <= time
}

fn fields_since(format: Format, since: u32, inserted: u32) -> Fields
    requires { inserted ≤ 1 }
    ensures { result ≡ fields_since format since inserted }
{
    let time = since % 8_640_000;
    Fields {
        hundredths: format.has_hundredths().then_some(time % 100),
        seconds: time / 100 % 60 + inserted,
        minutes: time / 6_000 % 60,
        hours: time / 360_000,
        days: since / 8_640_000 + 1,
        year: format.has_year().then_some(0),
        sbs: format.has_sbs().then_some(time / 100 + inserted),
        control: format.has_control().then_some(0),
    }
}

pub fn is_time(kind: Kind, time: u64) -> bool
    ensures { result ≡ is_time kind time }
{
    let minute = minute(kind);
    time < inserted(kind) || minute <= time % minute + second(kind)
}

pub fn time(kind: Kind, base: u64, frame: u64) -> u64
    ensures value { result ≡ time_of kind base frame }
    ensures small { result < 2 ^ 34 }
{
    let year = year(kind);
    let time = (base % year + frame % year) % year;
    if is_inserted(kind, base) {
        time + inserted(kind)
    } else {
        time
    }
}

/// Whether both times lie in a second 60, or none does.
fn are_alike(kind: Kind, time: u64, other: u64) -> bool
    ensures { result ≡ alike (is_inserted kind time) (is_inserted kind other) }
{
    if is_inserted(kind, time) {
        is_inserted(kind, other)
    } else {
        !is_inserted(kind, other)
    }
}

fn apart(kind: Kind, time: u64, other: u64) -> u64
    ensures value { result ≡ apart kind time other }
    ensures small { result ≤ 3162240000 }
{
    let year = year(kind);
    let ahead = (other % year + year - time % year) % year;
    if are_alike(kind, time, other) {
        ahead.min(year - ahead)
    } else {
        year
    }
}

fn later(kind: Kind, time: u64, count: u64) -> u64
    ensures value { result ≡ later kind time count }
    ensures small { result < 3162240000 }
{
    let year = year(kind);
    (time % year + count % year + (year - 1)) % year
}

fn stays_inserted(kind: Kind, time: u64, count: u64) -> bool
    ensures { result ≡ stays_inserted kind time count }
{
    let minute = minute(kind);
    is_inserted(kind, time) && count <= minute - time % minute
}

fn far_past_day_365(kind: Kind, next: u64, count: u64, other: u64) -> u64
    requires { next < 3162240000 }
    ensures value { result ≡ far_past_day_365 kind next count other }
    ensures small { result ≤ 3162240000 }
{
    let year = year(kind);
    let next = (next + day(kind)) % year;
    if next + 1 < count {
        apart(kind, next, other)
    } else {
        year
    }
}

fn can_insert(kind: Kind, time: u64, next: u64, count: u64) -> bool
    ensures { result ≡ can_insert kind time next count }
{
    let next = next % minute(kind);
    !is_inserted(kind, time) && next + 1 < count && next < second(kind)
}

fn far_with_inserted(kind: Kind, time: u64, next: u64, count: u64, other: u64) -> u64
    requires { next < 3162240000 }
    ensures value { result ≡ far_with_inserted kind time next count other }
    ensures small { result ≤ 3162240000 }
{
    let year = year(kind);
    if can_insert(kind, time, next, count) {
        let next = (next + (year - second(kind))) % year;
        apart(kind, inserted(kind) + next, other)
    } else {
        year
    }
}

pub fn far(kind: Kind, time: u64, count: u64, other: u64) -> u64
    ensures value { result ≡ far kind time count other }
    ensures small { result < 2 ^ 32 }
{
    let next = later(kind, time, count);
    if stays_inserted(kind, time, count) {
        return apart(kind, inserted(kind) + next, other);
    }
    let usual = apart(kind, next, other);
    let day = far_past_day_365(kind, next, count, other);
    usual.min(day.min(far_with_inserted(kind, time, next, count, other)))
}
