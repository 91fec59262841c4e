//! A record as an index keeps it.

ghost use Rattle.std.specs.Prelude.{◌≡◌, ◌-◌, ◌^◌, ◌<◌, unwrap_or};
ghost use Rattle.irig_index.specs.Kept.{IsNarrow, kept_of, part_of, verdict_kept};

use crate::record::{Cause, Record, Verdict};
use irig_codes::{Fields, Note};
use std::marker::Model;
use std::mem::size_of;

/// In 32 bytes.
#[derive(Clone, Copy)]
pub struct Stored {
    marker: usize,
    kept: Kept,
}

const _: () = prove!(size_of::<Stored>() == 32);

impl Model for Stored {
    ghost use Rattle.irig_index.specs.declared.record.Record.{Record};

    ghost Value = { Record };

    ghost use Rattle.irig_index.specs.Kept.{verdict_kept, kept_of, kept_of-verdict_kept};

    ghost view = { λ s. record { marker = s.marker; verdict = verdict_kept s.kept } };

    ghost inverse = { λ r. record { marker = r.marker; kept = kept_of r.verdict } };

    ghost inverse_ok = { λ s h i. record {
      marker = s.marker;
      kept = kept_of-verdict_kept s.kept i;
    } };
}

impl Stored {
    /// Each number of the verdict has to fit in its bytes (`IsNarrow`), as those of a frame do.
    pub fn new(marker: usize, verdict: Verdict) -> Stored
        requires { IsNarrow verdict }
        ensures { result ≡ record { marker = marker; verdict = verdict } }
    {
        Stored {
            marker,
            kept: keep(verdict),
        }
    }

    /// The number of its pulse, from 0.
    #[inline(always)]
    pub fn marker(self) -> usize
        ensures { result ≡ self.marker }
    {
        self.marker
    }

    /// With another marker.
    #[inline(always)]
    pub fn at(self, marker: usize) -> Stored
        ensures { result ≡ record { marker = marker; verdict = self.verdict } }
    {
        Stored {
            marker,
            kept: self.kept,
        }
    }

    /// With its verdict in full.
    pub fn record(self) -> Record
        ensures { result ≡ self }
    {
        Record {
            marker: self.marker,
            verdict: verdict(self.kept),
        }
    }
}

/// A verdict in few bytes. A field that is `None` is the greatest number of its type.
#[derive(Clone, Copy)]
pub enum Kept {
    Broken(u8, Cause),
    Read {
        hundredths: u8,
        seconds: u8,
        minutes: u8,
        hours: u8,
        year: u8,
        days: u16,
        sbs: u32,
        note: Note,
        control: u64,
    },
}

/// Two digits of at most four bits each are at most 165, and the days at most 465.
fn keep(verdict: Verdict) -> Kept
    requires { IsNarrow verdict }
    ensures { result ≡ kept_of verdict }
{
    match verdict {
        Verdict::Broken(k, cause) => Kept::Broken(k, cause),
        Verdict::Read(fields, note) => Kept::Read {
            hundredths: byte(fields.hundredths),
            seconds: fields.seconds as u8,
            minutes: fields.minutes as u8,
            hours: fields.hours as u8,
            year: byte(fields.year),
            days: fields.days as u16,
            sbs: fields.sbs.unwrap_or(u32::MAX),
            note,
            control: fields.control.unwrap_or(u64::MAX),
        },
    }
}

/// The inverse of `keep`.
fn verdict(kept: Kept) -> Verdict
    ensures { result ≡ verdict_kept kept }
{
    match kept {
        Kept::Broken(k, cause) => Verdict::Broken(k, cause),
        Kept::Read {
            hundredths,
            seconds,
            minutes,
            hours,
            year,
            days,
            sbs,
            note,
            control,
        } => {
            let fields = Fields {
                hundredths: two_digits(hundredths),
                seconds: seconds as u32,
                minutes: minutes as u32,
                hours: hours as u32,
                days: days as u32,
                year: two_digits(year),
                sbs: binary(sbs),
                control: functions(control),
            };
            Verdict::Read(fields, note)
        }
    }
}

/// 255 is `None`.
#[inline(always)]
fn byte(part: Option<u32>) -> u8
    requires { unwrap_or part 0 < 255 }
    ensures { result ≡ unwrap_or part 255 }
{
    match part {
        Some(number) => number as u8,
        None => 255,
    }
}

#[inline(always)]
fn two_digits(byte: u8) -> Option<u32>
    ensures { result ≡ part_of 255 byte }
{
    if byte == 255 { None } else { Some(byte as u32) }
}

/// The greatest number is `None`, as the field has only 17 bits.
#[inline(always)]
fn binary(sbs: u32) -> Option<u32>
    ensures { result ≡ part_of (2 ^ 32 - 1) sbs }
{
    if sbs == u32::MAX { None } else { Some(sbs) }
}

/// The greatest number is `None`, as the field has at most 45 bits.
#[inline(always)]
fn functions(control: u64) -> Option<u64>
    ensures { result ≡ part_of (2 ^ 64 - 1) control }
{
    if control == u64::MAX {
        None
    } else {
        Some(control)
    }
}
