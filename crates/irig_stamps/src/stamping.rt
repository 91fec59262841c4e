//! What comes out for a line: the line as it was, with its stamp before it.

ghost use Rattle.std.specs.Prelude.{◌≡◌, ◌<◌, ◌++◌, ◌∷◌, [], ℕ, List, IfOk, OnOk, unwrap_or};
ghost use Rattle.irig_stamps.specs.Looks.{begins, header_look, line_look, look_at};
ghost use Rattle.irig_stamps.specs.Outs.{IsOut, IsStamped, header_name, header_word};
ghost use Rattle.irig_stamps.specs.Offs.{header_cell};
ghost use Rattle.irig_stamps.specs.Ready.{IsReady};

use crate::columns::{column, width};
use crate::cutting::is_digit;
use crate::header_unit::names_other_unit;
use crate::law::printed_times_are_true;
use crate::look::Look;
use crate::moment::moment_of;
use crate::numbers::number;
use crate::settings::Settings;
use crate::stamp::{put_cell, put_stamp, stamp_of};
use irig_codes::Format;
use irig_timed::Known;
use irig_track::Lens;
use std::alloc::AllocError;

/// Adds what comes out for a line: if it is in the header the word of `header_word` and the line,
/// else the stamp and the line.
pub fn put_line_out(
    text: &mut Vec<u8>,
    pulses: &mut Lens<'_>,
    known: &Known,
    format: Format,
    settings: &Settings<'_>,
    count: u64,
    line: &[u8],
) -> Result<Look, AllocError>
    requires ready { IsReady format settings.now pulses.old.track.pulses known.now }
    ensures out { IfOk result (λ look. (out : List ℕ)
        × IsOut format pulses.old.track.pulses settings.now (header_word settings.now count)
        line.now out × (text.new.items ≡ text.old.items ++ out)
        × (look ≡ look_at settings.now count line.now out)) }
    ensures pulses { pulses.new.track ≡ pulses.old.track }
{
    if count < settings.header {
        put_header(text, settings, count)?;
        put_separated(text, settings.comma, line)?;
        return Ok(header_look(settings, count, line));
    }
    put_stamped(text, pulses, known, format, settings, count, line)
}

/// What is seen of a line of the header.
fn header_look(settings: &Settings<'_>, count: u64, line: &[u8]) -> Look
    ensures { result ≡ header_look settings.now count line.now }
{
    let number = count.saturating_add(1);
    let is_last = number == settings.header;
    Look {
        number,
        width: width(settings.comma, line),
        header: true,
        other_unit: is_last && names_other_unit(settings, line),
        numbered: true,
        timed: false,
        moment: None,
    }
}

/// Adds the words before a line of the header: before its last line the name of the new column of
/// times (`settings.name`) and that of the bounds, before each other one hyphens.
fn put_header(text: &mut Vec<u8>, settings: &Settings<'_>, count: u64) -> Result<(), AllocError>
    requires { count < settings.now.header }
    ensures { OnOk result (text.new.items ≡ text.old.items
        ++ (header_name settings.now count ++ header_cell settings.now count)) }
{
    let header = settings.header;
    if count + 1 == header {
        text.extend_from_slice(settings.name)?;
        put_cell(text, settings, b"bound_us")
    } else {
        text.extend_from_slice(b"-")?;
        put_cell(text, settings, b"-")
    }
}

/// Adds a line that is not in the header, with its stamp before it.
fn put_stamped(
    text: &mut Vec<u8>,
    pulses: &mut Lens<'_>,
    known: &Known,
    format: Format,
    settings: &Settings<'_>,
    count: u64,
    line: &[u8],
) -> Result<Look, AllocError>
    requires ready { IsReady format settings.now pulses.old.track.pulses known.now }
    ensures stamped { IfOk result (λ look. (out : List ℕ)
        × IsStamped format pulses.old.track.pulses settings.now line.now out
        × (text.new.items ≡ text.old.items ++ out)
        × (look ≡ line_look settings.now count line.now out)) }
    ensures pulses { pulses.new.track ≡ pulses.old.track }
{
    // For the proof alone: its contract has the law.
    printed_times_are_true();
    let column = column(settings.comma, settings.column, line);
    let number = number(settings.places, column);
    let stamp = stamp_of(pulses, known, format, settings, number);
    let start = text.len();
    put_stamp(text, settings, stamp)?;
    put_separated(text, settings.comma, line)?;
    Ok(Look {
        number: count.saturating_add(1),
        width: width(settings.comma, line),
        header: false,
        other_unit: false,
        numbered: number.is_some(),
        timed: begins(&text[start..]),
        moment: moment_of(settings, number),
    })
}

/// Whether a text begins with a digit: what comes out for a line does so if the line has a time,
/// since each time begins with one, and no other word before a line does.
fn begins(text: &[u8]) -> bool
    ensures { result ≡ begins text.now }
{
    match text {
        [byte, ..] => is_digit(*byte),
        [] => false,
    }
}

fn put_separated(text: &mut Vec<u8>, comma: Option<u8>, line: &[u8]) -> Result<(), AllocError>
    ensures { OnOk result
        (text.new.items ≡ text.old.items ++ (unwrap_or comma 9 ∷ line.now ++ 10 ∷ [])) }
{
    text.extend_from_slice(&[comma.unwrap_or(b'\t')])?;
    text.extend_from_slice(line)?;
    text.extend_from_slice(b"\n")
}
