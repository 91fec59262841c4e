//! The run over the lines: it reads them in parts, and prints each line with its stamp before it.

ghost use Rattle.std.specs.Prelude.{◌≡◌, [], ℕ, List, Option, true, false, OnOk, IfOk};
ghost use Rattle.std.specs.Io.KnownBytes.{Consumes, IsAtEnd};
ghost use Rattle.irig_stamps.specs.Ready.{IsReady};
ghost use Rattle.irig_stamps.specs.Runs.{Ends};
ghost use Rattle.irig_stamps.specs.Steps.{GoesOn, Underway};

use crate::fault::RunFault;
use crate::printing::{print, stop};
use crate::progress::Progress;
use crate::reading::{READ_LIMIT, READS_LIMIT, read_part};
use crate::settings::Settings;
use crate::taking::{end_line, take_part};
use crate::tally::Tally;
use irig_codes::Format;
use irig_timed::Known;
use irig_track::Lens;
use std::alloc::Global;
use std::io::{Read, Write};

/// Takes `before`, the bytes of the lines that were read already, reads the rest to its end, and
/// prints each line with its stamp before it.
pub fn run<R: Read, W: Write>(
    alloc: Global,
    before: &[u8],
    lines: &mut R,
    out: &mut W,
    pulses: &mut Lens<'_>,
    known: &Known,
    format: Format,
    settings: &Settings<'_>,
) -> Result<Tally, RunFault>
    requires ready { IsReady format settings.now pulses.old.track.pulses known.now }
    ensures { (start : Option (List ℕ)) → Consumes start (R.remaining lines.old) before.now
        → Ends format pulses.old.track.pulses settings.now start (R.remaining lines.new)
        (W.contents out.old) (W.contents out.new) result }
{
    let mut state = Progress::new(alloc);
    let mut text = Vec::new(alloc);
    match put_part(
        out, &mut state, &mut text, pulses, known, format, settings, before,
    ) {
        // It is `false` here: the lines have not ended.
        Ok(_) => run_rest(
            lines, out, &mut state, &mut text, pulses, known, format, settings,
        ),
        Err(fault) => Err(fault),
    }
}

/// Reads the rest of the lines and prints what comes out for it.
fn run_rest<R: Read, W: Write>(
    lines: &mut R,
    out: &mut W,
    state: &mut Progress,
    text: &mut Vec<u8>,
    pulses: &mut Lens<'_>,
    known: &Known,
    format: Format,
    settings: &Settings<'_>,
) -> Result<Tally, RunFault>
    requires ready { IsReady format settings.now pulses.old.track.pulses known.now }
    requires empty { text.old.items ≡ [] }
    ensures { (start : Option (List ℕ)) (from : Option (List ℕ))
        → Underway format pulses.old.track.pulses settings.now start (R.remaining lines.old) from
        (W.contents out.old) state.old.line.items state.old.count state.old.tally
        → Ends format pulses.old.track.pulses settings.now start (R.remaining lines.new) from
        (W.contents out.new) result }
{
    let mut buffer = [0; READ_LIMIT];
    for reads in 0..READS_LIMIT {
        match run_one_read(
            lines,
            out,
            &mut buffer,
            state,
            text,
            pulses,
            known,
            format,
            settings,
        ) {
            Ok(true) => return Ok(state.tally),
            Ok(false) => {}
            Err(fault) => return Err(fault),
        }
    }
    Err(RunFault::TooManyReads)
}

/// Reads a part of the lines and prints what comes out for it.
fn run_one_read<R: Read, W: Write>(
    lines: &mut R,
    out: &mut W,
    buffer: &mut [u8; READ_LIMIT],
    state: &mut Progress,
    text: &mut Vec<u8>,
    pulses: &mut Lens<'_>,
    known: &Known,
    format: Format,
    settings: &Settings<'_>,
) -> Result<bool, RunFault>
    requires ready { IsReady format settings.now pulses.old.track.pulses known.now }
    requires empty { text.old.items ≡ [] }
    ensures step { (start : Option (List ℕ)) (from : Option (List ℕ))
        → Underway format pulses.old.track.pulses settings.now start (R.remaining lines.old) from
        (W.contents out.old) state.old.line.items state.old.count state.old.tally
        → GoesOn format pulses.old.track.pulses settings.now start (R.remaining lines.new) from
        (W.contents out.new) state.new result }
    ensures empty { OnOk result (text.new.items ≡ []) }
    ensures pulses { pulses.new.track ≡ pulses.old.track }
{
    let Ok(count) = read_part(lines, buffer) else {
        return Err(RunFault::ReadFailed);
    };
    if count == 0 {
        return end_last_line(out, state, text, pulses, known, format, settings);
    }
    put_part(
        out,
        state,
        text,
        pulses,
        known,
        format,
        settings,
        &buffer[..count],
    )
}

/// Takes a part of the lines and prints what comes out for it.
fn put_part<W: Write>(
    out: &mut W,
    state: &mut Progress,
    text: &mut Vec<u8>,
    pulses: &mut Lens<'_>,
    known: &Known,
    format: Format,
    settings: &Settings<'_>,
    part: &[u8],
) -> Result<bool, RunFault>
    requires ready { IsReady format settings.now pulses.old.track.pulses known.now }
    requires empty { text.old.items ≡ [] }
    ensures step { (start : Option (List ℕ)) (was : Option (List ℕ)) (is : Option (List ℕ))
        (from : Option (List ℕ)) → Underway format pulses.old.track.pulses settings.now start was
        from (W.contents out.old) state.old.line.items state.old.count state.old.tally
        → Consumes was is part.now → GoesOn format pulses.old.track.pulses settings.now start is
        from (W.contents out.new) state.new result }
    ensures empty { OnOk result (text.new.items ≡ []) }
    ensures more { IfOk result (λ ended. ended ≡ false) }
    ensures pulses { pulses.new.track ≡ pulses.old.track }
{
    match take_part(state, text, pulses, known, format, settings, part) {
        Ok(()) => print(out, text, false),
        Err(fault) => Err(stop(out, text, state.count, fault)),
    }
}

/// Ends the last line, if bytes came after the last newline, and prints what comes out for it.
fn end_last_line<W: Write>(
    out: &mut W,
    state: &mut Progress,
    text: &mut Vec<u8>,
    pulses: &mut Lens<'_>,
    known: &Known,
    format: Format,
    settings: &Settings<'_>,
) -> Result<bool, RunFault>
    requires ready { IsReady format settings.now pulses.old.track.pulses known.now }
    requires empty { text.old.items ≡ [] }
    ensures step { (start : Option (List ℕ)) (left : Option (List ℕ)) (from : Option (List ℕ))
        → IsAtEnd left → Underway format pulses.old.track.pulses settings.now start left from
        (W.contents out.old) state.old.line.items state.old.count state.old.tally
        → GoesOn format pulses.old.track.pulses settings.now start left from
        (W.contents out.new) state.new result }
    ensures empty { OnOk result (text.new.items ≡ []) }
    ensures ended { IfOk result (λ ended. ended ≡ true) }
    ensures pulses { pulses.new.track ≡ pulses.old.track }
{
    if state.line.is_empty() {
        return Ok(true);
    }
    match end_line(state, text, pulses, known, format, settings) {
        Ok(()) => print(out, text, true),
        Err(_) => Err(RunFault::OutOfMemory),
    }
}
