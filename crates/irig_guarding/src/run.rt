//! A run under guard on a dump, from the bytes that come in to those that go out.

ghost use Rattle.std.specs.Prelude.{◌≡◌, ◌≤◌, ◌<◌, ◌⊎◌, ◌^◌, ◌==◌, ℕ, Err, List, None, Option, length, Ok};
ghost use Rattle.std.specs.Prelude.{IfErr, IfOk, IfSome, OnErr, OnOk, [], ◌∷◌, if◌then◌else◌};
ghost use Rattle.irig_edit.specs.Opened.Openings.{MayBeShort};
ghost use Rattle.irig_vcd.specs.{Answer.bytes_of, Parts.dump_parts};
ghost use Rattle.irig_vcd.specs.declared.fault.VcdFault.TheVariants.{OutOfMemory};
ghost use Rattle.irig_guarding.specs.declared.product.GuardFault.TheVariants.{Dump, ReadFailed};
ghost use Rattle.irig_guarding.specs.declared.product.GuardFault.TheVariants.{ScriptTooLong};
ghost use Rattle.irig_guarding.specs.ScriptLength.{IsRefusedIfTooLong, script_limit};
ghost use Rattle.irig_guarding.specs.GuardedRun.{GuardsOnDump, RunsUnderGuard};
ghost use Rattle.irig_guarding.specs.KeptText.{IsKept, texts_or};
ghost use Rattle.irig_script.specs.Obey.Desk.{desk};
ghost use Rattle.irig_text.specs.Shelved.{Puts};

use crate::product::{GuardFault, Kept, Product};
use crate::rounds::guard;
use irig_codes::Format;
use irig_edit::Session;
use irig_print::put_all;
use irig_recording::Recording;
use irig_safety::Terms;
use irig_text::{Bytes, Shelf, ShelfFault, Text};
use std::alloc::{AllocError, Global};
use std::io::{Read, Write};

/// The most bytes of a script: 2^23.
const SCRIPT_LIMIT: usize = 8_388_608;

/// Opens a dump by what was read of it, its recording and the text of its journal (at most 2^28
/// bytes, as a dump), and runs a proposed script on it under guard.
pub fn guard_on_parts<R: Read, W: Write, S: Shelf>(
    alloc: Global,
    recording: Recording,
    journal: Option<Vec<u8>>,
    format: Format,
    terms: Terms,
    product: Product,
    script: &mut R,
    out: &mut W,
    shelf: &mut S,
) -> Result<Kept, GuardFault>
    requires { IfSome journal (λ text. length text.items ≤ 2 ^ 28) }
    ensures ends { (wire : Option (List ℕ)) (bytes : List ℕ)
        → dump_parts wire bytes ≡ Ok (recording, bytes_of journal)
        → GuardsOnDump wire format terms bytes product (R.remaining script.old)
        (R.remaining script.new) (desk (W.contents out.old) (S.known shelf.old))
        (desk (W.contents out.new) (S.known shelf.new)) result }
    // Memory runs out for the session only if no fault of the dump comes before that.
    ensures memory { result ≡ Err (Dump OutOfMemory)
        → MayBeShort (Ok (recording, bytes_of journal)) }
    ensures long { IsRefusedIfTooLong (R.remaining script.old) result }
    ensures label { (S.known shelf.new).label ≡ (S.known shelf.old).label }
    ensures since { S.since shelf.old shelf.new }
    ensures nothing { product ≡ Product.Nothing → shelf.new ≡ shelf.old }
{
    match Session::open_parts(alloc, recording, journal, format) {
        Ok(mut session) => guard_session(alloc, &mut session, terms, product, script, out, shelf),
        Err(fault) => Err(GuardFault::Dump(fault)),
    }
}

/// Runs a proposed script on a session under guard, prints the script that is accepted to `out`,
/// and writes what `product` asks for to the shelf, but nothing if there was no frame to go by.
/// That is what the printed script leaves: a repair that is tried takes away what can be redone, so
/// the text from before is kept, and written if no step was made.
pub fn guard_session<R: Read, W: Write, S: Shelf>(
    alloc: Global,
    session: &mut Session,
    terms: Terms,
    product: Product,
    script: &mut R,
    out: &mut W,
    shelf: &mut S,
) -> Result<Kept, GuardFault>
    requires { session.old.floor ≡ None }
    ensures ends { RunsUnderGuard terms product session.old (R.remaining script.old)
        (desk (W.contents out.old) (S.known shelf.old))
        (desk (W.contents out.new) (S.known shelf.new)) result }
    ensures label { (S.known shelf.new).label ≡ (S.known shelf.old).label }
    ensures since { S.since shelf.old shelf.new }
    ensures nothing { product ≡ Product.Nothing → shelf.new ≡ shelf.old }
{
    let bytes = match script_of(alloc, script) {
        Ok(bytes) => bytes,
        Err(fault) => return Err(fault),
    };
    let steps = session.steps_back();
    let Ok(before) = text_before(session, product) else {
        return Err(GuardFault::OutOfMemory);
    };
    let Ok((printed, kept)) = guard(alloc, session, terms, bytes.as_slice()) else {
        return Err(GuardFault::OutOfMemory);
    };
    let Ok(()) = put_all(out, printed.as_slice()) else {
        return Err(GuardFault::PrintFailed);
    };
    let unmade = text_if_unmade(session, steps, before);
    match write_if_judged(session, kept.judged, unmade, product, shelf) {
        Ok(()) => Ok(kept),
        Err(_) => Err(GuardFault::WriteFailed),
    }
}

/// A script to its end, of which no more is read than shows that it is too long.
fn script_of<R: Read>(alloc: Global, script: &mut R) -> Result<Vec<u8>, GuardFault>
    ensures read { IfOk result (λ bytes. IfSome (R.remaining script.old)
        (λ all. bytes.items ≡ all)) }
    ensures short { IfOk result (λ bytes. length bytes.items ≤ script_limit) }
    ensures long { result ≡ Err ScriptTooLong
        → IfSome (R.remaining script.old) (λ all. script_limit < length all) }
    ensures fault { IfErr result (λ fault. (fault ≡ ScriptTooLong) ⊎ (fault ≡ ReadFailed)) }
{
    let mut bytes = Vec::new(alloc);
    let mut front = Read::take(&mut *script, SCRIPT_LIMIT as u64 + 1);
    let Ok(_) = front.read_to_end(&mut bytes) else {
        return Err(GuardFault::ReadFailed);
    };
    if_short(bytes)
}

/// A script, if it has no more bytes than it may.
fn if_short(bytes: Vec<u8>) -> Result<Vec<u8>, GuardFault>
    ensures same { IfOk result (λ kept. kept.items ≡ bytes.items) }
    ensures short { IfOk result (λ kept. length kept.items ≤ script_limit) }
    ensures long { OnErr result (script_limit < length bytes.items) }
    ensures fault { IfErr result (λ fault. fault ≡ ScriptTooLong) }
{
    if bytes.len() > SCRIPT_LIMIT {
        return Err(GuardFault::ScriptTooLong);
    }
    Ok(bytes)
}

/// The text of a session before repairs are tried, with its journal, if it is to be written and
/// something can be redone: the first edit that is tried takes that away.
fn text_before(session: &Session, product: Product) -> Result<Option<Vec<u8>>, AllocError>
    ensures { IfOk result (λ kept. IsKept product session.now (bytes_of kept)) }
{
    if product == Product::Session && session.steps_forward() > 0 {
        let text = session.saved()?;
        return Ok(Some(text));
    }
    Ok(None)
}

/// The text that was kept before repairs were tried, if they made no step: if as many lead back as
/// did then (`steps`).
fn text_if_unmade(session: &Session, steps: usize, before: Option<Vec<u8>>) -> Option<Vec<u8>>
    ensures { bytes_of result
        ≡ if length session.now.past == steps then bytes_of before else None }
{
    if session.steps_back() == steps {
        before
    } else {
        None
    }
}

/// Writes what `product` asks for (`write_product`) if there was a frame to go by.
fn write_if_judged<S: Shelf>(
    session: &Session,
    judged: bool,
    unmade: Option<Vec<u8>>,
    product: Product,
    shelf: &mut S,
) -> Result<(), ShelfFault>
    ensures ok { OnOk result (Puts (S.known shelf.old) (S.known shelf.new)
        (if judged then texts_or (bytes_of unmade) product session.now else []) 0) }
    ensures err { OnErr result (Puts (S.known shelf.old) (S.known shelf.new) [] 1) }
    ensures since { S.since shelf.old shelf.new }
    ensures nothing { product ≡ Product.Nothing → shelf.new ≡ shelf.old }
{
    if judged {
        write_product(session, unmade, product, shelf)
    } else {
        Ok(())
    }
}

/// Writes what `product` asks for of a session to the shelf: nothing, its track, or its track with
/// the journal. If `unmade` is the text of that as it was before repairs were tried, that is
/// written.
fn write_product<S: Shelf>(
    session: &Session,
    unmade: Option<Vec<u8>>,
    product: Product,
    shelf: &mut S,
) -> Result<(), ShelfFault>
    ensures ok { OnOk result (Puts (S.known shelf.old) (S.known shelf.new)
        (texts_or (bytes_of unmade) product session.now) 0) }
    ensures err { OnErr result (Puts (S.known shelf.old) (S.known shelf.new) [] 1) }
    ensures since { S.since shelf.old shelf.new }
    ensures nothing { product ≡ Product.Nothing → shelf.new ≡ shelf.old }
{
    match product {
        Product::Nothing => Ok(()),
        Product::Track => write(&mut session.text_parts(), shelf),
        Product::Session => match unmade {
            Some(text) => write(&mut Bytes::new(text.as_slice()), shelf),
            None => write(&mut session.saved_parts(), shelf),
        },
    }
}

/// Writes a text to the shelf; `Err` means that this failed.
fn write<T: Text, S: Shelf>(text: &mut T, shelf: &mut S) -> Result<(), ShelfFault>
    ensures ok { OnOk result (Puts (S.known shelf.old) (S.known shelf.new)
        (T.rest text.old ∷ []) 0) }
    ensures err { OnErr result (Puts (S.known shelf.old) (S.known shelf.new) [] 1) }
    ensures since { S.since shelf.old shelf.new }
{
    match shelf.put(text) {
        Ok(_) => Ok(()),
        Err(fault) => Err(fault),
    }
}
