//! The moments at which a result does not agree with a recording.

ghost use Rattle.std.specs.Prelude.{◌≡◌, ◌≤◌, ◌^◌, ◌-◌, ◌↔◌, [], ℕ, false, IfOk, OnOk, Some, slice_get};
ghost use Rattle.irig_timed.specs.Knowns.{IsKnown};
ghost use Rattle.irig_agreement.specs.Agreed.{HasAgreed};
ghost use Rattle.irig_agreement.specs.Agreement.{Agree, Agrees, IsAsked, IsAtRise};
ghost use Rattle.irig_agreement.specs.Changes.{AreFaults, IsFault};
ghost use Rattle.irig_agreement.specs.Recorded.{IsKept};
ghost use Rattle.irig_agreement.specs.declared.fault.Fault.{Fault as SomeFault};

use crate::agreed::{Agreed, NOWHERE, agreed_from, is_agreed};
use crate::fault::Fault;
use crate::judging::change_at;
use crate::recorded::{Kept, Recorded, known_of};
use irig_codes::Format;
use irig_timed::Known;
use irig_track::{Lens, Track};
use std::alloc::{AllocError, Global};

/// The moments at which a track does not agree with what was recorded: none, if and only if they
/// agree. They come in two rows, each in rising order: where pulses of the recording rise, and
/// where those of the track do; in a row two are further apart than a frame.
pub fn faults_in(
    alloc: Global,
    recorded: &Recorded,
    track: &Track,
) -> Result<Vec<Fault>, AllocError>
    ensures agree { IfOk result (λ list. (list.items ≡ []) ↔ Agree recorded.now.format
        recorded.now.century recorded.now.pulses track.now.pulses) }
    ensures faults { IfOk result (λ list. (i : ℕ) (x : SomeFault)
        → slice_get list.items i ≡ Some x → IsFault recorded.now.format recorded.now.century
        recorded.now.pulses track.now.pulses x) }
{
    let list = faults_by(alloc, &recorded.track, &recorded.kept, track)?;
    Ok(list)
}

/// The same by what is kept of the recording.
fn faults_by(
    alloc: Global,
    recorded: &Track,
    kept: &Kept,
    track: &Track,
) -> Result<Vec<Fault>, AllocError>
    requires kept { IsKept recorded.now.pulses kept.now }
    ensures faults { IfOk result (λ list. AreFaults kept.now.format kept.now.century
        recorded.now.pulses track.now.pulses list.items) }
    ensures none { IfOk result (λ list. list.items ≡ [] → Agree kept.now.format kept.now.century
        recorded.now.pulses track.now.pulses) }
{
    let known = known_of(alloc, track, kept.format, kept.century)?;
    let mut before = recorded.lens();
    let mut after = track.lens();
    let mut list = Vec::new(alloc);
    add_faults(&mut list, &mut before, kept, &mut after, &known, recorded)?;
    add_faults(&mut list, &mut before, kept, &mut after, &known, track)?;
    Ok(list)
}

/// Adds those at the rises of a track.
fn add_faults(
    list: &mut Vec<Fault>,
    before: &mut Lens<'_>,
    kept: &Kept,
    after: &mut Lens<'_>,
    known: &Known,
    rises: &Track,
) -> Result<(), AllocError>
    requires kept { IsKept before.old.track.pulses kept.now }
    requires known { IsKnown kept.now.format false kept.now.century after.old.track.pulses
        known.now }
    requires faults { AreFaults kept.now.format kept.now.century before.old.track.pulses
        after.old.track.pulses list.old.items }
    requires asked { (m : ℕ) → IsAtRise rises.now.pulses m
        → IsAsked before.old.track.pulses after.old.track.pulses m }
    ensures faults { OnOk result (AreFaults kept.now.format kept.now.century
        before.old.track.pulses after.old.track.pulses list.new.items) }
    ensures none { OnOk result (list.new.items ≡ [] → (list.old.items ≡ [])
        × ((m : ℕ) → IsAtRise rises.now.pulses m → Agrees kept.now.format kept.now.century
        before.old.track.pulses after.old.track.pulses m)) }
    ensures before { before.new.track ≡ before.old.track }
    ensures after { after.new.track ≡ after.old.track }
{
    let mut agreed = NOWHERE;
    for number in 0..rises.len() {
        let rise = rises.pulse(number).rise;
        add_fault(
            list,
            before,
            kept,
            after,
            known,
            &agreed,
            rise.saturating_sub(1),
        )?;
        agreed = agreed_at(before, kept, after, known, agreed, rise);
        add_fault(list, before, kept, after, known, &agreed, rise)?;
    }
    Ok(())
}

/// Where both agree, if that has a moment; else where they do from there on.
fn agreed_at(
    before: &mut Lens<'_>,
    kept: &Kept,
    after: &mut Lens<'_>,
    known: &Known,
    agreed: Agreed,
    moment: u64,
) -> Agreed
    requires kept { IsKept before.old.track.pulses kept.now }
    requires known { IsKnown kept.now.format false kept.now.century after.old.track.pulses
        known.now }
    requires agreed { HasAgreed kept.now.format kept.now.century before.old.track.pulses
        after.old.track.pulses agreed }
    ensures agreed { HasAgreed kept.now.format kept.now.century before.old.track.pulses
        after.old.track.pulses result }
    ensures before { before.new.track ≡ before.old.track }
    ensures after { after.new.track ≡ after.old.track }
{
    if is_agreed(&agreed, moment) {
        return agreed;
    }
    agreed_from(before, kept, after, known, moment)
}

/// Adds the one at a moment, unless there is one in the frame period before it.
fn add_fault(
    list: &mut Vec<Fault>,
    before: &mut Lens<'_>,
    kept: &Kept,
    after: &mut Lens<'_>,
    known: &Known,
    agreed: &Agreed,
    moment: u64,
) -> Result<(), AllocError>
    requires moment { moment ≤ 2 ^ 40 }
    requires kept { IsKept before.old.track.pulses kept.now }
    requires known { IsKnown kept.now.format false kept.now.century after.old.track.pulses
        known.now }
    requires faults { AreFaults kept.now.format kept.now.century before.old.track.pulses
        after.old.track.pulses list.old.items }
    requires agreed { HasAgreed kept.now.format kept.now.century before.old.track.pulses
        after.old.track.pulses agreed.now }
    requires asked { IsAsked before.old.track.pulses after.old.track.pulses moment }
    ensures faults { OnOk result (AreFaults kept.now.format kept.now.century
        before.old.track.pulses after.old.track.pulses list.new.items) }
    ensures none { OnOk result (list.new.items ≡ [] → (list.old.items ≡ [])
        × Agrees kept.now.format kept.now.century before.old.track.pulses
        after.old.track.pulses moment) }
    ensures before { before.new.track ≡ before.old.track }
    ensures after { after.new.track ≡ after.old.track }
{
    if is_agreed(agreed, moment) {
        return Ok(());
    }
    if is_told(list, kept.format, moment) {
        return Ok(());
    }
    match change_at(before, kept, after, known, moment) {
        Some(what) => {
            list.push(Fault { moment, what })?;
            Ok(())
        }
        None => Ok(()),
    }
}

/// Whether the last fault is in the frame period before a moment.
fn is_told(list: &[Fault], format: Format, moment: u64) -> bool
    ensures { list.now ≡ [] → result ≡ false }
{
    if list.is_empty() {
        return false;
    }
    let last = list[list.len() - 1].moment;
    last <= moment && moment - last < format.frame_period()
}
