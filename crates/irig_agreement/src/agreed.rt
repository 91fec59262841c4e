//! Stretches in which recording and result have the same pulses with the same times, so that their
//! moments are not asked one by one.

ghost use Rattle.std.specs.Prelude.{◌≡◌, ◌≤◌, ◌<◌, ◌+◌, ◌-◌, ◌^◌, ◌↔◌, IsTrue, IfSome, false, length};
ghost use Rattle.irig_agreement.specs.Agreed.{AreSame, HasAgreed, HasPulse, RiseAlike};
ghost use Rattle.irig_agreement.specs.Recorded.{IsKept};
ghost use Rattle.irig_timed.specs.Knowns.{IsKnown};

use crate::recorded::Kept;
use irig_timed::{Known, Run};
use irig_track::Lens;

/// From `begin` to before `end`, in microseconds, both agree.
#[derive(Clone, Copy)]
pub struct Agreed {
    pub begin: u64,
    pub end: u64,
}

/// Nowhere.
pub const NOWHERE: Agreed = Agreed { begin: 0, end: 0 };

/// Whether a moment is there.
pub fn is_agreed(agreed: &Agreed, moment: u64) -> bool
    ensures { IsTrue result ↔ ((agreed.now.begin ≤ moment) × (moment < agreed.now.end)) }
{
    agreed.begin <= moment && moment < agreed.end
}

/// Where both agree from the last pulse on that has risen by a moment: as long as their pulses rise
/// at the same moments and are the same elements, of one run in each.
pub fn agreed_from(
    before: &mut Lens<'_>,
    kept: &Kept,
    after: &mut Lens<'_>,
    known: &Known,
    moment: u64,
) -> Agreed
    requires kept { IsKept before.old.track.pulses kept.now }
    requires known { IsKnown kept.now.format false kept.now.century after.old.track.pulses
        known.now }
    ensures agreed { HasAgreed kept.now.format kept.now.century before.old.track.pulses
        after.old.track.pulses result }
    ensures before { before.new.track ≡ before.old.track }
    ensures after { after.new.track ≡ after.old.track }
{
    let one = before.find(moment).saturating_sub(1);
    let other = after.find(moment).saturating_sub(1);
    match (run_of(&kept.known.runs, one), run_of(&known.runs, other)) {
        (Some(first), Some(second)) => {
            agreed_in(before, kept, after, known, &first, &second, one, other)
        }
        (Some(_), None) => NOWHERE,
        (None, Some(_)) => NOWHERE,
        (None, None) => NOWHERE,
    }
}

/// The same by the runs that have one pulse of each.
fn agreed_in(
    before: &mut Lens<'_>,
    kept: &Kept,
    after: &mut Lens<'_>,
    known: &Known,
    first: &Run,
    second: &Run,
    one: usize,
    other: usize,
) -> Agreed
    requires kept { IsKept before.old.track.pulses kept.now }
    requires known { IsKnown kept.now.format false kept.now.century after.old.track.pulses
        known.now }
    requires first { HasPulse kept.now.known.runs.items first.now one }
    requires second { HasPulse known.now.runs.items second.now other }
    ensures agreed { HasAgreed kept.now.format kept.now.century before.old.track.pulses
        after.old.track.pulses result }
    ensures before { before.new.track ≡ before.old.track }
    ensures after { after.new.track ≡ after.old.track }
{
    // For the proof alone: the calls promise how many pulses there can be.
    let _before = before.len();
    let _after = after.len();
    if !are_same(first, second, one, other) {
        return NOWHERE;
    }
    let most = (first.count - (one - first.number)).min(second.count - (other - second.number));
    let many = alike(before, after, one, other, most);
    if many == 0 {
        return NOWHERE;
    }
    Agreed {
        begin: before.pulse(one).rise,
        end: before.pulse(one + many - 1).rise,
    }
}

/// How many pulses, up to `most`, rise when as many of the other track do.
fn alike(
    before: &mut Lens<'_>,
    after: &mut Lens<'_>,
    one: usize,
    other: usize,
    most: usize,
) -> usize
    requires inside { (one + most ≤ length before.old.track.pulses)
        × (other + most ≤ length after.old.track.pulses) }
    requires low { (one + most ≤ 2 ^ 26) × (other + most ≤ 2 ^ 26) }
    ensures few { result ≤ most }
    ensures alike { RiseAlike before.old.track.pulses after.old.track.pulses one other result }
    ensures before { before.new.track ≡ before.old.track }
    ensures after { after.new.track ≡ after.old.track }
{
    for many in 0..most {
        if before.pulse(one + many).rise != after.pulse(other + many).rise {
            return many;
        }
    }
    most
}

/// Whether two pulses of two runs are the same element.
fn are_same(first: &Run, second: &Run, one: usize, other: usize) -> bool
    requires places { (first.now.number ≤ one) × (second.now.number ≤ other) }
    requires few { (one - first.now.number ≤ 100) × (other - second.now.number ≤ 100) }
    requires low { (first.now.element ≤ 100) × (second.now.element ≤ 100) }
    ensures { IsTrue result ↔ AreSame first.now second.now one other }
{
    first.frame == second.frame
        && first.element + (one - first.number) == second.element + (other - second.number)
}

/// The run that has a pulse.
fn run_of(runs: &[Run], number: usize) -> Option<Run>
    ensures { IfSome result (λ r. HasPulse runs.now r number) }
{
    let mut low = 0;
    let mut high = runs.len();
    while low < high {
        let middle = low + (high - low) / 2;
        if runs[middle].number <= number {
            low = middle + 1;
        } else {
            high = middle;
        }
    }
    if low == 0 {
        return None;
    }
    if_in(runs, low - 1, number)
}

/// The run at a place, if it has a pulse.
fn if_in(runs: &[Run], place: usize, number: usize) -> Option<Run>
    requires { place < length runs.now }
    ensures { IfSome result (λ r. HasPulse runs.now r number) }
{
    let run = runs[place];
    if run.number <= number && number - run.number < run.count {
        Some(run)
    } else {
        None
    }
}
