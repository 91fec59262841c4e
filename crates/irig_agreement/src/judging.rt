//! Whether a result agrees with a recording at a moment.

ghost use Rattle.std.specs.Prelude.{◌≡◌, ◌≤◌, ◌<◌, ◌^◌, ◌↔◌, ℕ, Bool, List, MatchOption};
ghost use Rattle.std.specs.Prelude.{false, get_or, true};
ghost use Rattle.irig_law.specs.declared.frame.Frame.{Frame};
ghost use Rattle.irig_codes.specs.Format.{FormatView};
ghost use Rattle.irig_timed.specs.Knowns.{IsKnown};
ghost use Rattle.irig_agreement.specs.{Agreement.Agrees, Agreement.is_alike, Changes.IsChange};
ghost use Rattle.irig_agreement.specs.{Doubts.AreDoubts, Doubts.IsNextToDoubt, Doubts.is_next};
ghost use Rattle.irig_agreement.specs.Recorded.{IsKept};

use crate::fault::Change;
use crate::near::is_within;
use crate::recorded::Kept;
use irig_timed::{Known, Moment, off_of, time_at};
use irig_track::Lens;

/// The picoseconds of a microsecond.
const PICOS: u64 = 1_000_000;

/// Two times are both off by two microseconds at least.
const LEAST: u128 = 4;

/// Why they do not agree at a moment, in microseconds; `None` if they do. `before` and `after` show
/// their pulses, and `kept` and `known` are what is known of them.
pub fn change_at(
    before: &mut Lens<'_>,
    kept: &Kept,
    after: &mut Lens<'_>,
    known: &Known,
    moment: u64,
) -> Option<Change>
    requires moment { moment ≤ 2 ^ 40 }
    requires kept { IsKept before.old.track.pulses kept.now }
    requires known { IsKnown kept.now.format false kept.now.century after.old.track.pulses
        known.now }
    ensures change { MatchOption result (Agrees kept.now.format kept.now.century
        before.old.track.pulses after.old.track.pulses moment)
        (λ what. IsChange kept.now.format kept.now.century before.old.track.pulses
        after.old.track.pulses moment what) }
    ensures before { before.new.track ≡ before.old.track }
    ensures after { after.new.track ≡ after.old.track }
{
    let (format, century) = (kept.format, kept.century);
    let one = time_at(before, &kept.known, format, century, PICOS * moment);
    let other = time_at(after, known, format, century, PICOS * moment);
    match (one, other) {
        (Some(one), Some(other)) => {
            if is_alike(before, kept, &one, after, known, &other) {
                None
            } else {
                Some(Change::Other)
            }
        }
        (Some(_), None) => Some(Change::Lost),
        (None, Some(_)) => {
            if is_next_to_doubt(before, &kept.doubts, moment) {
                Some(Change::Doubted)
            } else {
                None
            }
        }
        (None, None) => None,
    }
}

/// Whether the last pulse that has risen by a moment or the next one is doubted.
fn is_next_to_doubt(pulses: &mut Lens<'_>, doubts: &[bool], moment: u64) -> bool
    ensures next { (f : FormatView) (century : ℕ) (frames : List Frame)
        → AreDoubts f century pulses.old.track.pulses frames doubts.now
        → (result ≡ true) ↔ IsNextToDoubt f century pulses.old.track.pulses frames moment }
    ensures pulses { pulses.new.track ≡ pulses.old.track }
{
    let risen = pulses.find(moment);
    is_next(doubts, risen)
}

/// The same, if that many have risen.
fn is_next(doubts: &[bool], risen: usize) -> bool
    ensures { result ≡ is_next doubts.now risen }
{
    is_doubted(doubts, risen) || (0 < risen && is_doubted(doubts, risen - 1))
}

fn is_doubted(doubts: &[bool], number: usize) -> bool
    ensures { result ≡ get_or doubts.now number false }
{
    number < doubts.len() && doubts[number]
}

/// Whether two times are apart by no more than both can be off.
fn is_alike(
    before: &mut Lens<'_>,
    kept: &Kept,
    one: &Moment,
    after: &mut Lens<'_>,
    known: &Known,
    other: &Moment,
) -> bool
    requires kept { IsKept before.old.track.pulses kept.now }
    requires known { IsKnown kept.now.format false kept.now.century after.old.track.pulses
        known.now }
    requires one { (one.now.from < 2 ^ 27) × (one.now.to < 2 ^ 27) × (one.now.bound ≤ 20000000000) }
    requires other { (other.now.from < 2 ^ 27) × (other.now.to < 2 ^ 27)
        × (other.now.bound ≤ 20000000000) }
    ensures alike { result ≡ is_alike kept.now.format kept.now.century before.old.track.pulses
        after.old.track.pulses one.now other.now }
    ensures before { before.new.track ≡ before.old.track }
    ensures after { after.new.track ≡ after.old.track }
{
    // Most moments need no more.
    if is_within(kept.century, LEAST, &one.time, &other.time) {
        return true;
    }
    let first = off_of(before, &kept.known, kept.format, one);
    let second = off_of(after, known, kept.format, other);
    let most = first as u128 + second as u128;
    is_within(kept.century, most, &one.time, &other.time)
}
