//! Fills a stretch of time with frames that are generated.

ghost use Rattle.std.specs.Prelude.{◌≡◌, ◌+◌, ◌-◌, ◌*◌, ◌^◌, ◌<◌, ◌≤◌, None, Some, IfOk, OnOk};
ghost use Rattle.std.specs.Prelude.{MatchResult, IsTrue, length, if◌then◌else◌};
ghost use Rattle.irig_codes.specs.Format.{control_count_of};
ghost use Rattle.irig_moment.specs.Generated.{starts_in};
ghost use Rattle.irig_edit.specs.Edits.Becoming.{Plans, judgement_of};
ghost use Rattle.irig_edit.specs.Session.Calls.Edit.{Regen};
ghost use Rattle.irig_edit.specs.Edits.Conditions.{are_frames, is_met};
ghost use Rattle.irig_edit.specs.Session.Session.{LooksAfter, Steps};
ghost use Rattle.irig_edit.specs.Edits.Regenerated.{frames_end, frames_pulses, rising_before};
ghost use Rattle.irig_edit.specs.{Session.Calls.Call.Make, State.State.IsState};

use crate::edits::frames::{pulses_of, span};
use crate::session::refusal::Refusal;
use crate::session::session::Session;
use crate::state::present::Present;
use irig_codes::control_count;
use irig_moment::Moment;

/// Pulses that rise in a stretch of time; `first` is the number that a new pulse there gets.
#[derive(Clone, Copy)]
struct Stretch {
    first: usize,
    count: usize,
}

/// The time at which the frames end. `None` unless there are 1 to 10,000 (this project's own
/// limit), which end within the length.
fn end_of(present: &Present, start: u64, frames: u64) -> Option<u64>
    ensures { result ≡ (if are_frames start frames present.now.state
        then Some (frames_end present.now.state.format start frames) else None) }
{
    if frames == 0 || frames > 10_000 {
        return None;
    }
    let length = present.track().length();
    let span = span(present.format(), frames);
    if start > length || span > length - start {
        return None;
    }
    Some(start + span)
}

/// How many pulses rise before a time, in microseconds.
fn rising_before(present: &Present, time: u64) -> usize
    ensures count { result ≡ length (rising_before time present.now.state.pulses) }
    ensures within { result ≤ length present.now.state.pulses }
    ensures state { IsState present.now.state }
{
    let _track = present.track();
    if time == 0 { 0 } else { present.find(time - 1) }
}

/// Whether a pulse that rises before `time` falls at it or later: of those `risen` pulses only the
/// last one can.
fn is_met(present: &Present, risen: usize, time: u64) -> bool
    requires count { risen ≡ length (rising_before time present.now.state.pulses) }
    requires within { risen ≤ length present.now.state.pulses }
    ensures { result ≡ is_met time present.now.state }
{
    let _track = present.track();
    risen > 0 && present.pulse(risen).fall >= time
}

/// The pulses that the frames replace: those that rise from the start up to the end of the frames,
/// which is not included. A pulse at the end needs no test: the last new pulse falls before it.
fn plan(
    present: &Present,
    start: u64,
    frames: u64,
    moment: Moment,
    control: u64,
) -> Result<Stretch, Refusal>
    ensures plan { MatchResult result
        (λ p. Plans (Regen start frames moment control) present.now.state p.first p.count
        (frames_pulses present.now.state.format start frames moment control)
        (p.first - 1 + 100 * frames))
        (λ e. judgement_of (Regen start frames moment control) present.now.state ≡ Some e) }
    ensures frames { OnOk result ((frames ≤ 10000)
        × (frames_end present.now.state.format start frames ≤ 2 ^ 40)
        × IsTrue (starts_in present.now.state.format moment)
        × (control < 2 ^ control_count_of present.now.state.format)) }
    ensures few { IfOk result (λ p. p.first ≤ 2 ^ 22 + 1) }
{
    let Some(end) = end_of(present, start, frames) else {
        return Err(Refusal::OutOfRange);
    };
    let at = rising_before(present, start);
    if is_met(present, at, start) {
        return Err(Refusal::Touching);
    }
    let count = rising_before(present, end) - at;
    if 100 * frames as usize > present.track().room() + count {
        return Err(Refusal::TooMany);
    }
    let format = present.format();
    if !moment.starts(format) {
        return Err(Refusal::BadTime);
    }
    if control >> control_count(format) > 0 {
        return Err(Refusal::BadControl);
    }
    Ok(Stretch {
        first: at + 1,
        count,
    })
}

impl Session {
    /// Fills the time from `start` on with generated frames; pulses that rise in that time go. The
    /// first frame carries the moment; the lowest bit of `control` is the first control element.
    /// The cursor goes to the last new pulse. E1, E3, E5, E7, E8.
    pub fn regen(
        &mut self,
        start: u64,
        frames: u64,
        moment: Moment,
        control: u64,
    ) -> Result<(), Refusal>
        ensures step { Steps (Make (Regen start frames moment control)) self.old result self.new }
        ensures looks { LooksAfter (Make (Regen start frames moment control)) self.old result
            self.new }
    {
        let stretch = plan(&self.present, start, frames, moment, control)?;
        let format = self.present.format();
        let put = pulses_of(self.alloc, format, start, frames, moment, control)?;
        let cursor = stretch.first - 1 + 100 * frames as usize;
        self.splice(stretch.first, stretch.count, put, cursor)
    }
}
