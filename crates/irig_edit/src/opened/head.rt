//! What a saved journal says before its steps: format, cursor and marks.

ghost use Rattle.std.specs.Prelude.{◌≡◌, ◌+◌, ◌≤◌, Err, IfOk, IfErr, MatchResult, None, Some, []};
ghost use Rattle.std.specs.Prelude.{length};
ghost use Rattle.irig_saved.specs.SavedText.{mark_lines};
ghost use Rattle.irig_vcd.specs.declared.fault.VcdFault.TheVariants.{OutOfMemory};
ghost use Rattle.irig_edit.specs.Changes.Single.{pulses_of};
ghost use Rattle.irig_edit.specs.Opened.Opened.{head_fault, mark_beyond, state_of};
ghost use Rattle.irig_edit.specs.{Opened.Openings.IsBad, State.State.state, Opened.Walk.walk};

use crate::opened::walk::Walk;
use crate::state::present::Present;
use irig_codes::Format;
use irig_recording::Recording;
use irig_saved::{Marks, Saved};
use irig_vcd::VcdFault;
use std::alloc::Global;

/// The state that the journal's head gives, without steps, and the number, from 1, of the line
/// after the marks. `BadJournal` is judged before memory is taken.
pub(crate) fn start(
    alloc: Global,
    recording: Recording,
    saved: &Saved,
) -> Result<(Walk, usize), VcdFault>
    ensures start { IfOk result (λ start.
        (start.0 ≡ walk (state_of recording saved.now) saved.now.cursor [] [])
        × ((head_fault (state_of recording saved.now) saved.now ≡ None)
        × ((start.1 ≡ 4 + length (mark_lines 97 saved.now.marks))
        × (saved.now.cursor ≤ length (state_of recording saved.now).pulses)))) }
    ensures fault { IfErr result
        (IsBad (λ line. head_fault (state_of recording saved.now) saved.now ≡ Some line)) }
    ensures memory { result ≡ Err OutOfMemory
        → head_fault (state_of recording saved.now) saved.now ≡ None }
{
    let (format, line) = match head_of(&recording, saved) {
        Ok(head) => head,
        Err(line) => return Err(VcdFault::BadJournal(line)),
    };
    match Present::open(alloc, recording, format) {
        Ok(mut present) => {
            present.put_marks(&saved.marks);
            Ok((Walk::new(alloc, present, saved.cursor as usize), line))
        }
        Err(_) => Err(VcdFault::OutOfMemory),
    }
}

/// The format of a journal, and the number of the line after its marks; the error is the first line
/// at fault, from 1: 2 is the format, 3 the cursor, 4 and above are marks.
fn head_of(recording: &Recording, saved: &Saved) -> Result<(Format, usize), usize>
    ensures { MatchResult result
        (λ head. (head_fault (state_of recording.now saved.now) saved.now ≡ None)
        × ((head.0 ≡ record { kind = saved.now.kind; expression = saved.now.expression })
        × ((head.1 ≡ 4 + length (mark_lines 97 saved.now.marks))
        × (saved.now.cursor ≤ length (state_of recording.now saved.now).pulses))))
        (λ line. head_fault (state_of recording.now saved.now) saved.now ≡ Some line) }
{
    let Ok(format) = Format::new(saved.kind, saved.expression) else {
        return Err(2);
    };
    if saved.cursor > pulse_count(recording) as u64 {
        return Err(3);
    }
    match line_behind(&saved.marks, recording.length()) {
        Ok(line) => Ok((format, line)),
        Err(line) => Err(line),
    }
}

fn pulse_count(recording: &Recording) -> usize
    ensures { result ≡ length (pulses_of recording.now.edges) }
{
    recording.pulses().len()
}

impl Present {
    /// Replaces all marks by these, which are within the length.
    fn put_marks(&mut self, marks: &Marks)
        requires { mark_beyond self.old.state.micros 4 marks.now ≡ None }
        ensures { self.new.state
            ≡ state self.old.state.micros self.old.state.pulses self.old.state.format marks.now }
    {
        self.marks = *marks;
    }
}

/// The number of the line after the marks, which begin at line 4; a mark that is not set has none.
fn line_behind(marks: &Marks, micros: u64) -> Result<usize, usize>
    ensures { MatchResult result
        (λ line. (mark_beyond micros 4 marks.now ≡ None)
        × (line ≡ 4 + length (mark_lines 97 marks.now)))
        (λ line. mark_beyond micros 4 marks.now ≡ Some line) }
{
    let mut line = 4;
    for letter in 0..26 {
        if let Some(time) = marks[letter] {
            if time > micros {
                return Err(line);
            }
            line += 1;
        }
    }
    Ok(line)
}
