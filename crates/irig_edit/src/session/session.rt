//! A track under edit.

ghost use Rattle.std.specs.Prelude.{◌≡◌, ◌≤◌, ◌<◌, ◌-◌, length, IfOk, OnOk, OnErr, IsErrOf, None};
ghost use Rattle.std.specs.Prelude.{Ok};
ghost use Rattle.irig_journal.specs.{Groups.recorded_over, Machine.kept};
ghost use Rattle.irig_edit.specs.State.State.{recording_of};
ghost use Rattle.irig_edit.specs.Session.Session.{LooksAfter, Steps, started, work_in};
ghost use Rattle.irig_edit.specs.Session.Work.{grouped_in, made};
ghost use Rattle.irig_edit.specs.Edits.Becoming.{Becomes, Plans, judgement_of};
ghost use Rattle.irig_edit.specs.Session.Calls.Call.{Make, Undo, Redo, Go};
ghost use Rattle.irig_edit.specs.Session.Calls.Edit.{SetFormat, SetMark};
ghost use Rattle.irig_edit.specs.{Session.Machine.NoMarks, Edits.Changes.change_by};
ghost use Rattle.irig_edit.specs.{Session.Calls.Edit, Changes.Delta.Fits, Changes.Delta.turned};
ghost use Rattle.irig_saved.specs.declared.change.Change.TheVariants.{One};
ghost use Rattle.irig_track.specs.Splices.{spliced, CanSplice};

use crate::changes::turn::Turn;
use crate::session::refusal::Refusal;
use crate::state::present::Present;
use irig_codes::Format;
use irig_gap::Gap;
use irig_journal::{Journal, JournalFault};
use irig_recording::Recording;
use irig_saved::{Letter, Pulses, Single};
use std::alloc::{AllocError, Global};
use std::marker::Model;

/// A track with its format, marks and cursor, and the steps that can be undone and redone.
#[derive(Drop)]
pub struct Session {
    pub(crate) alloc: Global,
    pub(crate) present: Present,
    pub(crate) cursor: usize,
    pub(crate) journal: Journal<Present>,
    pub(crate) last_looks: u64,
}

impl Model for Session {
    ghost use Rattle.irig_edit.specs.Session.Session.{SessionView, session_view};
    ghost use Rattle.irig_edit.specs.Changes.Ready.{StepsAreReady};
    ghost use Rattle.irig_edit.specs.{Session.Limits.IsWork, Session.Work.work_at};

    ghost Value = { SessionView };

    ghost view = { λ s.
        session_view (work_at s.present.state s.cursor s.journal) s.present.index.looks
        s.last_looks };

    ghost invariant = { λ s. IsWork (work_at s.present.state s.cursor s.journal)
        × StepsAreReady s.present s.journal };
}

impl Session {
    /// The session of a recording. The cursor is at the last pulse, and there is no mark and no
    /// step.
    pub fn open(alloc: Global, recording: Recording, format: Format) -> Result<Session, AllocError>
        ensures { IfOk result (λ s. (s ≡ started s.looks s.state)
            × (recording_of s.state ≡ recording) × (s.state.format ≡ format)
            × NoMarks s.state.marks) }
    {
        let present = Present::open(alloc, recording, format)?;
        let cursor = present.track().len();
        Ok(Session {
            alloc,
            present,
            cursor,
            journal: Journal::new(alloc),
            last_looks: 0,
        })
    }

    /// Sets the format in which frames are read, as a step; the cursor stays.
    pub fn format(&mut self, format: Format) -> Result<(), Refusal>
        ensures step { Steps (Make (SetFormat format)) self.old result self.new }
        ensures looks { LooksAfter (Make (SetFormat format)) self.old result self.new }
    {
        let cursor = self.cursor;
        let (kind, expression) = (format.kind(), format.expression());
        self.change(Single::SetFormat { kind, expression }, cursor)
    }

    /// Sets the mark of a letter, a byte from `a` to `z`, to a time in microseconds, or clears it,
    /// as a step; the cursor stays. E1.
    pub fn mark(&mut self, letter: u8, time: Option<u64>) -> Result<(), Refusal>
        requires { (97 ≤ letter) × (letter ≤ 122) }
        ensures step { Steps (Make (SetMark (letter - 97) time)) self.old result self.new }
        ensures looks { LooksAfter (Make (SetMark (letter - 97) time)) self.old result self.new }
    {
        if !self.present.may_mark(time) {
            return Err(Refusal::OutOfRange);
        }
        let letter = Letter::new(letter - b'a');
        let cursor = self.cursor;
        self.change(Single::SetMark { letter, time }, cursor)
    }

    /// Undoes the newest step. This takes no memory. E9, or E14 if it is older than the open group.
    pub fn undo(&mut self) -> Result<(), Refusal>
        ensures step { Steps Undo self.old result self.new }
        ensures looks { LooksAfter Undo self.old result self.new }
    {
        let before = self.present.looks();
        match self.journal.undo(&mut self.present, &mut self.cursor) {
            Ok(()) => {
                self.last_looks = self.present.looks_since(before);
                Ok(())
            }
            Err(JournalFault::NothingToUndo) => Err(Refusal::NothingToUndo),
            // The journal has only one other refusal of an undo.
            Err(_) => Err(Refusal::GroupFloor),
        }
    }

    /// Redoes the step that was undone last. This takes no memory. E10.
    pub fn redo(&mut self) -> Result<(), Refusal>
        ensures step { Steps Redo self.old result self.new }
        ensures looks { LooksAfter Redo self.old result self.new }
    {
        let before = self.present.looks();
        match self.journal.redo(&mut self.present, &mut self.cursor) {
            Ok(()) => {
                self.last_looks = self.present.looks_since(before);
                Ok(())
            }
            Err(_) => Err(Refusal::NothingToRedo),
        }
    }

    /// Moves the cursor to a pulse, from 1. This is no step. E2.
    pub fn go(&mut self, pulse: usize) -> Result<(), Refusal>
        ensures step { Steps (Go pulse) self.old result self.new }
        ensures looks { LooksAfter (Go pulse) self.old result self.new }
    {
        if pulse == 0 || pulse > self.present.track().len() {
            return Err(Refusal::NoPulse);
        }
        self.cursor = pulse;
        Ok(())
    }

    /// Replaces `count` pulses from pulse `first` on, from 1, as a step; the edit has tested that
    /// it can.
    pub(crate) fn splice(
        &mut self,
        first: usize,
        count: usize,
        put: Pulses,
        cursor: usize,
    ) -> Result<(), Refusal>
        requires first { 1 ≤ first }
        requires can { CanSplice self.old.state.micros (first - 1) count put
            self.old.state.pulses }
        requires cursor { cursor ≤ length (spliced (first - 1) count put self.old.state.pulses) }
        ensures step { (edit : Edit) → Plans edit self.old.state first count put cursor
            → Steps (Make edit) self.old result self.new }
        ensures looks { (edit : Edit) → Plans edit self.old.state first count put cursor
            → LooksAfter (Make edit) self.old result self.new }
    {
        let (at, count) = (first as u64, count as u64);
        self.change(Single::Splice { at, count, put }, cursor)
    }

    /// Makes a change, which the caller has found possible, as a step; steps that could be redone
    /// are dropped. It leaves the cursor at `cursor`, and an undo gives `place` back.
    pub(crate) fn change(&mut self, single: Single, cursor: usize) -> Result<(), Refusal>
        requires fits { Fits self.old.state (One single) }
        requires cursor { cursor ≤ length (turned self.old.state (One single)).0.pulses }
        ensures step { (edit : Edit) → judgement_of edit self.old.state ≡ None
            → Becomes edit self.old.state (turned self.old.state (One single)).0 cursor
            → One single ≡ change_by edit self.old.state
            → Steps (Make edit) self.old result self.new }
        ensures looks { (edit : Edit) → One single ≡ change_by edit self.old.state
            → LooksAfter (Make edit) self.old result self.new }
        ensures ok { OnOk result ((work_in self.new ≡ made (One single) cursor (work_in self.old))
            × (grouped_in (work_in self.new) ≡ recorded_over (grouped_in (work_in self.old))
            (kept (turned self.old.state (One single)).0 cursor))) }
        ensures err { OnErr result ((self.new ≡ self.old) × IsErrOf result Refusal.OutOfMemory) }
    {
        let before = self.present.looks();
        let place = self.cursor;
        let taken = Gap::new(self.alloc);
        let turn = Turn { single, taken };
        match self.journal.record(&mut self.present, turn, place) {
            Ok(()) => {
                self.cursor = cursor;
                self.last_looks = self.present.looks_since(before);
                Ok(())
            }
            Err(_) => Err(Refusal::OutOfMemory),
        }
    }
}
