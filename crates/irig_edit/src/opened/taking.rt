//! The steps of a saved journal, tried one after another on the state that was read.

ghost use Rattle.std.specs.Prelude.{◌≡◌, ◌+◌, ◌≤◌, ◌<◌, ◌^◌, ◌++◌, List, [], Err, IfErr, IfOk};
ghost use Rattle.std.specs.Prelude.{MatchBool, MatchResult, None, OnOk, length, reverse};
ghost use Rattle.irig_journal.specs.{History.History, History.Step, Turns.FitAll};
ghost use Rattle.irig_saved.specs.SavedText.{mark_lines, saved_lines, steps_lines};
ghost use Rattle.irig_saved.specs.declared.change.Change.{Change};
ghost use Rattle.irig_saved.specs.declared.change.Change.TheVariants.{One, Group};
ghost use Rattle.irig_vcd.specs.declared.fault.VcdFault.TheVariants.{OutOfMemory};
ghost use Rattle.irig_edit.specs.Changes.Single.{FitsSingle, turned_single};
ghost use Rattle.irig_edit.specs.Opened.Opened.{IsAccepted, IsLineAtFault, IsStepAtFault};
ghost use Rattle.irig_edit.specs.Opened.Opened.{head_fault};
ghost use Rattle.irig_edit.specs.State.State.{IsState, State};
ghost use Rattle.irig_edit.specs.Opened.Stops.{HasTaken, IsNotTaken};
ghost use Rattle.irig_edit.specs.Opened.Taken.{CanBegin, CanTake, CanTakeAll, FirstFits, step_of};
ghost use Rattle.irig_edit.specs.Opened.Taken.{steps_of};
ghost use Rattle.irig_edit.specs.Opened.Walk.{ahead_of, changed, gone_along, gone_on, walk};
ghost use Rattle.irig_edit.specs.{Changes.Delta.Fits, Changes.Delta.singles_of};
ghost use Rattle.irig_edit.specs.Opened.Openings.{IsBad};

use crate::opened::walk::Walk;
use crate::session::session::Session;
use irig_saved::{Change, Saved, SavedStep, Single, Steps};
use irig_vcd::VcdFault;
use std::alloc::{AllocError, Global};

/// Why steps were not all taken.
#[derive(Drop)]
pub(crate) enum NotTaken {
    /// The steps before this one have `before` lines, and with its own lines they are `behind`.
    At { before: usize, behind: usize },
    Memory,
}

impl Walk {
    /// Takes steps, the last of the list first, and undoes them again, so that they are ahead.
    fn follow(&mut self, alloc: Global, steps: Steps) -> Result<(), NotTaken>
        requires ahead { self.old.future ≡ [] }
        requires lines { length (steps_lines (reverse steps)) < 2 ^ 63 }
        ensures { MatchResult result
            (λ _. CanTakeAll self.old.state (steps_of (reverse steps))
            × (self.new ≡ ahead_of self.old (steps_of (reverse steps))))
            (λ why. IsNotTaken self.old.state (reverse steps) why) }
    {
        let _len = self.len();
        let count = steps.len();
        self.take_all(alloc, steps)?;
        self.go_back(count);
        Ok(())
    }

    /// Takes the steps of a journal and makes the session. `line` is the number, from 1, of the
    /// line that counts the steps back.
    pub(crate) fn open(
        mut self,
        alloc: Global,
        saved: Saved,
        line: usize,
    ) -> Result<Session, VcdFault>
        requires start { self ≡ walk self.state saved.cursor [] [] }
        requires head { head_fault self.state saved ≡ None }
        requires cursor { saved.cursor ≤ length self.state.pulses }
        requires line { line ≡ 4 + length (mark_lines 97 saved.marks) }
        requires short { length (saved_lines saved) ≤ 2 ^ 28 }
        ensures opened { IfOk result (IsAccepted self.state saved) }
        ensures fault { IfErr result (IsBad (IsLineAtFault self.state saved)) }
        ensures memory { result ≡ Err OutOfMemory
            → CanBegin self.state (steps_of (reverse saved.past ++ saved.future)) }
    {
        let Saved { past, future, .. } = saved;
        // Now it is the number of the line that counts the steps forward.
        let line = line + past.lines() + 1;
        match self.follow_both(alloc, past, future, line) {
            Ok(()) => Ok(self.into_session(alloc)),
            Err(fault) => Err(fault),
        }
    }

    /// Takes the steps back, undoes them and swaps past and future; then the steps forward are
    /// taken and undone. The line number `line`, from 1, is that of the count of the steps forward,
    /// and the newest step back is just above it.
    fn follow_both(
        &mut self,
        alloc: Global,
        past: Steps,
        mut future: Steps,
        line: usize,
    ) -> Result<(), VcdFault>
        requires start { (self.old.past ≡ []) × (self.old.future ≡ []) }
        requires line { line ≤ 2 ^ 29 }
        requires lines { (length (steps_lines past) < 2 ^ 63)
            × (length (steps_lines future) < 2 ^ 63) }
        ensures taken { OnOk result (HasTaken self.old past future self.new) }
        ensures fault { IfErr result (IsBad (IsStepAtFault self.old.state past future line)) }
        ensures memory { result ≡ Err OutOfMemory
            → CanBegin self.old.state (steps_of (reverse past ++ future)) }
    {
        match self.follow(alloc, past) {
            Ok(()) => {}
            Err(NotTaken::At { behind, .. }) => {
                return Err(VcdFault::BadJournal(line.saturating_sub(behind)));
            }
            Err(NotTaken::Memory) => return Err(VcdFault::OutOfMemory),
        }
        self.turn_round();
        // `follow` takes the last of a list first, and the first of this list is the next redo.
        future.reverse();
        match self.follow(alloc, future) {
            Ok(()) => Ok(()),
            Err(NotTaken::At { before, .. }) => Err(VcdFault::BadJournal(line + 1 + before)),
            Err(NotTaken::Memory) => Err(VcdFault::OutOfMemory),
        }
    }

    /// Takes steps, the last of the list first; they are in the past then.
    fn take_all(&mut self, alloc: Global, mut steps: Steps) -> Result<(), NotTaken>
        requires ahead { self.old.future ≡ [] }
        requires lines { length (steps_lines (reverse steps)) < 2 ^ 63 }
        ensures { MatchResult result
            (λ _. CanTakeAll self.old.state (steps_of (reverse steps))
            × (self.new ≡ gone_along self.old (steps_of (reverse steps))))
            (λ why. IsNotTaken self.old.state (reverse steps) why) }
    {
        let mut before = 0;
        while let Some(step) = steps.pop() {
            let behind = before + step.lines();
            match self.take(alloc, step) {
                Ok(true) => before = behind,
                Ok(false) => return Err(NotTaken::At { before, behind }),
                Err(_) => return Err(NotTaken::Memory),
            }
        }
        Ok(())
    }

    /// Undoes the newest `count` steps: in the contract `ds`, and `h` is the walk before them.
    fn go_back(&mut self, count: usize)
        ensures { (h : History State Change) → (ds : List (Step Change))
            → IsState h.state → CanTakeAll h.state ds → self.old ≡ gone_along h ds
            → h.future ≡ [] → length ds ≡ count
            → self.new ≡ ahead_of h ds }
    {
        for _ in 0..count {
            self.undo();
        }
    }

    /// Takes a step; `false` if its changes are not possible or its cursor is above the number of
    /// pulses. Then, as after an error, nothing is said of the state.
    fn take(&mut self, alloc: Global, step: SavedStep) -> Result<bool, AllocError>
        requires ahead { self.old.future ≡ [] }
        ensures { MatchResult result
            (λ taken. MatchBool taken
            (CanTake self.old.state (step_of step) × (self.new ≡ gone_on self.old (step_of step)))
            (CanTake self.old.state (step_of step) → ⊥))
            (λ _. FirstFits self.old.state (singles_of step.change)) }
    {
        let SavedStep { cursor, change } = step;
        if !self.make(alloc, change)? {
            return Ok(false);
        }
        if cursor > self.len() as u64 {
            return Ok(false);
        }
        self.go(cursor as usize);
        Ok(true)
    }

    /// Makes the change of a step, alone or a group; the cursor stays.
    fn make(&mut self, alloc: Global, change: Change) -> Result<bool, AllocError>
        requires ahead { self.old.future ≡ [] }
        ensures { MatchResult result
            (λ made. MatchBool made
            (Fits self.old.state change × (self.new ≡ changed self.old change))
            (Fits self.old.state change → ⊥))
            (λ _. FirstFits self.old.state (singles_of change)) }
    {
        match change {
            Change::One(single) => self.make_one(alloc, single),
            Change::Group(singles) => self.make_all(alloc, singles.into_vec()),
        }
    }

    fn make_one(&mut self, alloc: Global, single: Single) -> Result<bool, AllocError>
        ensures { MatchResult result
            (λ made. MatchBool made
            (FitsSingle self.old.state single × (self.new ≡ changed self.old (One single)))
            (FitsSingle self.old.state single → ⊥))
            (λ _. FitsSingle self.old.state single) }
    {
        if !self.present.allows(&single) {
            return Ok(false);
        }
        self.change(alloc, single)?;
        Ok(true)
    }

    /// Makes single changes in their order, and one group of them.
    fn make_all(&mut self, alloc: Global, mut singles: Vec<Single>) -> Result<bool, AllocError>
        requires ahead { self.old.future ≡ [] }
        ensures { MatchResult result
            (λ made. MatchBool made
            (FitAll FitsSingle turned_single self.old.state singles.items
            × (self.new ≡ changed self.old (Group singles.items)))
            (FitAll FitsSingle turned_single self.old.state singles.items → ⊥))
            (λ _. FirstFits self.old.state singles.items) }
    {
        let count = singles.len();
        singles.reverse();
        while let Some(single) = singles.pop() {
            match self.make_one(alloc, single) {
                Ok(true) => {}
                Ok(false) => return Ok(false),
                Err(fault) => return Err(fault),
            }
        }
        match self.gather(count) {
            Ok(()) => Ok(true),
            Err(fault) => Err(fault),
        }
    }
}
