//! A state on its way along the steps of a saved journal, from which a session is opened.

ghost use Rattle.std.specs.Prelude.{◌≡◌, ◌≢◌, ◌≤◌, ◌∷◌, Some, None, OnOk, [], drop, length, take};
ghost use Rattle.irig_journal.specs.History.{step, stepped_back, turned_round};
ghost use Rattle.irig_journal.specs.Joining.{changes_of};
ghost use Rattle.irig_edit.specs.Changes.Delta.{gathered, turned};
ghost use Rattle.irig_edit.specs.{Changes.Single.FitsSingle, Session.Work.work_over};
ghost use Rattle.irig_edit.specs.{Session.Session.session_view, State.State.IsState};
ghost use Rattle.irig_edit.specs.{Opened.Taken.CanTakeAll, Opened.Walk.changed, Opened.Walk.walk};
ghost use Rattle.irig_saved.specs.declared.change.Change.TheVariants.{One};

use crate::changes::turn::Turn;
use crate::session::session::Session;
use crate::state::present::Present;
use irig_gap::Gap;
use irig_journal::Journal;
use irig_saved::Single;
use std::alloc::{AllocError, Global};
use std::marker::Model;

/// A state with its cursor and steps; no group is open. After an error it is of no more use.
#[derive(Drop)]
pub(crate) struct Walk {
    pub(crate) present: Present,
    pub(crate) cursor: usize,
    pub(crate) journal: Journal<Present>,
}

impl Model for Walk {
    ghost use Rattle.std.specs.Prelude.{◌≡◌, None};
    ghost use Rattle.irig_journal.specs.{History.History, Journal.history_of};
    ghost use Rattle.irig_saved.specs.declared.change.Change.{Change};
    ghost use Rattle.irig_edit.specs.Changes.Ready.{StepsAreReady};
    ghost use Rattle.irig_edit.specs.{Changes.Held.delta_of, State.State.State};

    ghost Value = { History State Change };

    ghost view = { λ w. history_of delta_of w.present.state w.cursor w.journal };

    ghost invariant = { λ w. (w.journal.floor ≡ None) × StepsAreReady w.present w.journal };
}

impl Walk {
    pub(crate) fn new(alloc: Global, present: Present, cursor: usize) -> Walk
        ensures { result ≡ walk present.state cursor [] [] }
    {
        Walk {
            present,
            cursor,
            journal: Journal::new(alloc),
        }
    }

    pub(crate) fn len(&self) -> usize
        ensures len { result ≡ length self.now.state.pulses }
        ensures state { IsState self.now.state }
    {
        self.present.track().len()
    }

    /// Makes a change, which has to be possible, as a new step; the cursor stays.
    pub(crate) fn change(&mut self, alloc: Global, single: Single) -> Result<(), AllocError>
        requires { FitsSingle self.old.state single }
        ensures { OnOk result (self.new ≡ changed self.old (One single)) }
    {
        let taken = Gap::new(alloc);
        let turn = Turn { single, taken };
        match self.journal.record(&mut self.present, turn, self.cursor) {
            Ok(()) => Ok(()),
            Err(_) => Err(AllocError),
        }
    }

    /// Makes one group of the newest `count` steps. The cursor moved in none of them, so it is that
    /// of the state before. Only a group of none takes memory.
    pub(crate) fn gather(&mut self, count: usize) -> Result<(), AllocError>
        requires { count ≤ length self.old.past }
        ensures { OnOk result (self.new ≡ walk self.old.state self.old.cursor
            (step (gathered (changes_of (take count self.old.past))) self.old.cursor
            ∷ drop count self.old.past) self.old.future) }
    {
        match self.journal.gather(&self.present, count, self.cursor) {
            Ok(()) => Ok(()),
            Err(_) => Err(AllocError),
        }
    }

    /// Moves the cursor to a pulse, from 1, or before the first: 0. It is not tested.
    pub(crate) fn go(&mut self, cursor: usize)
        ensures { self.new ≡ walk self.old.state cursor self.old.past self.old.future }
    {
        self.cursor = cursor;
    }

    /// Undoes the newest step, if there is one.
    pub(crate) fn undo(&mut self)
        ensures { self.old.past ≢ [] → stepped_back turned self.old ≡ Some self.new }
    {
        // An error says that there is no step: no other is possible, as no group is open.
        let _undone = self.journal.undo(&mut self.present, &mut self.cursor);
    }

    /// Swaps past and future.
    pub(crate) fn turn_round(&mut self)
        ensures { self.new ≡ turned_round self.old }
    {
        self.journal.turn_round();
    }

    /// The session of this walk; it has made no edit yet, so `last_looks` is 0.
    pub(crate) fn into_session(self, alloc: Global) -> Session
        requires cursor { self.cursor ≤ length self.state.pulses }
        requires steps { CanTakeAll self.state self.past × CanTakeAll self.state self.future }
        ensures { result ≡ session_view (work_over None self) result.looks 0 }
    {
        let _len = self.len();
        Session {
            alloc,
            present: self.present,
            cursor: self.cursor,
            journal: self.journal,
            last_looks: 0,
        }
    }
}
