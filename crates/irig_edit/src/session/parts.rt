//! What a session keeps, taken apart by patterns with all fields: this has only to compile.

use crate::changes::turn::Turn;
use crate::session::session::Session;
use crate::state::present::Present;
use irig_codes::{Format, Kind};
use irig_gap::Gap;
use irig_index::Index;
use irig_journal::{Journal, Step};
use irig_saved::{Letter, Letters, Marks, Pulses, Single};
use irig_track::{Pulse, Track};
use std::alloc::Global;

/// Shows that it keeps no former state.
pub fn take_apart(session: &Session) {
    let Session {
        alloc,
        present,
        cursor,
        journal,
        last_looks,
    } = session;
    let _allocator: &Global = alloc;
    let _cursor: &usize = cursor;
    let _last_looks: &u64 = last_looks;
    let journal: &Journal<Present> = journal;
    state_parts(present);
    if let Some(step) = journal.past_steps().next() {
        step_parts(&step);
    }
}

/// What a state keeps.
fn state_parts(present: &Present) {
    let Present {
        track,
        format,
        marks,
        index,
    } = present;
    let _track: &Track = track;
    let _format: &Format = format;
    let _marks: &Marks = marks;
    let _index: &Index = index;
}

/// What a step keeps; one change is enough, as only types matter.
fn step_parts(step: &Step<'_, Turn>) {
    let Step {
        changes,
        is_group,
        cursor,
    } = step;
    let _is_group: &bool = is_group;
    let _cursor: &usize = cursor;
    if let Some(turn) = changes.first() {
        turn_parts(turn);
    }
}

/// What a turn keeps.
fn turn_parts(turn: &Turn) {
    let Turn { single, taken } = turn;
    let _taken: &Gap<Pulse> = taken;
    single_parts(single);
}

/// What a single change keeps: none of these keeps a track.
fn single_parts(single: &Single) {
    match single {
        Single::Splice { at, count, put } => {
            let _at: &u64 = at;
            let _count: &u64 = count;
            let _put: &Pulses = put;
        }
        Single::Toggle { a: _, b: _ } => {}
        Single::Shift { i, j, by, marks } => {
            let _first: &u64 = i;
            let _last: &u64 = j;
            let _by: &i64 = by;
            let _marks: &Letters = marks;
        }
        Single::SetFormat { kind, expression } => {
            let _kind: &Kind = kind;
            let _expression: &u8 = expression;
        }
        Single::SetMark { letter, time } => {
            let _letter: &Letter = letter;
            let _time: &Option<u64> = time;
        }
    }
}
