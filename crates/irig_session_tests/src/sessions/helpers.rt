//! Tracks, and calls of a session as values, for tests.

use irig_codes::{Element, Format, Kind};
use irig_edit::{Refusal, Session};
use irig_moment::Moment;
use irig_recording::Recording;
use std::alloc::Global;

/// `Delete`, `Join` and `Shift` have a first and a last pulse, `Shift` also how far; `Insert`,
/// `Split` and `Invert` from when to when; `Mark` 0 for `a`, and `None` to clear it; `Regen` a time
/// and how many frames.
#[derive(Clone, Copy)]
pub enum Call {
    Insert(u64, u64),
    Delete(usize, usize),
    Split(usize, u64, u64),
    Join(usize, usize),
    Shift(usize, usize, i64),
    Invert(u64, u64),
    Force(usize, Element),
    Regen(u64, u64),
    Format(Kind, u8),
    Mark(u8, Option<u64>),
    Undo,
    Redo,
    Go(usize),
    Begin,
    End,
    Abort,
}

/// A session in format G 2. `None` also if the edges are not those of such a track.
pub fn open(alloc: Global, length: u64, edges: &[u64]) -> Option<Session> {
    let format = Format::new(Kind::G, 2).ok()?;
    let recording = Recording::new(alloc, length, edges).ok()??;
    Session::open(alloc, recording, format).ok()
}

pub fn two_pulses(alloc: Global) -> Option<Session> {
    open(alloc, 1_000, &[100, 120, 200, 280])
}

/// The first frame carries the begin of 2024. The text can be read, so `BadTime` never comes.
fn regen(session: &mut Session, start: u64, frames: u64) -> Result<(), Refusal> {
    match Moment::parse(b"2024-001T00:00:00") {
        Some(moment) => session.regen(start, frames, moment, 0),
        None => Err(Refusal::BadTime),
    }
}

fn set_format(session: &mut Session, kind: Kind, expression: u8) -> Result<(), Refusal> {
    match Format::new(kind, expression) {
        Ok(format) => session.format(format),
        Err(_) => Err(Refusal::BadExpression),
    }
}

/// What refuses a call; `None` if it is accepted.
pub fn obey(session: &mut Session, call: Call) -> Option<Refusal> {
    let answer = match call {
        Call::Insert(a, b) => session.insert(a, b),
        Call::Delete(i, j) => session.delete(i, j),
        Call::Split(i, a, b) => session.split(i, a, b),
        Call::Join(i, j) => session.join(i, j),
        Call::Shift(i, j, by) => session.shift(i, j, by),
        Call::Invert(a, b) => session.invert(a, b),
        Call::Force(i, element) => session.force(i, element),
        Call::Regen(start, frames) => regen(session, start, frames),
        Call::Format(kind, expression) => set_format(session, kind, expression),
        // The remainder keeps the letter from `a` to `z`, as the contract needs.
        Call::Mark(letter, time) => session.mark(b'a' + letter % 26, time),
        Call::Undo => session.undo(),
        Call::Redo => session.redo(),
        Call::Go(i) => session.go(i),
        Call::Begin => session.begin(),
        Call::End => session.end(),
        Call::Abort => session.abort(),
    };
    answer.err()
}

pub fn is_saved(session: &Session, dump: &[u8]) -> bool {
    match session.saved() {
        Ok(text) => text.as_slice() == dump,
        Err(_) => false,
    }
}
