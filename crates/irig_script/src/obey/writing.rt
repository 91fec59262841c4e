//! The lines `write` and `save`.

ghost use Rattle.std.specs.Prelude.{◌∷◌, []};
ghost use Rattle.irig_edit.specs.{Saved.SavedSession.saved_text, Session.Session.work_in};
ghost use Rattle.irig_script.specs.Obey.Replies.{Writes, dump_text, texts_put};
ghost use Rattle.irig_script.specs.Obey.Desk.{failures_of};
ghost use Rattle.irig_text.specs.Shelved.{Puts};

use crate::print::reply::Reply;
use irig_edit::Session;
use irig_text::{Shelf, Text};

/// Writes the dump of the track. It is not inlined, else the room of a text in parts would be on
/// the stack of `write_or_obey` for each line of a script.
#[inline(never)]
pub fn write_dump<S: Shelf>(session: &Session, shelf: &mut S) -> Reply
    ensures answer { Writes (dump_text session.now) result }
    ensures put { Puts (S.known shelf.old) (S.known shelf.new)
        (texts_put (dump_text session.now ∷ []) result) (failures_of result) }
    ensures since { S.since shelf.old shelf.new }
{
    write(&mut session.text_parts(), shelf)
}

/// Writes the dump with the journal; not inlined either.
#[inline(never)]
pub fn write_saved<S: Shelf>(session: &Session, shelf: &mut S) -> Reply
    ensures answer { Writes (saved_text (work_in session.now)) result }
    ensures put { Puts (S.known shelf.old) (S.known shelf.new)
        (texts_put (saved_text (work_in session.now) ∷ []) result) (failures_of result) }
    ensures since { S.since shelf.old shelf.new }
{
    write(&mut session.saved_parts(), shelf)
}

/// Writes a text, in parts, so this takes no memory.
fn write<T: Text, S: Shelf>(text: &mut T, shelf: &mut S) -> Reply
    ensures answer { Writes (T.rest text.old) result }
    ensures put { Puts (S.known shelf.old) (S.known shelf.new)
        (texts_put (T.rest text.old ∷ []) result) (failures_of result) }
    ensures since { S.since shelf.old shelf.new }
{
    match shelf.put(text) {
        Ok(count) => Reply::Written(count),
        Err(_) => Reply::WriteFailed,
    }
}
