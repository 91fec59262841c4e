//! The text of a saved journal determines the journal.

ghost use Rattle.std.specs.Prelude.{◌≡◌};
ghost use Rattle.irig_saved.specs.{SavedText.journal_text, Ranges.IsSaved};

use crate::saved::Saved;

/// Does nothing. Two journals that can be saved (`IsSaved`) are equal if they have one text.
pub fn readable(saved: &Saved, other: &Saved)
    ensures { IsSaved saved.now
        → IsSaved other.now
        → journal_text saved.now ≡ journal_text other.now
        → saved.now ≡ other.now }
{
    // Read for what their type promises of both journals; the comparison is not used.
    let _ = saved.cursor == other.cursor;
}
