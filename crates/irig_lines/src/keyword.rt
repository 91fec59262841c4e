//! The words that lines begin with.

ghost use Rattle.std.specs.Prelude.{◌≡◌};
ghost use Rattle.irig_lines.specs.Keywords.{keyword_of};

use crate::table::found;

#[derive(Clone, Copy)]
pub enum Keyword {
    /// There is none.
    Missing,
    List,
    Delete,
    Shift,
    Join,
    Split,
    Force,
    Insert,
    Invert,
    Regen,
    Format,
    Mark,
    Unmark,
    Undo,
    Redo,
    Begin,
    End,
    Abort,
    Frames,
    Marks,
    Info,
    Write,
    Save,
    Quit,
    /// It is not a valid word.
    Unknown,
}

/// An empty text is the word that is missing.
static WORDS: [(&[u8], Keyword); 24] = [
    (b"", Keyword::Missing),
    (b"list", Keyword::List),
    (b"delete", Keyword::Delete),
    (b"shift", Keyword::Shift),
    (b"join", Keyword::Join),
    (b"split", Keyword::Split),
    (b"force", Keyword::Force),
    (b"insert", Keyword::Insert),
    (b"invert", Keyword::Invert),
    (b"regen", Keyword::Regen),
    (b"format", Keyword::Format),
    (b"mark", Keyword::Mark),
    (b"unmark", Keyword::Unmark),
    (b"undo", Keyword::Undo),
    (b"redo", Keyword::Redo),
    (b"begin", Keyword::Begin),
    (b"end", Keyword::End),
    (b"abort", Keyword::Abort),
    (b"frames", Keyword::Frames),
    (b"marks", Keyword::Marks),
    (b"info", Keyword::Info),
    (b"write", Keyword::Write),
    (b"save", Keyword::Save),
    (b"quit", Keyword::Quit),
];

pub fn keyword_of(text: &[u8]) -> Keyword
    ensures { result ≡ keyword_of text.now }
{
    found(text, &WORDS).unwrap_or(Keyword::Unknown)
}
