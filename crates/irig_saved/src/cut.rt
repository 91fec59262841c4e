//! Lines and words, cut from a text.

ghost use Rattle.std.specs.Prelude.{◌≡◌, ◌++◌, ◌∷◌, MatchOption};
ghost use Rattle.irig_saved.specs.Reading.{Lacks, CutAt};

use bstr::ByteSlice;

/// The first line, without its newline, and what is after that.
pub fn line_of(text: &[u8]) -> Option<(&[u8], &[u8])>
    ensures { CutAt 10 text.now result }
{
    cut(text, b'\n')
}

/// The first word, and what is after the space that ends it.
pub fn word_of(text: &[u8]) -> Option<(&[u8], &[u8])>
    ensures { CutAt 32 text.now result }
{
    cut(text, b' ')
}

/// What is before the first place of `byte`, and what is after it.
fn cut(text: &[u8], byte: u8) -> Option<(&[u8], &[u8])>
    ensures { CutAt byte text.now result }
{
    let at = text.find_byte(byte)?;
    Some((&text[..at], &text[at + 1..]))
}
