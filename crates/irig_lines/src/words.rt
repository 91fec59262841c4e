//! The words of a line, between white space.

ghost use Rattle.std.specs.Prelude.{◌≡◌, ℕ, List, [], ◌∷◌, IfOk, OnOk, OnErr};
ghost use Rattle.irig_lines.specs.Words.{words_of, word_and, before, onward};
ghost use Rattle.irig_lines.specs.declared.cutting.Until.TheVariants.{Blank, Text};

use crate::command::BadLine;
use crate::cutting::{Until, cut};

/// The first word of a text, and what is after it, from the white space on; both can be empty.
pub fn split_word(text: &[u8]) -> (&[u8], &[u8])
    ensures word { result.0.now ≡ before Blank (onward Text text.now) }
    ensures rest { result.1.now ≡ onward Blank (onward Text text.now) }
    ensures words { words_of text.now ≡ word_and result.0.now (words_of result.1.now) }
{
    let (_, text) = cut(text, Until::Text);
    cut(text, Until::Blank)
}

/// `Ok` if a text has no word.
pub fn no_word(text: &[u8]) -> Result<(), BadLine>
    ensures ok { OnOk result (words_of text.now ≡ []) }
    ensures err { OnErr result (words_of text.now ≡ [] → ⊥) }
{
    let (word, _) = split_word(text);
    if word.is_empty() {
        Ok(())
    } else {
        Err(BadLine)
    }
}

/// The one word of a text.
pub fn one_word(text: &[u8]) -> Result<&[u8], BadLine>
    ensures ok { IfOk result (λ w. words_of text.now ≡ w.now ∷ []) }
    ensures err { OnErr result ((x : List ℕ) → words_of text.now ≡ x ∷ [] → ⊥) }
{
    let (word, rest) = split_word(text);
    if word.is_empty() {
        return Err(BadLine);
    }
    no_word(rest)?;
    Ok(word)
}

/// The two words of a text.
pub fn two_words(text: &[u8]) -> Result<(&[u8], &[u8]), BadLine>
    ensures ok { IfOk result (λ w. words_of text.now ≡ w.0.now ∷ w.1.now ∷ []) }
    ensures err { OnErr result ((x : List ℕ) → (y : List ℕ) → words_of text.now ≡ x ∷ y ∷ [] → ⊥) }
{
    let (word, rest) = split_word(text);
    if word.is_empty() {
        return Err(BadLine);
    }
    Ok((word, one_word(rest)?))
}
