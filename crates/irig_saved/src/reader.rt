//! Reads a saved journal.

ghost use Rattle.std.specs.Prelude.{◌≡◌, ◌==◌, ◌<◌, ◌≤◌, ◌+◌, ◌-◌, ◌^◌, ◌++◌, ◌∷◌, [], ℕ, List};
ghost use Rattle.std.specs.Prelude.{length, take, codes, count_by, MatchOption, MatchResult, IfOk};
ghost use Rattle.irig_saved.specs.SavedText.{journal_text, saved_lines};
ghost use Rattle.irig_saved.specs.Values.{IsFormat, words_of_format};
ghost use Rattle.irig_saved.specs.{Lines.line, Lines.numbered, Ranges.IsNumber, Ranges.IsSaved};
ghost use Rattle.irig_saved.specs.{Reading.Parses, Reading.Stops, Leading.FirstLine};
ghost use Rattle.irig_saved.specs.{Leading.head_text, Faults.IsRefused, Faults.ReachesSteps};

use crate::cut::line_of;
use crate::lines::{counted, format};
use crate::parts::{counted_steps, marks};
use crate::saved::Saved;
use crate::stop::Stop;
use irig_codes::Kind;
use std::alloc::Global;

/// Why a text is no saved journal.
#[derive(Clone, Copy, Drop)]
pub enum Fault {
    /// The number of a line, from 1: the lines before it begin some journal, and with it they begin
    /// none.
    Line(usize),
    /// Memory ran out. Only steps take memory, so the text begins a journal that has one.
    Memory,
}

/// The journal whose text these bytes are. If lines are missing, the line at fault is that at which
/// the text ends; if text is left, it is its first line. Memory is taken only for lines that were
/// read, whatever the counts among them say.
pub fn parse(alloc: Global, text: &[u8]) -> Result<Saved, Fault>
    requires { length text.now < 2 ^ 63 }
    ensures exact { MatchResult result
        (λ s. IsSaved s × (text.now ≡ journal_text s))
        (λ fault. IsRefused text.now fault) }
    ensures short { IfOk result (λ s. length (saved_lines s) ≤ length text.now) }
{
    match saved(alloc, text) {
        Ok((saved, [])) => Ok(saved),
        Ok((_, rest)) => Err(Fault::Line(line_at(text, rest))),
        Err(Stop::At(rest)) => Err(Fault::Line(line_at(text, rest))),
        Err(Stop::Memory) => Err(Fault::Memory),
    }
}

/// The number, from 1, of the line of `text` with which its end `rest` begins.
fn line_at(text: &[u8], rest: &[u8]) -> usize
    requires { length text.now < 2 ^ 63 }
    ensures { result
        ≡ 1 + count_by (λ b. b == 10) (take (length text.now - length rest.now) text.now) }
{
    // Newlines before the rest are whole lines before it.
    let before = text.len().saturating_sub(rest.len());
    1 + text[..before].iter().filter(|byte| **byte == b'\n').count()
}

/// Reads a journal from the front of a text.
fn saved(alloc: Global, text: &[u8]) -> Result<(Saved, &[u8]), Stop<'_>>
    ensures { Parses IsSaved saved_lines ReachesSteps text.now result }
{
    let ((kind, expression), cursor, rest) = match head(text) {
        Ok(head) => head,
        Err(rest) => return Err(Stop::At(rest)),
    };
    // `marks` cannot fail: a line that is no mark's is left to the next part.
    let (marks, rest) = marks(rest);
    let (past, rest) = match counted_steps(alloc, b"past", rest) {
        Ok(read) => read,
        Err(stop) => return Err(stop),
    };
    let (future, rest) = match counted_steps(alloc, b"future", rest) {
        Ok(read) => read,
        Err(stop) => return Err(stop),
    };
    let saved = Saved {
        kind,
        expression,
        cursor,
        marks,
        past,
        future,
    };
    Ok((saved, rest))
}

/// Reads name, format and cursor; an error has the text from the first line at fault on.
fn head(text: &[u8]) -> Result<((Kind, u8), u64, &[u8]), &[u8]>
    ensures { MatchResult result
        (λ r. IsFormat r.0 × IsNumber r.1 × (text.now ≡ head_text r.0 r.1 r.2.now))
        (λ rest. Stops IsSaved saved_lines text.now rest.now) }
{
    let Some(rest) = named(text) else {
        return Err(text);
    };
    let Some((format, behind)) = format_line(rest) else {
        return Err(rest);
    };
    match cursor_line(behind) {
        Some((cursor, rest)) => Ok((format, cursor, rest)),
        None => Err(behind),
    }
}

/// What is after the first line of a text, if this is `irig-journal-1`.
fn named(text: &[u8]) -> Option<&[u8]>
    ensures { MatchOption result
        ((more : List ℕ) → text.now ≡ codes "irig-journal-1" ++ 10 ∷ more → ⊥)
        (λ rest. text.now ≡ codes "irig-journal-1" ++ 10 ∷ rest.now) }
{
    let Some((line, rest)) = line_of(text) else {
        return None;
    };
    if line == b"irig-journal-1".as_slice() {
        Some(rest)
    } else {
        None
    }
}

/// What the first line of a text, `format X N`, says, and what is after it.
fn format_line(text: &[u8]) -> Option<((Kind, u8), &[u8])>
    ensures { FirstLine IsFormat (λ f. line (codes "format") (words_of_format f))
        text.now result }
{
    let Some((line, rest)) = line_of(text) else {
        return None;
    };
    match format(b"format", line) {
        Some(format) => Some((format, rest)),
        None => None,
    }
}

/// The same of a line `cursor C`.
fn cursor_line(text: &[u8]) -> Option<(u64, &[u8])>
    ensures { FirstLine IsNumber (λ n. numbered (codes "cursor") (n ∷ [])) text.now result }
{
    let Some((line, rest)) = line_of(text) else {
        return None;
    };
    match counted(b"cursor", line) {
        Some(cursor) => Some((cursor, rest)),
        None => None,
    }
}
