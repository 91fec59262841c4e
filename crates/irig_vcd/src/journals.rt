//! The journals of a dump, by their places.

ghost use Rattle.std.specs.Prelude.{◌≡◌, ◌≤◌, ◌++◌, ◌∷◌, [], ℕ, List, None, Some, IfErr, IfOk};
ghost use Rattle.std.specs.Prelude.{IfSome, codes, length, map, vec_len};
ghost use Rattle.irig_vcd.specs.declared.fault.VcdFault.TheVariants.{BadJournal};
ghost use Rattle.irig_vcd.specs.Answer.{Gives, bytes_of, name_of};
ghost use Rattle.irig_vcd.specs.Code.Journals.{Holds, LiesIn, place_view, text_at};
ghost use Rattle.irig_vcd.specs.{Code.Gathered.part_at, Code.Gathered.so_far, Code.Pending.Begins};
ghost use Rattle.irig_vcd.specs.{Code.Scanned.Keeps, Code.Scanned.Reaches, Code.Token.word_of};
ghost use Rattle.irig_vcd.specs.{Journals.Comment, Journals.text_of, Scan.Scan, Parts.one_journal};
ghost use Rattle.std.specs.Str.{bytes_eq};
ghost use Rattle.irig_vcd.specs.declared.pending.Pending.TheVariants as pending;

use crate::fault::VcdFault;
use crate::pending::Pending;
use crate::section::{end_at, is_end};
use crate::token::{Token, Tokens};

/// Bytes of the dump, from 0: from `start` up to and without `end`.
#[derive(Clone, Copy)]
pub struct Place {
    pub start: usize,
    pub end: usize,
}

impl Place {
    /// The bytes of this place that are in `part`, which comes after `gone` bytes; it may be none.
    pub fn within<'a>(self, part: &'a [u8], gone: usize) -> &'a [u8]
        ensures bytes { result.now ≡ part_at (Some (self.start, self.end)) gone part.now }
        ensures short { length result.now ≤ length part.now }
    {
        let end = self.end.saturating_sub(gone).min(part.len());
        let start = self.start.saturating_sub(gone).min(end);
        &part[start..end]
    }
}

/// The place of the first journal that has ended, and whether there are more (`many`).
#[derive(Clone, Copy)]
pub struct Journals {
    first: Option<Place>,
    many: bool,
}

impl Journals {
    /// No journal yet.
    pub fn new() -> Journals
        ensures { Holds [] result }
    {
        Journals {
            first: None,
            many: false,
        }
    }

    /// Notes one more journal, which comes after the others in the dump: the place of the first, of
    /// any other only that there is one.
    fn put(&mut self, place: Place)
        ensures { (all : List Comment) (c : Comment)
            → place.start ≡ c.first.offset → place.end ≡ c.end
            → Holds all self.old → Holds (all ++ c ∷ []) self.new }
    {
        match self.first {
            None => self.first = Some(place),
            Some(_) => self.many = true,
        }
    }

    /// Takes the rest of a comment whose first word was read, up to its `$end`; without one it
    /// takes all tokens, and the comment stays open. `journal` is where that word begins, if it is
    /// a journal.
    pub fn take_rest(&mut self, journal: Option<usize>, tokens: &mut Tokens) -> Pending
        ensures read { (code : List ℕ) (unit : ℕ) (s : Scan)
            → Keeps s self.old (pending.Rest journal)
            → Reaches code unit s tokens.old None tokens.new self.new result }
        ensures fewer { length tokens.new ≤ length tokens.old }
    {
        let end = match end_at(tokens) {
            Ok(end) => end,
            Err(_) => return Pending::Rest(journal),
        };
        if let Some(start) = journal {
            self.put(Place { start, end });
        }
        Pending::Nothing
    }

    /// Takes a comment whose `$comment` was read. Without a word before its `$end` it is no
    /// journal.
    pub fn take_comment(&mut self, tokens: &mut Tokens) -> Pending
        ensures read { (code : List ℕ) (unit : ℕ) (s : Scan) → Keeps s self.old pending.Comment
            → Reaches code unit s tokens.old None tokens.new self.new result }
        ensures fewer { length tokens.new ≤ length tokens.old }
    {
        let Some(first) = tokens.next() else {
            return Pending::Comment;
        };
        if is_end(first.slice) {
            return Pending::Nothing;
        }
        self.take_rest(journal_at(first), tokens)
    }

    /// The first journal in the first `top` bytes of the dump; one that is open goes up to `top`.
    pub fn so_far(self, pending: Pending, top: usize) -> Option<Place>
        ensures { place_view result ≡ so_far (place_view self.first) pending top }
    {
        match self.first {
            Some(place) => Some(place),
            None => match pending {
                Pending::Rest(Some(start)) => Some(Place { start, end: top }),
                _ => None,
            },
        }
    }

    /// The one journal, which the caller gathered as `bytes`; `BadJournal(1)` if there are more.
    pub fn gathered_text(self, bytes: Vec<u8>) -> Result<Option<Vec<u8>>, VcdFault>
        ensures one { (all : List Comment) (dump : List ℕ) → Holds all self
            → IfSome self.first (λ p. text_at dump (Some p) ≡ Some bytes.items)
            → Gives bytes_of result (one_journal (map (text_of dump) all)) }
        ensures told { IfErr result (λ e. e ≡ BadJournal 1) }
        ensures within { IfOk result
            (λ journal. IfSome journal (λ kept. vec_len kept ≤ vec_len bytes)) }
    {
        if self.many {
            return Err(VcdFault::BadJournal(1));
        }
        match self.first {
            None => Ok(None),
            Some(_) => Ok(Some(bytes)),
        }
    }

    /// The same of a dump in memory, `source`, in which the places were noted.
    pub fn text<'a>(self, source: &'a [u8]) -> Result<Option<&'a [u8]>, VcdFault>
        requires within { LiesIn source.now self }
        ensures one { (all : List Comment) → Holds all self
            → Gives name_of result (one_journal (map (text_of source.now) all)) }
        ensures told { IfErr result (λ e. e ≡ BadJournal 1) }
        ensures short { IfOk result
            (λ text. IfSome text (λ t. length t.now ≤ length source.now)) }
    {
        if self.many {
            return Err(VcdFault::BadJournal(1));
        }
        match self.first {
            None => Ok(None),
            Some(place) => Ok(Some(&source[place.start..place.end])),
        }
    }
}

/// Where this first word of a comment begins, if the comment is a journal.
fn journal_at(first: Token<'_>) -> Option<usize>
    ensures { Begins result (word_of first.entry) }
{
    if is_journal(first.slice) {
        Some(first.offset)
    } else {
        None
    }
}

fn is_journal(word: &[u8]) -> bool
    ensures { result ≡ bytes_eq word.now (codes "irig-journal-1") }
{
    word == b"irig-journal-1".as_slice()
}
