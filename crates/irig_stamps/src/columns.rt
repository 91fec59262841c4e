//! The columns of a line, from 0.

ghost use Rattle.std.specs.Prelude.{◌≡◌, ◌==◌, ◌≤◌, Some, None, count_by, length};
ghost use Rattle.irig_stamps.specs.Columns.{column_of, passed, word_at, part_at, rest_of};
ghost use Rattle.irig_stamps.specs.Widths.{width_of};

use crate::cutting::{Until, cut};

/// Column `k` of a line, from 0; no byte if the line has no such column.
pub fn column(comma: Option<u8>, k: usize, line: &[u8]) -> &[u8]
    ensures { result.now ≡ column_of comma k line.now }
{
    match comma {
        Some(comma) => parted_column(comma, k, line),
        None => spaced_column(k, line),
    }
}

/// Column `k` of a line, from 0, if white space parts columns.
fn spaced_column(k: usize, line: &[u8]) -> &[u8]
    ensures { result.now ≡ word_at k line.now }
{
    let mut left = line;
    for passed in 0..k {
        let (_, text) = cut(left, Until::NonBlank);
        (_, left) = cut(text, Until::Blank);
    }
    let (_, text) = cut(left, Until::NonBlank);
    let (word, _) = cut(text, Until::Blank);
    word
}

/// Column `k` of a line, from 0, if the byte `comma` parts columns.
fn parted_column(comma: u8, k: usize, line: &[u8]) -> &[u8]
    ensures { result.now ≡ part_at comma k line.now }
{
    let mut left = line;
    for passed in 0..k {
        let (_, text) = cut(left, Until::Byte(comma));
        left = skip_byte(text);
    }
    let (part, _) = cut(left, Until::Byte(comma));
    part
}

/// How many columns a line has, if the byte `comma` parts them; `None` if white space does.
pub fn width(comma: Option<u8>, line: &[u8]) -> Option<usize>
    ensures { result ≡ width_of comma line.now }
{
    match comma {
        Some(comma) => Some(commas(comma, line) + 1),
        None => None,
    }
}

/// How many of its bytes are this one.
fn commas(comma: u8, line: &[u8]) -> usize
    ensures count { result ≡ count_by (λ b. b == comma) line.now }
    ensures bound { result ≤ length line.now }
{
    line.iter().filter(|byte| **byte == comma).count()
}

/// What is left of a line after its first column; no byte if nothing comes after it.
pub fn after_first(comma: Option<u8>, line: &[u8]) -> &[u8]
    ensures { result.now ≡ passed comma line.now }
{
    match comma {
        Some(comma) => after_parted(comma, line),
        None => after_spaced(line),
    }
}

fn after_spaced(line: &[u8]) -> &[u8]
    ensures { result.now ≡ passed None line.now }
{
    let (_, text) = cut(line, Until::NonBlank);
    let (_, left) = cut(text, Until::Blank);
    left
}

fn after_parted(comma: u8, line: &[u8]) -> &[u8]
    ensures { result.now ≡ passed (Some comma) line.now }
{
    let (_, text) = cut(line, Until::Byte(comma));
    skip_byte(text)
}

fn skip_byte(text: &[u8]) -> &[u8]
    ensures { result.now ≡ rest_of text.now }
{
    match text {
        [_, rest @ ..] => rest,
        [] => text,
    }
}
