//! Tables of words.

ghost use Rattle.std.specs.Prelude.{◌≡◌, map};
ghost use Rattle.irig_lines.specs.Tables.{found};

/// What a text means by a table, of which the first row with this text counts.
pub fn found<T: Copy>(text: &[u8], rows: &[(&[u8], T)]) -> Option<T>
    ensures { result ≡ found text.now (map (λ row. (row.0.now, row.1)) rows.now) }
{
    for row in rows {
        if text == row.0 {
            return Some(row.1);
        }
    }
    None
}
