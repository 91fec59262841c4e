//! A line that is written from its last text to its first.

ghost use Rattle.std.specs.Prelude.{◌≡◌, ◌≤◌, ◌+◌, ◌++◌, ◌∷◌, length, drop, decimal};

/// Writes a text so that it ends at `end`, and returns where it starts.
#[inline(always)]
pub fn write_text(bytes: &mut [u8], end: usize, text: &[u8]) -> usize
    requires { (length text.now ≤ end) × (end ≤ length bytes.old) }
    ensures start { result + length text.now ≡ end }
    ensures long { length bytes.new ≡ length bytes.old }
    ensures written { drop result bytes.new ≡ text.now ++ drop end bytes.old }
{
    let start = end - text.len();
    bytes[start..end].copy_from_slice(text);
    start
}

/// A number in decimal and a space after it, in the same way: at most 21 bytes.
#[inline(always)]
pub fn write_number(bytes: &mut [u8], end: usize, number: u64) -> usize
    requires { (21 ≤ end) × (end ≤ length bytes.old) }
    ensures start { (end ≤ result + 21) × (result ≤ length bytes.old) }
    ensures long { length bytes.new ≡ length bytes.old }
    ensures written { drop result bytes.new ≡ decimal number ++ 32 ∷ drop end bytes.old }
{
    bytes[end - 1] = b' ';
    itoa::write_digits(number, bytes, end - 1)
}
