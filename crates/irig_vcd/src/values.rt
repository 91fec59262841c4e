//! The level that a value of a dump gives the wire of its code; `Ok(None)` is none.

ghost use Rattle.std.specs.Prelude.{◌≡◌, ℕ, List, Ok, None, true, if◌then◌else◌};
ghost use Rattle.std.specs.Str.{bytes_eq};
ghost use Rattle.irig_vcd.specs.Values.{level_by, scalar_level, value_level, vector_level};
ghost use Rattle.irig_vcd.specs.{Answer.Gives, Code.Short.takes_code, Code.Token.kind_view};
ghost use Rattle.irig_vcd.specs.{Code.Token.word_of};

use crate::fault::VcdFault;
use crate::token::{Kind, Token};

/// The level of a value of one bit: only `1` is high. Its code is in the same word: `None` if that
/// is another one than the wire's, `BadToken` if there is none.
pub fn scalar(code: &[u8], token: Token<'_>) -> Result<Option<bool>, VcdFault>
    ensures { Gives (λ level. level) result (scalar_level code.now (word_of token.entry)) }
{
    match token.slice {
        [first, rest @ ..] if !rest.is_empty() => {
            if rest == code {
                Ok(Some(*first == b'1'))
            } else {
                Ok(None)
            }
        }
        _ => Err(VcdFault::BadToken(token.offset)),
    }
}

/// `1` is high; 0, `x` and `z`, also as capitals, are low. Any other byte is `BadToken`.
fn bit(offset: usize, byte: u8) -> Result<Option<bool>, VcdFault>
    ensures { Gives (λ level. level) result (value_level offset byte) }
{
    match byte {
        b'1' => Ok(Some(true)),
        b'0' | b'x' | b'X' | b'z' | b'Z' => Ok(Some(false)),
        _ => Err(VcdFault::BadToken(offset)),
    }
}

/// The level of a vector's last byte, the lowest bit. `BadToken` if nothing is after its `b`, or if
/// that byte is no bit.
fn vector(token: Token<'_>) -> Result<Option<bool>, VcdFault>
    ensures { (code next : List ℕ) → vector_level code (word_of token.entry) next
        ≡ (if bytes_eq next code then result else Ok None) }
{
    let len = token.slice.len();
    if len < 2 {
        return Err(VcdFault::BadToken(token.offset));
    }
    bit(token.offset, token.slice[len - 1])
}

/// The level of a value whose code, the next word, the caller looks at: none of a real or a text.
pub fn own_level(token: Token<'_>) -> Result<Option<bool>, VcdFault>
    requires { takes_code (kind_view token.kind) ≡ true }
    ensures { (code next : List ℕ)
        → level_by (kind_view token.entry.kind) code (word_of token.entry) next
        ≡ (if bytes_eq next code then result else Ok None) }
{
    match token.kind {
        Kind::Vector => vector(token),
        _ => Ok(None),
    }
}
