//! A text is cut before the first byte of some kind, or after the last one.

ghost use Rattle.std.specs.Prelude.{◌≡◌};
ghost use Rattle.irig_stamps.specs.Columns.{after_last, is_alphanumeric, is_at, is_digit, is_letter};
ghost use Rattle.irig_stamps.specs.Columns.{before, is_space, onward, up_to};

/// The kind of byte that a text is cut before.
#[derive(Clone, Copy)]
pub enum Until {
    /// White space: a space, a tab or a carriage return.
    Blank,
    /// Any byte that is no white space.
    NonBlank,
    /// Any byte that is no decimal digit.
    NonDigit,
    /// This byte.
    Byte(u8),
    /// Any byte that is not the digit 0.
    NonZero,
    /// A letter or a digit.
    Alphanumeric,
    /// Neither a letter nor a digit.
    NonAlphanumeric,
    /// A letter.
    Letter,
    /// An opening bracket.
    Opening,
    /// A closing one.
    Closing,
}

impl Until {
    /// Whether a byte is of this kind: `cut` stops at the first one that is.
    fn stops_at(self, byte: u8) -> bool
        ensures { result ≡ is_at self byte }
    {
        match self {
            Until::Blank => is_space(byte),
            Until::NonBlank => !is_space(byte),
            Until::NonDigit => !is_digit(byte),
            Until::Byte(one) => byte == one,
            Until::NonZero => byte != b'0',
            Until::Alphanumeric => is_alphanumeric(byte),
            Until::NonAlphanumeric => !is_alphanumeric(byte),
            Until::Letter => is_letter(byte),
            Until::Opening => matches!(byte, b'(' | b'['),
            Until::Closing => matches!(byte, b')' | b']'),
        }
    }
}

/// Cuts a text before the first byte of a kind: returns what is before that byte, and what is from
/// it on.
pub fn cut(text: &[u8], until: Until) -> (&[u8], &[u8])
    ensures before { result.0.now ≡ before until text.now }
    ensures onward { result.1.now ≡ onward until text.now }
{
    let mut at = 0;
    while at < text.len() && !until.stops_at(text[at]) {
        at += 1;
    }
    (&text[..at], &text[at..])
}

/// Cuts a text after the last byte of a kind: returns what is up to that byte, and what is after
/// it.
pub fn cut_back(text: &[u8], until: Until) -> (&[u8], &[u8])
    ensures up_to { result.0.now ≡ up_to until text.now }
    ensures after { result.1.now ≡ after_last until text.now }
{
    let mut at = text.len();
    while at > 0 && !until.stops_at(text[at - 1]) {
        at -= 1;
    }
    (&text[..at], &text[at..])
}

fn is_space(byte: u8) -> bool
    ensures { result ≡ is_space byte }
{
    matches!(byte, b' ' | b'\t' | b'\r')
}

pub fn is_digit(byte: u8) -> bool
    ensures { result ≡ is_digit byte }
{
    matches!(byte, b'0'..=b'9')
}

/// Whether a byte is a letter.
fn is_letter(byte: u8) -> bool
    ensures { result ≡ is_letter byte }
{
    byte > 127 || matches!(byte, b'A'..=b'Z' | b'a'..=b'z')
}

/// Whether a byte is a letter or a decimal digit.
fn is_alphanumeric(byte: u8) -> bool
    ensures { result ≡ is_alphanumeric byte }
{
    is_letter(byte) || is_digit(byte)
}
