//! A text, cut before the first byte of some kind.

ghost use Rattle.std.specs.Prelude.{◌≡◌};
ghost use Rattle.irig_lines.specs.Words.{is_space, is_at, before, onward};
ghost use Rattle.irig_lines.specs.Numbers.{is_sign};

/// Before which bytes a text is cut.
#[derive(Clone, Copy)]
pub enum Until {
    Blank,
    /// What is no white space.
    Text,
    Sign,
    Comma,
}

impl Until {
    fn is_at(self, byte: u8) -> bool
        ensures { result ≡ is_at self byte }
    {
        match self {
            Until::Blank => is_space(byte),
            Until::Text => !is_space(byte),
            Until::Sign => is_sign(byte),
            Until::Comma => byte == b',',
        }
    }
}

/// A text, cut before its first byte of the kind `until`, if there is one.
pub fn cut(text: &[u8], until: Until) -> (&[u8], &[u8])
    ensures before { result.0.now ≡ before until text.now }
    ensures onward { result.1.now ≡ onward until text.now }
{
    let mut at = 0;
    while at < text.len() && !until.is_at(text[at]) {
        at += 1;
    }
    (&text[..at], &text[at..])
}

/// A newline is none: it ends the line, and is not in it.
pub fn is_space(byte: u8) -> bool
    ensures { result ≡ is_space byte }
{
    matches!(byte, b' ' | b'\t' | b'\r')
}

pub fn is_sign(byte: u8) -> bool
    ensures { result ≡ is_sign byte }
{
    matches!(byte, b'+' | b'-')
}
