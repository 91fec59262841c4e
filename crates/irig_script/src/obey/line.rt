//! The line of a script that is being read.

ghost use Rattle.std.specs.Prelude.{◌≡◌, ◌≤◌, ◌<◌, ◌++◌, ◌∷◌, [], ◌≢◌, ℕ, List, IfSome, IfNone};
ghost use Rattle.std.specs.Prelude.{length, ◌==◌};

/// Bytes, at most, of a line without its newline.
const LINE_LIMIT: usize = 1000;

#[derive(Drop)]
pub struct Line {
    bytes: [u8; LINE_LIMIT],
    len: usize,
    // Whether more bytes came, which are not kept.
    long: bool,
    ghost fits: { len ≤ 1000 },
}

impl Line {
    ghost use Rattle.irig_script.specs.Obey.Progress.{Holds};

    pub fn new() -> Line
        ensures { Holds [] result }
    {
        Line {
            bytes: [0; LINE_LIMIT],
            len: 0,
            long: false,
        }
    }

    pub fn clear(&mut self)
        ensures { Holds [] self.new }
    {
        self.len = 0;
        self.long = false;
    }

    /// Takes one more byte, which is no newline.
    pub fn push(&mut self, byte: u8)
        requires { byte ≢ 10 }
        ensures { (text : List ℕ) → Holds text self.old → Holds (text ++ byte ∷ []) self.new }
    {
        if self.len < LINE_LIMIT {
            self.bytes[self.len] = byte;
            self.len += 1;
        } else {
            self.long = true;
        }
    }

    pub fn is_empty(&self) -> bool
        ensures { (text : List ℕ) → Holds text self.now → result ≡ (length text == 0) }
    {
        self.len == 0
    }

    /// The bytes of the line; `None` if there are too many.
    pub fn text(&self) -> Option<&[u8]>
        ensures whole { IfSome result (λ bytes. (text : List ℕ) → Holds text self.now
            → (bytes.now ≡ text) × (length text ≤ 1000)) }
        ensures long { IfNone result ((text : List ℕ) → Holds text self.now → 1000 < length text) }
    {
        if self.long {
            None
        } else {
            Some(&self.bytes[..self.len])
        }
    }
}
