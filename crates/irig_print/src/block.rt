//! Output in blocks: what is printed is held back until a block has no room for the next text.

ghost use Rattle.std.specs.Prelude.{◌≡◌, ◌≤◌, ◌+◌, ◌++◌, [], OnOk, OnErr, length, take};
ghost use Rattle.irig_print.specs.Blocks.{Sends};
ghost use Rattle.irig_print.specs.Front.{AppendsFront, Prints};

use crate::output::{PrintFault, put_all};
use std::io::Write;
use std::marker::Model;

/// The most bytes that a block holds back.
const BLOCK_LIMIT: usize = 8192;

/// Bytes that are held back; it takes no memory.
#[derive(Drop)]
pub struct Block {
    bytes: [u8; BLOCK_LIMIT],
    len: usize,
}

impl Model for Block {
    ghost use Rattle.std.specs.Prelude.{ℕ, List, take, ◌≤◌};

    ghost Value = { List ℕ };

    ghost view = { λ b. take b.len b.bytes };

    ghost invariant = { λ b. b.len ≤ 8192 };
}

impl Block {
    /// An empty block.
    pub fn new() -> Block
        ensures { result ≡ [] }
    {
        Block {
            bytes: [0; BLOCK_LIMIT],
            len: 0,
        }
    }

    /// Writes what is held back; after an error the rest of it is lost.
    pub fn flush<W: Write>(&mut self, out: &mut W) -> Result<(), PrintFault>
        ensures empty { self.new ≡ [] }
        ensures printed { Prints (W.contents out.old) (W.contents out.new) self.old result }
    {
        let len = self.len;
        self.len = 0;
        put_all(out, &self.bytes[..len])
    }

    /// Takes a text of at most 256 bytes, the longest line. Without room for it, what is held back
    /// is written first; if that fails, the text is not taken.
    pub fn put<W: Write>(&mut self, out: &mut W, text: &[u8]) -> Result<(), PrintFault>
        requires { length text.now ≤ 256 }
        ensures ok { OnOk result (Sends
            (W.contents out.old) (W.contents out.new) self.old self.new text.now) }
        ensures err { OnErr result (AppendsFront
            (W.contents out.old) (W.contents out.new) (self.old ++ text.now)) }
    {
        if text.len() > BLOCK_LIMIT - self.len {
            self.flush(out)?;
        }
        self.hold(text);
        Ok(())
    }

    fn hold(&mut self, text: &[u8])
        requires { length self.old + length text.now ≤ 8192 }
        ensures { self.new ≡ self.old ++ text.now }
    {
        let len = self.len;
        self.bytes[len..len + text.len()].copy_from_slice(text);
        self.len = len + text.len();
    }
}
