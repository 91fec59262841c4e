//! A shelf in memory, for tests.

ghost use Rattle.std.specs.Prelude.{◌≡◌, ◌++◌, ◌∷◌, [], length, map, Some, IfOk, IsErr, IsFalse};
ghost use Rattle.std.specs.Prelude.{IsTrue, OnErr, OnOk};
ghost use Rattle.irig_script.specs.ShelfView.{known_of, next_put, shelf_view};
ghost use Rattle.irig_text.specs.Shelved.{Puts};

use irig_text::{Shelf, ShelfFault, Text, whole};
use std::alloc::Global;
use std::marker::Model;

/// A shelf that keeps its texts; one write may be set to fail.
#[derive(Drop)]
pub struct MemoryShelf {
    alloc: Global,
    // The number of the write that is to fail, from 1.
    fail: Option<u64>,
    // Both stay at 2^64 - 1.
    puts: u64,
    failures: u64,
    texts: Vec<Vec<u8>>,
}

impl Model for MemoryShelf {
    ghost use Rattle.std.specs.Prelude.{map};
    ghost use Rattle.irig_script.specs.ShelfView.{ShelfView, shelf_view};

    ghost Value = { ShelfView };

    ghost view = { λ s.
        shelf_view (map (λ t. t.items) s.texts.items) s.failures s.puts s.fail };
}

impl MemoryShelf {
    /// An empty shelf; the write of number `fail`, from 1, fails.
    pub fn new(alloc: Global, fail: Option<u64>) -> MemoryShelf
        ensures { result ≡ shelf_view [] 0 0 fail }
    {
        MemoryShelf {
            alloc,
            fail,
            puts: 0,
            failures: 0,
            texts: Vec::new(alloc),
        }
    }

    /// The texts that were written, in order.
    pub fn texts(&self) -> &[Vec<u8>]
        ensures { map (λ t. t.items) result.now ≡ self.now.texts }
    {
        self.texts.as_slice()
    }
}

impl Shelf for MemoryShelf {
    ghost known = { λ s. known_of s };

    ghost since = { λ _ _. Unit {0} };

    ghost since_now = { λ _. tt };

    ghost since_then = { λ _ _ _ _ _. tt };

    // `next_put` is the number of this write. The room that `whole` begins with is 0 bytes.
    fn put<T: Text>(&mut self, text: &mut T) -> Result<u64, ShelfFault>
        ensures count { IfOk result (λ count. count ≡ length (T.rest text.old)) }
        ensures ok { OnOk result
            (Puts (known_of self.old) (known_of self.new) (T.rest text.old ∷ []) 0) }
        ensures err { OnErr result (Puts (known_of self.old) (known_of self.new) [] 1) }
        ensures fails { self.old.fail ≡ Some (next_put self.old) → IsErr result }
        ensures puts { self.new.puts ≡ next_put self.old }
        ensures fail { self.new.fail ≡ self.old.fail }
    {
        self.puts = self.puts.saturating_add(1);
        if self.fail != Some(self.puts)
            && let Ok(text) = whole(self.alloc, 0, text)
        {
            let count = text.len() as u64;
            if keep(&mut self.texts, text) {
                return Ok(count);
            }
        }
        self.failures = self.failures.saturating_add(1);
        Err(ShelfFault)
    }
}

/// Adds a text; `false` if memory runs out, and the texts stay.
fn keep(texts: &mut Vec<Vec<u8>>, text: Vec<u8>) -> bool
    ensures kept { IsTrue result → map (λ t. t.items) texts.new.items
        ≡ map (λ t. t.items) texts.old.items ++ text.items ∷ [] }
    ensures lost { IsFalse result → texts.new.items ≡ texts.old.items }
{
    texts.push(text).is_ok()
}
