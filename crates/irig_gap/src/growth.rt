//! The capacity of a gap buffer grows: where its block is, or in another one.

ghost use Rattle.std.specs.Prelude.{◌≡◌, ◌+◌, ◌-◌, ◌/◌, ◌^◌, ◌<◌, ◌≤◌, length, max, min, OnOk};
ghost use Rattle.std.specs.Prelude.{OnErr, map, Some};
ghost use Rattle.irig_gap.specs.{Items.gap_view, Slots.live};

use crate::block::{block, copy_items, free};
use crate::cells::Cells;
use crate::gap::Gap;
use std::alloc::AllocError;
use std::mem;

impl<T: Copy> Gap<T> {
    /// Makes room for `more` further items. The capacity grows by half at least, so that many small
    /// growths take time in proportion to the items. Without memory for that it is an error, even
    /// if there is some for `more`.
    pub fn reserve(&mut self, more: usize) -> Result<(), AllocError>
        ensures stays { (self.new.items ≡ self.old.items) × (self.new.place ≡ self.old.place) }
        ensures room { OnOk result (length self.old.items + more ≤ self.new.capacity) }
        ensures grows { self.old.capacity ≤ self.new.capacity }
        ensures bounded { OnOk result (self.new.capacity
            ≤ max (length self.old.items + more) (self.old.capacity + self.old.capacity / 2)) }
        ensures enough { length self.old.items + more ≤ self.old.capacity → self.new ≡ self.old }
        ensures unchanged { OnErr result (self.new ≡ self.old) }
        ensures refused { OnErr result (self.old.capacity < length self.old.items + more) }
        ensures generous { OnOk result (self.old.capacity < length self.old.items + more →
            min (self.old.capacity + self.old.capacity / 2) (2 ^ 64 - 1) ≤ self.new.capacity) }
    {
        let len = self.len();
        if more <= self.capacity() - len {
            return Ok(());
        }
        match len.checked_add(more) {
            None => Err(AllocError),
            Some(wanted) => {
                let generous = self.capacity().saturating_add(self.capacity() / 2);
                self.grow(wanted.max(generous))
            }
        }
    }

    /// If an item is right of the place, another block is needed. If none is, `lengthened` takes
    /// the buffer, so an empty one is there meanwhile, and the capacity shows whether it grew.
    pub fn grow(&mut self, wanted: usize) -> Result<(), AllocError>
        requires { self.old.capacity < wanted }
        ensures ok { OnOk result (self.new ≡ gap_view self.old.items self.old.place wanted) }
        ensures err { OnErr result (self.new ≡ self.old) }
    {
        if self.after != self.capacity {
            return self.relocate(wanted);
        }
        let empty = Gap::new(self.alloc);
        let short = mem::replace(self, empty);
        *self = short.lengthened(wanted);
        if self.capacity() == wanted {
            Ok(())
        } else {
            Err(AllocError)
        }
    }

    /// Makes the capacity `wanted` in another block, to whose end the items right of the place go.
    fn relocate(&mut self, wanted: usize) -> Result<(), AllocError>
        requires { self.old.capacity < wanted }
        ensures ok { OnOk result (self.new ≡ gap_view self.old.items self.old.place wanted) }
        ensures err { OnErr result (self.new ≡ self.old) }
    {
        let Ok((mut cells, deed)) = block(&self.alloc, wanted) else {
            return Err(AllocError);
        };
        let after = self.copy_to(&mut cells, wanted);
        // From here on `cells` is the old block.
        mem::swap(&mut self.cells, &mut cells);
        let old = mem::replace(&mut self.deed, deed);
        free(&self.alloc, self.capacity, cells, old);
        self.after = after;
        self.capacity = wanted;
        Ok(())
    }

    /// Copies the items to both ends of `len` places. Returns the first place of those at the end.
    fn copy_to(&self, cells: &mut Cells<T>, len: usize) -> usize
        requires len { length cells.old.slots ≡ len }
        requires longer { self.now.capacity ≤ len }
        ensures items { live cells.new.slots self.now.place result ≡ map Some self.now.items }
        ensures end { result + length self.now.items ≡ self.now.place + len }
        ensures len { length cells.new.slots ≡ len }
        ensures start { cells.new.start ≡ cells.old.start }
    {
        let right = self.capacity - self.after;
        let after = len - right;
        copy_items(&self.cells, 0, cells, 0, self.gap);
        copy_items(&self.cells, self.after, cells, after, right);
        after
    }
}
