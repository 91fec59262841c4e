//! A list that is edited at one place.

ghost use Rattle.std.specs.Prelude.{◌≡◌, ◌+◌, ◌-◌, ◌^◌, ◌<◌, ◌≤◌, ◌⊎◌, true, false, length, []};
ghost use Rattle.std.specs.Prelude.{slice_get, slice_set, insert, remove, Some};
ghost use Rattle.irig_gap.specs.Items.{gap_view};

use crate::block::{free, longer};
use crate::cells::{Cells, Deed, nowhere};
use std::alloc::Global;
use std::marker::Model;

/// A list of items, counted from 0, with a place from 0 to its length and a capacity. The items
/// left of the place are left of `gap` in the block, the others from `after` on. Only `reserve` and
/// `grow` take memory.
pub struct Gap<T: Copy> {
    pub(crate) cells: Cells<T>,
    pub(crate) deed: Option<Deed<T, Global>>,
    pub(crate) gap: usize,
    pub(crate) after: usize,
    pub(crate) capacity: usize,
    pub(crate) alloc: Global,
}

impl<T: Copy> Model for Gap<T> {
    ghost use Rattle.irig_gap.specs.Items.{GapView, gap_code};

    ghost Value = { GapView T };

    ghost coded = { gap_code T.code };

    ghost use Rattle.std.specs.Prelude.{◌≡◌, ◌<◌, ◌^◌, length};
    ghost use Rattle.irig_gap.specs.{Slots.view_of, Slots.IsGap, Block.IsBlock};

    ghost view = { λ g. view_of g.cells.slots g.gap g.after };

    ghost invariant = { λ g. IsGap g.cells.slots g.gap g.after
        × (length g.cells.slots ≡ g.capacity) × (g.capacity < 2 ^ 64)
        × IsBlock g.cells.start g.deed g.capacity g.alloc };
}

impl<T: Copy> Gap<T> {
    /// A buffer with no items and no block: it takes no memory.
    pub fn new(alloc: Global) -> Self
        ensures { result ≡ gap_view [] 0 0 }
    {
        Gap {
            cells: nowhere(&0, 0),
            deed: None,
            gap: 0,
            after: 0,
            capacity: 0,
            alloc,
        }
    }

    /// How many items there are.
    pub fn len(&self) -> usize
        ensures len { result ≡ length self.now.items }
        ensures within { result ≤ self.now.capacity }
    {
        self.gap + (self.capacity - self.after)
    }

    /// Whether a further item needs a growth of the block first. A new buffer has no room.
    pub fn is_full(&self) -> bool
        ensures full { result ≡ true → length self.now.items ≡ self.now.capacity }
        ensures room { result ≡ false → length self.now.items < self.now.capacity }
    {
        self.gap == self.after
    }

    /// How many items there may be without a growth of the block.
    pub fn capacity(&self) -> usize
        ensures { result ≡ self.now.capacity }
    {
        let capacity = self.capacity;
        capacity
    }

    /// The place of the list, from 0: how many items are left of it.
    pub fn gap_at(&self) -> usize
        ensures place { result ≡ self.now.place }
        ensures within { result ≤ length self.now.items }
    {
        let place = self.gap;
        place
    }

    /// The item at `index`, from 0, on either side of the place.
    pub fn get(&self, index: usize) -> T
        requires { index < length self.now.items }
        ensures { slice_get self.now.items index ≡ Some result }
    {
        let slot = slot_of(index, self.gap, self.after);
        *self.cells.get(slot)
    }

    /// The item at `index`, from 0, left of the place: so no test is needed to find it.
    pub fn get_left(&self, index: usize) -> T
        requires { index < self.now.place }
        ensures { slice_get self.now.items index ≡ Some result }
    {
        *self.cells.get(index)
    }

    /// Replaces the item at `index`, from 0.
    pub fn set(&mut self, index: usize, item: T)
        requires { index < length self.old.items }
        ensures { self.new ≡
            gap_view (slice_set self.old.items index item) self.old.place self.old.capacity }
    {
        let slot = slot_of(index, self.gap, self.after);
        self.cells.write(slot, item);
    }

    /// Inserts an item; the place is right of it then. There is room, so this takes no memory.
    pub fn put(&mut self, item: T)
        requires { length self.old.items < self.old.capacity }
        ensures { self.new ≡
            gap_view (insert self.old.items self.old.place item)
            (self.old.place + 1) self.old.capacity }
    {
        let free = self.gap;
        self.cells.write(free, item);
        self.gap = free + 1;
    }

    /// Removes the item left of the place; `None` if there is none.
    pub fn take_left(&mut self) -> Option<T>
        ensures none { self.old.place ≡ 0 → (result ≡ None) × (self.new ≡ self.old) }
        ensures item { 0 < self.old.place → result ≡ slice_get self.old.items (self.old.place - 1) }
        ensures rest { 0 < self.old.place →
            self.new ≡ gap_view (remove self.old.items (self.old.place - 1)) (self.old.place - 1)
            self.old.capacity }
    {
        if self.gap == 0 {
            return None;
        }
        let last = self.gap - 1;
        self.gap = last;
        Some(*self.cells.get(last))
    }

    /// Removes the item right of the place; `None` if there is none.
    pub fn take_right(&mut self) -> Option<T>
        ensures none { self.old.place ≡ length self.old.items →
            (result ≡ None) × (self.new ≡ self.old) }
        ensures item { self.old.place < length self.old.items →
            result ≡ slice_get self.old.items self.old.place }
        ensures rest { self.old.place < length self.old.items →
            self.new ≡ gap_view (remove self.old.items self.old.place) self.old.place
            self.old.capacity }
    {
        if self.after == self.capacity {
            return None;
        }
        let first = self.after;
        self.after = first + 1;
        Some(*self.cells.get(first))
    }

    /// The same items with the capacity `wanted`, or the old one if memory runs out. All are left
    /// of the place, so the allocator can make the block longer where it is.
    pub(crate) fn lengthened(self, wanted: usize) -> Gap<T>
        requires longer { self.capacity < wanted }
        requires end { self.place ≡ length self.items }
        ensures { (result ≡ gap_view self.items self.place wanted) ⊎ (result ≡ self) }
    {
        let Gap {
            cells,
            deed,
            gap,
            after: _,
            capacity,
            alloc,
        } = self;
        let (cells, deed, capacity) = longer(&alloc, gap, capacity, wanted, cells, deed);
        Gap {
            cells,
            deed,
            gap,
            after: capacity,
            capacity,
            alloc,
        }
    }
}

impl<T: Copy> Drop for Gap<T> {
    // The items are copies, so nothing else is dropped.
    fn drop(self) {
        let Gap {
            cells,
            deed,
            gap: _,
            after: _,
            capacity,
            alloc,
        } = self;
        free(&alloc, capacity, cells, deed);
    }
}

/// The place in the block of the item at `index` of the list, both from 0.
fn slot_of(index: usize, gap: usize, after: usize) -> usize
    requires { gap ≤ index → after + (index - gap) < 2 ^ 64 }
    ensures left { index < gap → result ≡ index }
    ensures right { gap ≤ index → result ≡ after + (index - gap) }
{
    if index < gap {
        index
    } else {
        after + (index - gap)
    }
}
