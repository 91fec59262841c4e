//! The place of a gap buffer moves, by one item or in runs that are no longer than the gap.

ghost use Rattle.std.specs.Prelude.{◌≡◌, ◌+◌, ◌-◌, ◌<◌, ◌≤◌, length};
ghost use Rattle.irig_gap.specs.Items.{gap_view};

use crate::gap::Gap;

impl<T: Copy> Gap<T> {
    /// Moves the place over the item left of it, which is copied over the gap.
    pub fn step_left(&mut self)
        requires { 0 < self.old.place }
        ensures { self.new ≡ gap_view self.old.items (self.old.place - 1) self.old.capacity }
    {
        self.gap -= 1;
        self.after -= 1;
        let item = *self.cells.get(self.gap);
        self.cells.write(self.after, item);
    }

    /// Moves the place over the item right of it.
    pub fn step_right(&mut self)
        requires { self.old.place < length self.old.items }
        ensures { self.new ≡ gap_view self.old.items (self.old.place + 1) self.old.capacity }
    {
        let item = *self.cells.get(self.after);
        self.cells.write(self.gap, item);
        self.gap += 1;
        self.after += 1;
    }

    /// Moves the place so that `place` items are left of it. Each leap is as wide as the gap.
    pub fn move_to(&mut self, place: usize)
        requires { place ≤ length self.old.items }
        ensures { self.new ≡ gap_view self.old.items place self.old.capacity }
    {
        while place < self.gap_at() {
            self.leap_left(place);
        }
        while self.gap_at() < place {
            self.leap_right(place);
        }
    }

    /// Moves the place towards `place`, over at most as many items as the gap is wide: so the
    /// copies do not overlap the items. If the gap is empty, `place` is reached at once.
    fn leap_left(&mut self, place: usize)
        requires { place < self.old.place }
        ensures view { self.new ≡ gap_view self.old.items self.new.place self.old.capacity }
        ensures nearer { (place ≤ self.new.place) × (self.new.place < self.old.place) }
    {
        let free = self.after - self.gap;
        if free == 0 {
            // The two sides meet, so no item has to move.
            self.gap = place;
            self.after = place;
            return;
        }
        let count = free.min(self.gap - place);
        self.gap -= count;
        self.after -= count;
        self.cells.move_run(self.gap, self.after, count);
    }

    /// The same to the right.
    fn leap_right(&mut self, place: usize)
        requires { (self.old.place < place) × (place ≤ length self.old.items) }
        ensures view { self.new ≡ gap_view self.old.items self.new.place self.old.capacity }
        ensures nearer { (self.new.place ≤ place) × (self.old.place < self.new.place) }
    {
        let free = self.after - self.gap;
        if free == 0 {
            self.gap = place;
            self.after = place;
            return;
        }
        let count = free.min(place - self.gap);
        self.cells.move_run(self.after, self.gap, count);
        self.gap += count;
        self.after += count;
    }
}
