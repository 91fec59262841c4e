//! One block of memory as a row of places, each empty or full; every pointer of this crate is here.

ghost use Rattle.std.specs.Prelude.{◌≡◌, ℕ, ◌+◌, ◌*◌, ◌^◌, ◌<◌, ◌≤◌, List, Option, Some, None};
ghost use Rattle.std.specs.Prelude.{length, replicate, get_or, slice_set, IfOk, ◌-◌, ◌++◌, take};
ghost use Rattle.std.specs.Prelude.{MatchResult};
ghost use Rattle.std.specs.Mem.{type_size};
ghost use denote.RawPtr.{Ptr};
ghost use Rattle.irig_gap.specs.Cells.{IsFull, IsRun, AreApart, moved, cells_own, cells_lent};
ghost use Rattle.irig_gap.specs.Cells.{deed_owns};

use std::alloc::{AllocError, Allocator};
use std::marker::{Model, PhantomData};
use std::mem::{align_of, size_of};
use std::ptr;

/// The places, from where the block begins.
#[derive(Drop)]
pub(crate) struct Cells<T> {
    start: *mut T,
    ghost slots: { List (Option T) },
}

impl<T> Model for Cells<T> {
    ghost also_owns = { λ c. cells_own T.row c.start c.slots };

    ghost also_shares = { λ c _ κ. cells_lent T.row c.start c.slots κ };
}

/// The right to give the block back to `alloc`. It takes no space, and it cannot be dropped.
pub(crate) struct Deed<T, A: Allocator> {
    mark: PhantomData<*const (T, A)>,
    ghost at: { Ptr },
    ghost len: { ℕ },
    ghost alloc: { A },
}

impl<T, A: Allocator> Model for Deed<T, A> {
    ghost also_owns = { λ d. deed_owns T.row (A.dealloc_token d.alloc) d.at d.len };
}

/// A block of `len` empty places, and its deed.
pub(crate) fn allocate<T, A: Allocator>(
    alloc: &A,
    len: usize,
) -> Result<(Cells<T>, Deed<T, A>), AllocError>
    requires { len * type_size T.row < 2 ^ 63 }
    ensures { IfOk result (λ r. (r.0.slots ≡ replicate len None) × (r.1.at ≡ r.0.start)
        × (r.1.len ≡ len) × (r.1.alloc ≡ alloc.now)) }
{
    match alloc.allocate(len * size_of::<T>(), align_of::<T>()) {
        Ok(block) => Ok((
            Cells {
                start: block as *mut T,
            },
            Deed { mark: PhantomData },
        )),
        Err(error) => Err(error),
    }
}

/// Gives the block back. The items in it are forgotten: nothing is dropped.
pub(crate) fn deallocate<T, A: Allocator>(alloc: &A, len: usize, cells: Cells<T>, deed: Deed<T, A>)
    requires { (deed.at ≡ cells.start) × (deed.len ≡ len) × (length cells.slots ≡ len)
        × (deed.alloc ≡ alloc.now) }
{
    let Cells { start } = cells;
    let Deed { mark: _ } = deed;
    unsafe {
        alloc.deallocate(start as *mut u8, len * size_of::<T>(), align_of::<T>());
    }
}

/// Makes a block longer, with the items in the first `full` places and no other. If memory runs
/// out, the error has the old block, with these items alone.
pub(crate) fn enlarge<T, A: Allocator>(
    alloc: &A,
    full: usize,
    old: usize,
    len: usize,
    cells: Cells<T>,
    deed: Deed<T, A>,
) -> Result<(Cells<T>, Deed<T, A>), (Cells<T>, Deed<T, A>)>
    requires { IsRun cells.slots 0 full × (deed.at ≡ cells.start) × (deed.len ≡ old)
        × (length cells.slots ≡ old) × (deed.alloc ≡ alloc.now) × (full ≤ old) × (old ≤ len)
        × (len * type_size T.row < 2 ^ 63) }
    ensures { MatchResult result
        (λ r. (r.0.slots ≡ take full cells.slots ++ replicate (len - full) None)
        × (r.1.at ≡ r.0.start) × (r.1.len ≡ len) × (r.1.alloc ≡ alloc.now))
        (λ r. (r.0.slots ≡ take full cells.slots ++ replicate (old - full) None)
        × (r.1.at ≡ r.0.start) × (r.1.len ≡ old) × (r.1.alloc ≡ alloc.now)) }
{
    let Cells { start } = cells;
    let Deed { mark: _ } = deed;
    match unsafe { alloc.grow(start, full, old, len) } {
        Ok(start) => Ok((Cells { start }, Deed { mark: PhantomData })),
        Err(_) => Err((Cells { start }, Deed { mark: PhantomData })),
    }
}

/// Places without a block. `near` lends them an address, since a pointer has to have one, and no
/// byte is read or written there.
pub(crate) fn nowhere<T>(near: &u8, len: usize) -> Cells<T>
    requires { len * type_size T.row ≡ 0 }
    ensures { result.slots ≡ replicate len None }
{
    let address = near as *const u8;
    Cells {
        start: address as *mut u8 as *mut T,
    }
}

impl<T> Cells<T> {
    /// The item in the place `index`, which has to be full.
    pub(crate) fn get(&self, index: usize) -> &T
        requires { IsFull self.now.slots index }
        ensures { get_or self.now.slots index None ≡ Some result.now }
    {
        unsafe { &*self.start.add(index) }
    }

    /// What the place held is forgotten, not dropped.
    pub(crate) fn write(&mut self, index: usize, item: T)
        requires { index < length self.old.slots }
        ensures slots { self.new.slots ≡ slice_set self.old.slots index (Some item) }
        ensures start { self.new.start ≡ self.old.start }
    {
        unsafe { self.start.add(index).write(item) }
    }

    /// Moves `count` items to places that do not overlap theirs. What was there is forgotten.
    pub(crate) fn move_run(&mut self, from: usize, to: usize, count: usize)
        requires inside { (from + count ≤ length self.old.slots)
            × (to + count ≤ length self.old.slots) }
        requires apart { AreApart from to count }
        requires full { IsRun self.old.slots from count }
        ensures slots { self.new.slots ≡ moved self.old.slots from to count }
        ensures start { self.new.start ≡ self.old.start }
    {
        unsafe { ptr::copy_nonoverlapping(self.start.add(from), self.start.add(to), count) }
    }
}
