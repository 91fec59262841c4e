//! What is kept of a step next to its changes.

ghost use Rattle.std.specs.Prelude.{◌≡◌, ◌+◌, ◌<◌, ◌≤◌, ◌^◌, drop, vec_capacity, vec_len};
ghost use Rattle.irig_journal.specs.Sizes.{counts_of, joined_as};

use crate::size::Size;

/// The number of a step's changes, and the cursor of the state that it leads to.
#[derive(Clone, Copy, PartialEq, Eq)]
pub(crate) struct Entry {
    pub(crate) size: Size,
    pub(crate) cursor: usize,
}

/// How many changes the steps of these entries have, all together.
pub(crate) fn count_all(entries: &[Entry]) -> usize
    requires few { counts_of entries.now < 2 ^ 64 }
    ensures { result ≡ counts_of entries.now }
{
    let mut count = 0;
    for entry in entries {
        count += entry.size.count();
    }
    count
}

/// Makes one group of all steps after the first `at`, which leads to `cursor`; if there are none, a
/// group without changes is added. The list has a place for it, so `unwrap` finds no error.
pub(crate) fn join_beyond(entries: &mut Vec<Entry>, at: usize, cursor: usize)
    requires within { at ≤ vec_len entries.old }
    requires place { at < vec_capacity entries.old }
    requires few { counts_of (drop at entries.old.items) < 2 ^ 64 }
    ensures joined { entries.new.items ≡ joined_as at cursor entries.old.items }
    ensures len { vec_len entries.new ≡ at + 1 }
    ensures capacity { vec_capacity entries.old ≤ vec_capacity entries.new }
{
    let count = count_all(&entries[at..]);
    entries.truncate(at);
    let group = Entry {
        size: Size::Group(count),
        cursor,
    };
    entries.push(group).unwrap();
}
