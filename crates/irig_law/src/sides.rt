//! Which pulses of a stretch are before its one event, and which are after it.

ghost use Rattle.std.specs.Prelude.{◌≡◌, ◌↔◌, ◌<◌, ◌≤◌, ◌+◌, ℕ, length};
ghost use Rattle.irig_law.specs.Law.{Denies, IsAfter, IsBefore, TwoAfter, TwoBefore};

/// The pulses before `until` are before the event, and those from `from` on are after it.
#[derive(Clone, Copy)]
pub struct Sides {
    pub until: usize,
    pub from: usize,
}

/// The first pulse from `from` on that denies; their number, if there is none.
fn first_from(list: &[bool], from: usize) -> usize
    requires { from ≤ length list.now }
    ensures inside { (from ≤ result) × (result ≤ length list.now) }
    ensures none { (k : ℕ) → from ≤ k → k < result → Denies list.now k → ⊥ }
    ensures denies { result < length list.now → Denies list.now result }
{
    let mut place = from;
    while place < list.len() {
        if list[place] {
            return place;
        }
        place += 1;
    }
    place
}

/// One more than the last pulse before `to` that denies; 0, if there is none.
fn last_before(list: &[bool], to: usize) -> usize
    requires { to ≤ length list.now }
    ensures inside { result ≤ to }
    ensures none { (k : ℕ) → result ≤ k → k < to → Denies list.now k → ⊥ }
    ensures denies { (k : ℕ) → result ≡ k + 1 → Denies list.now k }
{
    let mut place = to;
    while place > 0 {
        if list[place - 1] {
            return place;
        }
        place -= 1;
    }
    place
}

/// Which pulses are before the event, and which after it: of each the lists say whether it denies
/// its name by the frame before the stretch, and by the frame after it.
pub fn sides_of(first: &[bool], second: &[bool]) -> Sides
    requires { length first.now ≡ length second.now }
    ensures before { (k : ℕ) → (k < result.until) ↔ IsBefore first.now second.now k }
    ensures after { (k : ℕ) → k < length first.now
        → (result.from ≤ k) ↔ IsAfter first.now second.now k }
{
    let denied = first_from(first, 0);
    let last = last_before(second, second.len());
    if last > denied + 1 {
        return Sides {
            until: 0,
            from: first.len(),
        };
    }
    Sides {
        until: second_last(second, last),
        from: after_second(first, denied),
    }
}

/// The place of the last pulse before the last one that denies; 0, if there is none. `last` is one
/// more than the last one.
fn second_last(list: &[bool], last: usize) -> usize
    requires inside { last ≤ length list.now }
    requires none { (k : ℕ) → last ≤ k → Denies list.now k → ⊥ }
    requires denies { (k : ℕ) → last ≡ k + 1 → Denies list.now k }
    ensures { (k : ℕ) → (k < result) ↔ TwoAfter list.now k }
{
    if last == 0 {
        return 0;
    }
    let before = last_before(list, last - 1);
    if before == 0 { 0 } else { before - 1 }
}

/// One more than the second pulse that denies; their number, if there is none.
fn after_second(list: &[bool], denied: usize) -> usize
    requires inside { denied ≤ length list.now }
    requires none { (k : ℕ) → k < denied → Denies list.now k → ⊥ }
    requires denies { denied < length list.now → Denies list.now denied }
    ensures { (k : ℕ) → k < length list.now → (result ≤ k) ↔ TwoBefore list.now k }
{
    if denied == list.len() {
        return denied;
    }
    let next = first_from(list, denied + 1);
    if next == list.len() { next } else { next + 1 }
}
