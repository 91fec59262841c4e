//! The cheapest explanation of ten rises, and the cost below which all give an interval a place.

ghost use Rattle.std.specs.Prelude.{Bool, ◌≡◌, ◌^◌, ◌≤◌};
ghost use Rattle.irig_part_tests.specs.Looks.{kind_price, look_place, look_price};

use irig_explaining::{
    Asked, Claim, Costs, Explanation, Kind, Places, Reach, Remote, Rises, Tables, explain,
};
use std::alloc::{AllocError, Global};
use std::process::Abort;

const ELEMENTS: usize = 100;

/// The element that each rise looks like.
struct Looks {
    elements: &'static [usize],
}

fn price_of(kind: Kind, is_next: bool) -> u32
    ensures { result ≡ kind_price kind is_next }
{
    match (kind, is_next) {
        (Kind::Next, true) => 0,
        (Kind::Next, false) => 50,
        (Kind::Step, true) => 12,
        (Kind::Step, false) => 60,
        (Kind::Jump, _) => 16,
    }
}

impl Looks {
    fn step(&self, rise: usize, element: usize, later: usize, next: usize, kind: Kind) -> u32
        ensures { result ≡ look_price self.now.elements.now rise element later next kind }
    {
        let between = later.saturating_sub(rise).saturating_sub(1).min(9) as u32;
        let look = if later < self.elements.len() {
            self.elements[later]
        } else {
            100
        };
        let seen = if look == next { 0 } else { 20 };
        let is_next = (element % ELEMENTS + 1) % ELEMENTS == next;
        8 * between + seen + price_of(kind, is_next)
    }
}

impl Costs for Looks {
    ghost price = { λ l. look_price l.elements.now };

    ghost from_class = { λ l e. 0 };

    ghost to_class = { λ l f. f };

    fn price(&self, from: Claim, to: Claim) -> u32 {
        let (rise, later) = (from.rise as usize, to.rise as usize);
        self.step(
            rise,
            from.element as usize,
            later,
            to.element as usize,
            to.kind,
        )
    }

    // A step to the next rise and element costs nothing.
    fn least(&self, _rise: usize, _later: usize, _enough: u64) -> u32 {
        0
    }

    fn remote_from(&self, _later: usize) -> Remote {
        Remote { rise: 0, least: 0 }
    }

    fn remote_to(&self, _rise: usize, _count: usize) -> Remote {
        Remote { rise: 0, least: 0 }
    }

    fn least_by(&self, _rise: usize, _later: usize, kind: Kind) -> u32 {
        price_of(kind, true)
    }

    fn from_class(&self, _element: usize) -> usize {
        0
    }

    fn to_class(&self, element: usize) -> usize {
        element
    }

    fn from_classes(&self, _states: u32) -> usize {
        1
    }

    fn to_classes(&self, states: u32) -> usize {
        states as usize
    }

    fn jump_to(&self, from: Claim, later: usize, class: usize) -> u32 {
        let (rise, element) = (from.rise as usize, from.element as usize);
        self.step(rise, element, later, class, Kind::Jump)
    }

    fn jump_from(&self, rise: usize, class: usize, to: Claim) -> u32 {
        let (later, element) = (to.rise as usize, to.element as usize);
        self.step(rise, class, later, element, Kind::Jump)
    }

    fn reach_from(&self, _from: Claim, _later: usize) -> Reach {
        Reach::all()
    }

    fn reach_to(&self, _rise: usize, _to: Claim) -> Reach {
        Reach::all()
    }

    // The jump.
    fn most_from(&self, _rise: usize, _this: usize, _class: usize) -> u32 {
        16
    }

    // The jump, and a rise that is unlike the one element and like the other.
    fn most_to(&self, _rise: usize, _this: usize, _class: usize) -> u32 {
        20 + 16
    }
}

impl Places for Looks {
    ghost place = { λ l r e q f k. look_place q f };

    fn place(&self, _from: Claim, to: Claim) -> u64 {
        let (rise, element) = (to.rise as usize, to.element as usize);
        ((element % ELEMENTS + ELEMENTS - rise % ELEMENTS) % ELEMENTS) as u64
    }

    fn no_jump_gives(&self, _asked: u64) -> bool {
        false
    }
}

/// Rise 3 is noise, and between rises 6 and 7 the element number jumps.
const LOOKS: Looks = Looks {
    elements: &[3, 4, 5, 77, 6, 7, 8, 40, 41, 42],
};

/// A step passes over one rise at most. A rise that is no element costs 8.
const RISES: Rises = Rises {
    count: 10,
    states: 100,
    window: 2,
    skip: 8,
};

const EIGHT: Rises = Rises {
    count: 10,
    states: 8,
    window: 2,
    skip: 8,
};

/// By hand: the cheapest explanation passes over rise 3 for 8, and jumps for 16.
static CLAIMS: [(u32, u32); 9] = [
    (0, 3),
    (1, 4),
    (2, 5),
    (4, 6),
    (5, 7),
    (6, 8),
    (7, 40),
    (8, 41),
    (9, 42),
];

/// By hand: with eight elements the four last rises look like none, so they are none for 8 each.
static CLAIMS_OF_EIGHT: [(u32, u32); 5] = [(0, 3), (1, 4), (2, 5), (4, 6), (5, 7)];

/// An interval, a place, and the cost below which all explanations give it the place, by
/// `tests/reference/explanations.py`. The cheapest one costs 24: it does not, if a row says 24.
static BOUNDS: [(usize, u64, u64); 12] = [
    (0, 3, 32),
    (1, 3, 40),
    (2, 2, 40),
    (3, 2, 48),
    (4, 2, 48),
    (5, 2, 32),
    (6, 33, 32),
    (7, 33, 32),
    (8, 33, 32),
    (0, 1, 24),
    (2, 3, 24),
    (6, 2, 24),
];

fn has(explanation: &Explanation, claims: &[(u32, u32)], cost: u64) -> bool {
    let found = explanation.claims.as_slice();
    if found.len() != claims.len() || explanation.cost != cost {
        return false;
    }
    for index in 0..found.len() {
        if (found[index].rise, found[index].element) != claims[index] {
            return false;
        }
    }
    true
}

/// Asks with one table and with both.
fn is_cheapest(
    alloc: Global,
    rises: Rises,
    claims: &[(u32, u32)],
    cost: u64,
) -> Result<bool, AllocError>
    requires { rises.count ≤ 2 ^ 30 }
{
    let alone = explain(alloc, &LOOKS, rises)?;
    let tables = Tables::build(alloc, &LOOKS, rises)?;
    let both = tables.explain(alloc)?;
    Ok(has(&alone, claims, cost) && has(&both, claims, cost))
}

#[test]
fn the_cheapest_passes_over_noise_and_jumps(rt: HostRuntime) {
    assert!(&rt; is_cheapest(rt.alloc(), RISES, &CLAIMS, 24) == Ok(true));
}

#[test]
fn no_element_beyond_the_states_is_claimed(rt: HostRuntime) {
    assert!(&rt; is_cheapest(rt.alloc(), EIGHT, &CLAIMS_OF_EIGHT, 40) == Ok(true));
}

fn are_bounds(alloc: Global) -> Result<bool, AllocError> {
    let tables = Tables::build(alloc, &LOOKS, RISES)?;
    for (interval, place, bound) in &BOUNDS {
        let asked = Asked {
            interval: *interval,
            place: *place,
        };
        if *interval >= 10 || tables.sure_below(asked) != *bound {
            return Ok(false);
        }
    }
    Ok(true)
}

#[test]
fn below_the_bound_all_give_the_place(rt: HostRuntime) {
    assert!(&rt; are_bounds(rt.alloc()) == Ok(true));
}
