//! The units of the recorder's time, by their names: s, ms, us, ns and ps.

ghost use Rattle.std.specs.Prelude.{◌≡◌, ◌≤◌, IfSome};
ghost use Rattle.irig_time.specs.Units.{places_after_one, places_after_ten, places_named};
ghost use Rattle.irig_time.specs.Units.{prefix_places, unit_places, with_places};

/// The n of a unit, with 1, 10, 100 or nothing before it: 5 for `100ns`, which is 10^5 picoseconds.
pub fn places_named(name: &[u8]) -> Option<usize>
    ensures { result ≡ places_named name.now }
{
    match name {
        [b'1', rest @ ..] => places_after_one(rest),
        _ => unit_places(name),
    }
}

fn places_after_one(rest: &[u8]) -> Option<usize>
    ensures { result ≡ places_after_one rest.now }
{
    match rest {
        [b'0', rest @ ..] => places_after_ten(rest),
        _ => unit_places(rest),
    }
}

fn places_after_ten(rest: &[u8]) -> Option<usize>
    ensures { result ≡ places_after_ten rest.now }
{
    match rest {
        [b'0', rest @ ..] => with_places(2, unit_places(rest)),
        _ => with_places(1, unit_places(rest)),
    }
}

fn with_places(more: usize, places: Option<usize>) -> Option<usize>
    requires few { more ≤ 2 }
    requires range { IfSome places (λ n. n ≤ 12) }
    ensures { result ≡ with_places more places }
{
    match places {
        Some(places) => Some(places + more),
        None => None,
    }
}

fn unit_places(name: &[u8]) -> Option<usize>
    ensures value { result ≡ unit_places name.now }
    ensures range { IfSome result (λ n. n ≤ 12) }
{
    match name {
        [b's'] => Some(12),
        [prefix, b's'] => prefix_places(*prefix),
        _ => None,
    }
}

fn prefix_places(prefix: u8) -> Option<usize>
    ensures value { result ≡ prefix_places prefix }
    ensures range { IfSome result (λ n. n ≤ 12) }
{
    match prefix {
        b'm' => Some(9),
        b'u' => Some(6),
        b'n' => Some(3),
        b'p' => Some(0),
        _ => None,
    }
}
