//! The least costs of explanations that do not give an interval the place.

ghost use Rattle.std.specs.Prelude.{◌≡◌, ◌+◌, ◌-◌, ◌*◌, ◌^◌, ◌<◌, ◌≤◌, ◌⊎◌, Contains, true};
ghost use Rattle.irig_explaining.specs.Ends.{IsTable, ending};
ghost use Rattle.irig_explaining.specs.Bounds.{CostsWithout, ElsewhereBetween, EndsBelow, NoStep};
ghost use Rattle.irig_explaining.specs.Ways.{OtherKind};
ghost use Rattle.irig_explaining.specs.declared.nodes.Node.{Node};

use crate::asked::Asked;
use crate::claim::{Claim, Kind};
use crate::costs::{Costs, Places};
use crate::near::of_rises_before;
use crate::nodes::Node;
use crate::rises::Rises;

/// The least of a cost, and those without a step over the interval.
pub fn without_step(rises: Rises, before: &[Node], after: &[Node], asked: Asked, best: u64) -> u64
    requires tables { IsTable rises before.now × IsTable rises after.now }
    requires few { rises.count ≤ 2 ^ 30 }
    requires there { asked.interval < rises.count }
    requires most { best ≤ rises.skip * rises.count }
    ensures kept { result ≤ best }
    ensures least { NoStep rises before.now after.now asked result }
    ensures origin { (result ≡ best) ⊎ CostsWithout rises before.now after.now asked result }
{
    let ended = ends_below(rises, before, asked.interval + 1, best);
    ends_below(rises, after, rises.count - 1 - asked.interval, ended)
}

/// The least of a cost, and those of explanations that end at a node of one of the first rises. In
/// a table of a recording that is read from its end they begin there. The last nodes come first:
/// the earlier one is, the more rises are passed over after it.
fn ends_below(rises: Rises, nodes: &[Node], below: usize, best: u64) -> u64
    requires table { IsTable rises nodes.now }
    requires few { rises.count ≤ 2 ^ 30 }
    ensures kept { result ≤ best }
    ensures least { (n : Node) → Contains nodes.now n → n.rise < below → result ≤ ending rises n }
    ensures origin { (result ≡ best) ⊎ EndsBelow rises nodes.now below result }
{
    let count = of_rises_before(nodes, below);
    let mut least = best;
    for back in 0..count {
        let node = nodes[count - 1 - back];
        if is_early(rises, node, least) {
            return least;
        }
        least = with_end(rises, node, least);
    }
    least
}

/// Whether all rises after a node cost as much.
fn is_early(rises: Rises, node: Node, best: u64) -> bool
    requires there { node.rise < rises.count }
    requires few { rises.count ≤ 2 ^ 30 }
    ensures { result ≡ true → best ≤ rises.skip * (rises.count - node.rise - 1) }
{
    best <= rises.skipped(rises.count - node.rise as usize - 1)
}

/// The least of a cost, and that of an explanation that ends at a node.
fn with_end(rises: Rises, node: Node, best: u64) -> u64
    requires there { node.rise < rises.count }
    requires few { rises.count ≤ 2 ^ 30 }
    requires small { node.cost < 2 ^ 63 }
    ensures kept { result ≤ best }
    ensures least { result ≤ ending rises node }
    ensures origin { (result ≡ best) ⊎ (result ≡ ending rises node) }
{
    let after = rises.count - node.rise as usize - 1;
    best.min(node.cost + rises.skipped(after))
}

/// The least of a cost, and those with a step between two claims that gives the interval another
/// place, after what is spent. None is priced if the least of them costs as much.
pub fn with_step<C: Costs + Places>(
    costs: &C,
    spent: u64,
    from: Claim,
    to: Claim,
    asked: Asked,
    best: u64,
) -> u64
    requires { spent < 2 ^ 63 }
    ensures kept { result ≤ best }
    ensures least { ElsewhereBetween (C.price costs.now) (C.place costs.now) asked spent
        from.rise from.element to.rise to.element result }
    ensures origin { (result ≡ best) ⊎ OtherKind (C.price costs.now) (C.place costs.now) asked spent
        from.rise from.element to.rise to.element result }
{
    let enough = best.saturating_sub(spent);
    let least = costs.least(from.rise as usize, to.rise as usize, enough);
    if best <= spent + u64::from(least) {
        return best;
    }
    let next = with_kind(costs, spent, from, to, Kind::Next, asked, best);
    let step = with_kind(costs, spent, from, to, Kind::Step, asked, next);
    with_kind(costs, spent, from, to, Kind::Jump, asked, step)
}

/// The least of a cost, and that with a step of one kind, if it gives the interval another place.
fn with_kind<C: Costs + Places>(
    costs: &C,
    spent: u64,
    from: Claim,
    to: Claim,
    kind: Kind,
    asked: Asked,
    best: u64,
) -> u64
    requires { spent < 2 ^ 63 }
    ensures kept { result ≤ best }
    ensures least { (C.place costs.now from.rise from.element to.rise to.element kind
        ≡ asked.place → ⊥)
        → result ≤ spent + C.price costs.now from.rise from.element to.rise to.element kind }
    ensures origin { (result ≡ best) ⊎
        ((C.place costs.now from.rise from.element to.rise to.element kind ≡ asked.place → ⊥)
        × (result ≡ spent
        + C.price costs.now from.rise from.element to.rise to.element kind)) }
{
    let to = Claim {
        rise: to.rise,
        element: to.element,
        kind,
    };
    if costs.place(from, to) == asked.place {
        return best;
    }
    best.min(spent + u64::from(costs.price(from, to)))
}
