//! The cheapest claim of a rise.

ghost use Rattle.std.specs.Prelude.{◌≡◌, ◌^◌, ◌<◌, ◌≤◌, Contains};
ghost use Rattle.std.specs.List.Sorted.{IsNonDecreasingBy};
ghost use Rattle.irig_explaining.specs.declared.nodes.Node.{Node};

use crate::near::of_rises_before;
use crate::nodes::Node;
use crate::rises::Rises;

/// The least cost of the nodes of a rise; none costs more than to pass over all rises before it.
pub fn lowest_node(rises: Rises, nodes: &[Node], rise: usize) -> u64
    requires sorted { IsNonDecreasingBy (λ n. n.rise) nodes.now }
    requires rise { rise ≤ 2 ^ 30 }
    ensures low { (n : Node) → Contains nodes.now n → n.rise ≡ rise → result ≤ n.cost }
    ensures small { result < 2 ^ 62 }
{
    lowest_of(nodes, rise, rises.skipped(rise))
}

/// The least cost of the nodes of a rise; the most if none costs less.
fn lowest_of(nodes: &[Node], rise: usize, most: u64) -> u64
    requires sorted { IsNonDecreasingBy (λ n. n.rise) nodes.now }
    requires rise { rise ≤ 2 ^ 31 }
    ensures low { (n : Node) → Contains nodes.now n → n.rise ≡ rise → result ≤ n.cost }
    ensures kept { result ≤ most }
{
    let end = of_rises_before(nodes, rise + 1);
    let mut low = most;
    for back in 0..end {
        let node = nodes[end - 1 - back];
        if (node.rise as usize) < rise {
            return low;
        }
        low = low.min(node.cost);
    }
    low
}
