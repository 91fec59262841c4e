//! Where an explanation ends.

ghost use Rattle.std.specs.Prelude.{◌≡◌, ◌+◌, ◌*◌, ◌^◌, ◌<◌, ◌≤◌, ◌⊎◌};
ghost use Rattle.irig_explaining.specs.Ends.{IsEnd, IsTable};

use crate::nodes::Node;
use crate::rises::Rises;

/// The end of an explanation.
#[derive(Clone, Copy)]
pub struct End {
    /// What the whole explanation costs.
    pub cost: u64,
    /// The number of the node of the last claim; `None` if there is no claim.
    pub last: Option<usize>,
}

/// The cheapest end.
pub fn cheapest_end(rises: Rises, nodes: &[Node]) -> End
    requires table { IsTable rises nodes.now }
    requires few { rises.count ≤ 2 ^ 31 }
    ensures { IsEnd rises nodes.now result }
{
    let mut best = End {
        cost: rises.skipped(rises.count),
        last: None,
    };
    for number in 0..nodes.len() {
        let node = nodes[number];
        let after = rises.count - node.rise as usize - 1;
        let end = End {
            cost: node.cost + rises.skipped(after),
            last: Some(number),
        };
        best = cheaper_end(best, end);
    }
    best
}

/// The cheaper of two ends; the first if both cost the same.
fn cheaper_end(first: End, second: End) -> End
    ensures either { (result ≡ first) ⊎ (result ≡ second) }
    ensures first { result.cost ≤ first.cost }
    ensures second { result.cost ≤ second.cost }
{
    if second.cost < first.cost {
        second
    } else {
        first
    }
}
