//! The nodes from which a step can lead to a rise.

ghost use Rattle.std.specs.Prelude.{◌≡◌, ◌<◌, ◌≤◌, length};
ghost use Rattle.std.specs.List.Sorted.{IsNonDecreasingBy};
ghost use Rattle.irig_explaining.specs.Near.{IsNear, IsSplit};

use crate::nodes::Node;

/// Neighbours in the table of nodes: those from one number to below another.
#[derive(Clone, Copy)]
pub struct Near {
    /// The number of the first one.
    pub start: usize,
    /// The number after the last one.
    pub end: usize,
}

/// The nodes from which a step can lead to a rise.
pub fn nodes_near(window: usize, nodes: &[Node], rise: usize) -> Near
    requires { IsNonDecreasingBy (λ n. n.rise) nodes.now }
    ensures { IsNear window nodes.now rise result }
{
    Near {
        start: of_rises_before(nodes, rise.saturating_sub(window)),
        end: of_rises_before(nodes, rise),
    }
}

/// How many nodes are of rises before one.
pub(crate) fn of_rises_before(nodes: &[Node], rise: usize) -> usize
    requires { IsNonDecreasingBy (λ n. n.rise) nodes.now }
    ensures { IsSplit nodes.now rise result }
{
    nodes.partition_point(|node| (node.rise as usize) < rise)
}
