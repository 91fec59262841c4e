//! What claims cost, with all before them or all after them.

ghost use Rattle.std.specs.Prelude.{◌≡◌, ◌-◌, ◌^◌, ◌<◌, ◌≤◌, Contains};
ghost use Rattle.irig_explaining.specs.{Nodes.IsCost, Turned.AreTables, Turned.turned};
ghost use Rattle.irig_explaining.specs.declared.nodes.Node.{Node};

use crate::claim::{Claim, Kind};
use crate::costs::{Costs, Places};
use crate::lowest::lowest_node;
use crate::near::nodes_near;
use crate::tables::Tables;
use crate::turned::Turned;
use crate::ways::cost_of;

impl<'a, C: Costs + Places> Tables<'a, C> {
    /// What each node of a rise and all before it cost, at least.
    pub(crate) fn lowest_before(&self, rise: usize) -> u64
        requires few { self.now.rises.count ≤ 2 ^ 30 }
        requires full { AreTables (C.price self.now.costs.now) self.now.rises
            self.now.before.items self.now.after.items }
        requires there { rise < self.now.rises.count }
        ensures low { (n : Node) → Contains self.now.before.items n → n.rise ≡ rise
            → result ≤ n.cost }
        ensures small { result < 2 ^ 62 }
    {
        lowest_node(self.rises, self.before.as_slice(), rise)
    }

    /// What comes after each node of a rise costs, at least.
    pub(crate) fn lowest_after(&self, rise: usize) -> u64
        requires few { self.now.rises.count ≤ 2 ^ 30 }
        requires full { AreTables (C.price self.now.costs.now) self.now.rises
            self.now.before.items self.now.after.items }
        requires there { rise < self.now.rises.count }
        ensures low { (n : Node) → Contains self.now.after.items n
            → n.rise ≡ self.now.rises.count - 1 - rise → result ≤ n.cost }
        ensures small { result < 2 ^ 62 }
    {
        let turned = self.rises.count - 1 - rise;
        lowest_node(self.rises, self.after.as_slice(), turned)
    }

    /// What a claim and all before it cost, at least.
    pub(crate) fn cost_before(&self, to: Claim) -> u64
        requires few { self.now.rises.count ≤ 2 ^ 30 }
        requires full { AreTables (C.price self.now.costs.now) self.now.rises
            self.now.before.items self.now.after.items }
        requires there { to.rise < self.now.rises.count }
        ensures cost { IsCost (C.price self.now.costs.now) self.now.rises self.now.before.items
            to.rise to.element result }
        ensures small { result < 2 ^ 62 }
    {
        let before = self.before.as_slice();
        let near = nodes_near(self.rises.window, before, to.rise as usize);
        cost_of(self.costs, self.rises, before, near, to)
    }

    /// What comes after a claim costs, at least.
    pub(crate) fn cost_after(&self, from: Claim) -> u64
        requires few { self.now.rises.count ≤ 2 ^ 30 }
        requires full { AreTables (C.price self.now.costs.now) self.now.rises
            self.now.before.items self.now.after.items }
        requires there { from.rise < self.now.rises.count }
        ensures cost { IsCost (turned (C.price self.now.costs.now) self.now.rises.count)
            self.now.rises self.now.after.items
            (self.now.rises.count - 1 - from.rise) from.element result }
        ensures small { result < 2 ^ 62 }
    {
        let turned = Turned {
            costs: self.costs,
            count: self.rises.count,
        };
        let to = Claim {
            rise: (self.rises.count - 1 - from.rise as usize) as u32,
            element: from.element,
            kind: Kind::Next,
        };
        let after = self.after.as_slice();
        let near = nodes_near(self.rises.window, after, to.rise as usize);
        cost_of(&turned, self.rises, after, near, to)
    }
}
