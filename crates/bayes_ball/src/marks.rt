//! What a search marks.

ghost use Rattle.std.specs.Prelude.{ℕ, ◌<◌, ◌⊎◌, ◌↔◌, IsTrue};
ghost use Rattle.node_sets.specs.declared.sets.TheConstants.{MOST_NODES};
ghost use Rattle.node_sets.specs.Sets.{IsIn};
ghost use Rattle.bayes_ball.specs.Spread.{AreLeadingUp};

use crate::waves::leading_up;
use node_sets::NodeSet;

/// Where a search arrived.
#[derive(Clone, Copy, Debug)]
pub struct Marks {
    reached: NodeSet,
    parents_reached: NodeSet,
}

impl Marks {
    /// The marks of a search in which walks arrive down arcs at the one set of nodes, and up arcs
    /// at the other.
    pub(crate) fn of(given: &NodeSet, down: &NodeSet, up: &NodeSet) -> Marks
        ensures reached { (v : ℕ) → IsIn result.reached v ↔ (IsIn down.now v ⊎ IsIn up.now v) }
        ensures parents { AreLeadingUp given.now down.now up.now result.parents_reached }
    {
        Marks {
            reached: down.union(up),
            parents_reached: leading_up(given, down, up),
        }
    }

    /// Whether an active walk leads to the node from where the search started.
    pub fn reached(&self, node: usize) -> bool
        requires { node < MOST_NODES }
        ensures { IsTrue result ↔ IsIn self.now.reached node }
    {
        self.reached.holds(node)
    }

    /// Whether an active walk leads from an extra parent of the node to where the search started,
    /// if that was at nodes.
    pub fn reached_parent_of(&self, node: usize) -> bool
        requires { node < MOST_NODES }
        ensures { IsTrue result ↔ IsIn self.now.parents_reached node }
    {
        self.parents_reached.holds(node)
    }
}
