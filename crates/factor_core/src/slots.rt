//! Slots: where a table stands in a workspace, and over which nodes it is.

ghost use Rattle.std.specs.Prelude.{◌≡◌, ◌<◌, ◌≤◌, ℕ, false};
ghost use Rattle.node_sets.specs.Sets.{holds};
ghost use Rattle.node_sets.specs.declared.sets.TheConstants.{MOST_NODES};
ghost use Rattle.factor_core.specs.Scopes.{united, united_but};

use node_sets::{MOST_NODES, NodeSet};

/// A table in a workspace: where its cells start, how many there are, and over which nodes they
/// are, as one bit a node. The cells stand with the lowest node slowest.
#[derive(Clone, Copy, Debug, PartialEq, Eq)]
pub struct Slot {
    pub start: usize,
    pub len: usize,
    pub scope: NodeSet,
}

/// A range of cells in a workspace.
#[derive(Clone, Copy, Debug, PartialEq, Eq)]
pub struct Strip {
    pub start: usize,
    pub len: usize,
}

impl Slot {
    /// Whether the node is in the scope. No number from `MOST_NODES` on is.
    pub fn holds(&self, node: usize) -> bool
        ensures below { node < MOST_NODES → result ≡ holds self.now.scope node }
        ensures beyond { MOST_NODES ≤ node → result ≡ false }
    {
        node < MOST_NODES && self.scope.holds(node)
    }
}

/// The nodes of the slots.
pub fn united_scope(slots: &[Slot]) -> NodeSet
    ensures { (v : ℕ) → holds result v ≡ united slots.now v }
{
    let mut scope = NodeSet::empty();
    for slot in slots {
        scope = scope.union(&slot.scope);
    }
    scope
}

/// The nodes of the slots but one.
pub fn joined_scope(slots: &[Slot], left_out: usize) -> NodeSet
    requires { left_out < MOST_NODES }
    ensures { (v : ℕ) → holds result v ≡ united_but slots.now left_out v }
{
    let mut scope = united_scope(slots);
    scope.remove(left_out);
    scope
}
