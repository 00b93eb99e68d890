//! Graphs of numbered nodes.

ghost use Rattle.std.specs.Prelude.{ℕ, ◌<◌, ◌↔◌, List};
ghost use Rattle.node_sets.specs.declared.sets.TheConstants.{MOST_NODES};
ghost use Rattle.node_sets.specs.Sets.{IsIn};
ghost use Rattle.node_sets.specs.Paths.{ParentArc};

use crate::sets::NodeSet;

/// Numbered nodes and the arcs between them, by each node's parents.
pub trait Graph {
    ghost parents_of: { Self → ℕ → List ℕ };

    /// The parents of a node.
    fn parent_set(&self, v: usize) -> NodeSet
        requires { v < MOST_NODES }
        ensures { (u : ℕ) → IsIn result u ↔ ParentArc (parents_of self.now) u v };

    /// The children of a node.
    fn child_set(&self, u: usize) -> NodeSet
        requires { u < MOST_NODES }
        ensures { (v : ℕ) → IsIn result v ↔ ParentArc (parents_of self.now) u v };
}
