//! A diagram as a graph of numbered nodes.

ghost use Rattle.maid_model.specs.Nodes.{parents_of};

use crate::diagrams::Diagram;
use node_sets::{Graph, NodeSet};

/// The arcs of a diagram.
impl Graph for Diagram {
    ghost parents_of = { λ d v. parents_of d.nodes v };

    fn parent_set(&self, v: usize) -> NodeSet {
        self.arcs().parents(v)
    }

    fn child_set(&self, u: usize) -> NodeSet {
        self.arcs().children(u)
    }
}
