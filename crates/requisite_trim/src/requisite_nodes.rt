//! Which nodes a decision needs to see, those that it sees and those that it does not.
//!
//! An arc that is not there makes no difference to the search: the decision is given with or
//! without it, so that a walk by the new arc comes back to its tail or ends at a given parent. So
//! one search tells of all arcs into the decision.

ghost use Rattle.std.specs.Prelude.{◌<◌, ◌↔◌, IsTrue};
ghost use Rattle.maid_model.specs.Nodes.{IsDecision};
ghost use Rattle.node_sets.specs.declared.sets.TheConstants.{MOST_NODES};
ghost use Rattle.requisite_trim.specs.Needs.{HasNode, TellsNeeds};

use bayes_ball::{Marks, reach_from_goals};
use maid_model::Diagram;

/// Which parents of a decision are requisite, and which other nodes would be if the decision saw
/// them.
#[derive(Clone, Copy, Debug)]
pub struct RequisiteNodes {
    marks: Marks,
}

impl RequisiteNodes {
    /// Those of the decision, found by one search from its goals. It takes no memory, and looks at
    /// each node a few times.
    pub fn of(diagram: &Diagram, decision: usize) -> RequisiteNodes
        requires { IsDecision diagram.now.nodes decision }
        ensures { TellsNeeds diagram.now.nodes decision result }
    {
        let _count = diagram.count();
        RequisiteNodes {
            marks: reach_from_goals(diagram, decision),
        }
    }

    /// Whether the node is requisite: as a parent of the decision in the diagram as it is, or,
    /// where it is none and does not descend from the decision, in the diagram with the arc.
    pub fn has(&self, node: usize) -> bool
        requires { node < MOST_NODES }
        ensures { IsTrue result ↔ HasNode self.now node }
    {
        self.marks.reached(node)
    }
}
