//! Which parents of a decision are requisite, all found by one search from its goals.
//!
//! Whether the parent x is requisite is asked given the decision and its other parents, but the
//! search is given x too. That is the same: a walk to x may be cut where it comes to x first, and
//! then x is at its end alone, where it does not matter whether x is given.

ghost use Rattle.std.specs.Prelude.{◌↔◌, IsTrue};
ghost use Rattle.maid_model.specs.Graph.{Arc};
ghost use Rattle.maid_model.specs.Nodes.{IsDecision};
ghost use Rattle.maid_model.specs.Relevance.{IsRequisite};

use bayes_ball::reach_from_goals;
use maid_model::Diagram;

/// Whether the parent of the decision is requisite: it is live, and given the decision and its
/// other parents an active walk leads from it to a utility of the decision's agent that descends
/// from the decision (Lauritzen and Nilsson 2001). A parent of one state never is. It takes no
/// memory, and looks at each node a few times.
pub fn requisite(diagram: &Diagram, parent: usize, decision: usize) -> bool
    requires decision { IsDecision diagram.now.nodes decision }
    requires arc { Arc diagram.now.nodes parent decision }
    ensures { IsTrue result ↔ IsRequisite diagram.now.nodes decision parent }
{
    let _count = diagram.count();
    reach_from_goals(diagram, decision).reached(parent)
}
