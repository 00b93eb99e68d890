//! The search from the goals of a decision.

ghost use Rattle.std.specs.Prelude.{◌<◌, ◌↔◌, ℕ, length};
ghost use Rattle.node_sets.specs.Sets.{IsIn};
ghost use Rattle.maid_model.specs.Graph.{Arc};
ghost use Rattle.maid_model.specs.Nodes.{IsDecision};
ghost use Rattle.maid_model.specs.Relevance.{IsInFamily, IsGoal};
ghost use Rattle.bayes_ball.specs.Search.{TellsWalksToGoals};

use crate::marks::Marks;
use crate::search::reach_from_any;
use maid_model::{Diagram, goals_of};
use node_sets::NodeSet;

/// The decision and its parents, none of which is a utility.
pub(crate) fn family_of(diagram: &Diagram, decision: usize) -> NodeSet
    requires { IsDecision diagram.now.nodes decision }
    ensures family { (v : ℕ) → IsIn result v ↔ IsInFamily (Arc diagram.now.nodes) decision v }
    ensures known { (v : ℕ) → IsIn result v → v < length diagram.now.nodes }
    ensures no_goal { (v : ℕ) → IsGoal diagram.now.nodes decision v → IsIn result v → ⊥ }
{
    let parents = diagram.parents(decision);
    let mut family = NodeSet::of(decision);
    family.insert_all(parents);
    family
}

/// Searches, given the decision and its parents, from all utilities of its agent that descend from
/// it. The marks also tell of which nodes an extra parent has an active walk to one of these
/// utilities. It takes no memory, and its cost is that of one `reach`.
pub fn reach_from_goals(diagram: &Diagram, decision: usize) -> Marks
    requires { IsDecision diagram.now.nodes decision }
    ensures { TellsWalksToGoals diagram.now.nodes decision result }
{
    let goals = goals_of(diagram, decision);
    let family = family_of(diagram, decision);
    reach_from_any(diagram, &goals, &family)
}
