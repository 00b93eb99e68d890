//! Which arcs are asked about.

ghost use Rattle.std.specs.Prelude.{◌≡◌, ◌<◌, ◌↔◌, ℕ, length};
ghost use Rattle.node_sets.specs.Sets.{IsIn};
ghost use Rattle.maid_model.specs.Graph.{Arc, IsPath};
ghost use Rattle.info_value.specs.Lines.{decides, may_see};

use maid_model::{Diagram, Kind, descent_is_tested};
use node_sets::{NodeSet, descendants};

/// Whether the node is a decision of the agent.
pub(crate) fn decides(diagram: &Diagram, agent: usize, v: usize) -> bool
    requires { v < length diagram.now.nodes }
    ensures { result ≡ decides diagram.now.nodes agent v }
{
    match diagram.kind(v) {
        Kind::Decision => diagram.agent_of(v) == agent,
        Kind::Chance | Kind::Utility => false,
    }
}

/// The decision and all nodes that descend from it.
pub(crate) fn below(diagram: &Diagram, decision: usize) -> NodeSet
    requires { decision < length diagram.now.nodes }
    ensures { (v : ℕ) → IsIn result v ↔ IsPath (Arc diagram.now.nodes) decision v }
{
    let _count = diagram.count();
    descendants(diagram, NodeSet::of(decision))
}

/// Whether the decision may see the node, where `below` has the decision and all nodes that descend
/// from it.
pub(crate) fn may_see(diagram: &Diagram, below: &NodeSet, decision: usize, v: usize) -> bool
    requires within { v < length diagram.now.nodes }
    requires below { (v : ℕ) → IsIn below.now v ↔ IsPath (Arc diagram.now.nodes) decision v }
    ensures { result ≡ may_see diagram.now.nodes decision v }
{
    descent_is_tested();
    match diagram.kind(v) {
        Kind::Chance | Kind::Decision => !below.holds(v),
        Kind::Utility => false,
    }
}
