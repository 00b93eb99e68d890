//! The nodes from which and to which paths lead.

ghost use Rattle.std.specs.Prelude.{◌↔◌, ◌<◌, ℕ, IsTrue, length};
ghost use Rattle.maid_model.specs.declared.diagrams.Kind.TheVariants.{Decision, Utility};
ghost use Rattle.node_sets.specs.Sets.{IsIn};
ghost use Rattle.control_incentive.specs.Paths.{IsOf, LeadsFromOwn, LeadsToOwn};
ghost use Rattle.control_incentive.specs.Steps.{HasPaths};

use maid_model::{Diagram, Kind};
use node_sets::{NodeSet, ancestors, descendants};

/// Whether the agent owns the node, a decision or a utility, and it is of that kind.
fn is_of(diagram: &Diagram, kind: Kind, agent: usize, v: usize) -> bool
    requires { v < length diagram.now.nodes }
    ensures { IsTrue result ↔ IsOf diagram.now.nodes kind agent v }
{
    diagram.owns(agent, v) && diagram.kind(v) == kind
}

/// The agent's nodes of that kind, decisions or utilities.
fn nodes_of(diagram: &Diagram, kind: Kind, agent: usize) -> NodeSet
    ensures { (v : ℕ) → IsIn result v ↔ IsOf diagram.now.nodes kind agent v }
{
    let mut nodes = NodeSet::empty();
    for v in 0..diagram.count() {
        if is_of(diagram, kind, agent, v) {
            nodes.insert(v);
        }
    }
    nodes
}

/// The nodes from which a path leads to such a node of the agent.
fn leading_to(diagram: &Diagram, kind: Kind, agent: usize) -> NodeSet
    ensures { (v : ℕ) → IsIn result v ↔ LeadsToOwn diagram.now.nodes kind agent v }
{
    ancestors(diagram, nodes_of(diagram, kind, agent))
}

/// The nodes to which a path leads from such a node of the agent.
fn led_from(diagram: &Diagram, kind: Kind, agent: usize) -> NodeSet
    ensures { (v : ℕ) → IsIn result v ↔ LeadsFromOwn diagram.now.nodes kind agent v }
{
    descendants(diagram, nodes_of(diagram, kind, agent))
}

/// The nodes that bear on what the agent does and gets.
#[derive(Clone, Copy)]
pub(crate) struct Paths {
    /// In the trimmed diagram a path leads from these to a decision of the agent.
    pub(crate) respond: NodeSet,
    /// In the trimmed diagram a path leads from these to a utility of the agent.
    pub(crate) matter: NodeSet,
    /// A path leads from a decision of the agent through each of these to a utility of the agent.
    pub(crate) instruments: NodeSet,
}

impl Paths {
    /// The paths in a diagram and in the trimmed one. It searches each of them twice.
    pub(crate) fn find(diagram: &Diagram, trimmed: &Diagram, agent: usize) -> Paths
        ensures { HasPaths diagram.now.nodes trimmed.now.nodes agent result }
    {
        let below = led_from(diagram, Kind::Decision, agent);
        let instruments = below.intersection(&leading_to(diagram, Kind::Utility, agent));
        Paths {
            respond: leading_to(trimmed, Kind::Decision, agent),
            matter: leading_to(trimmed, Kind::Utility, agent),
            instruments,
        }
    }
}
