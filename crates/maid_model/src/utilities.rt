//! Sets of utilities: those of an agent, and those below a decision.

ghost use Rattle.std.specs.Prelude.{◌≡◌, ℕ, ◌<◌, ◌↔◌, IsTrue, length};
ghost use Rattle.node_sets.specs.Sets.{holds, IsIn};
ghost use Rattle.maid_model.specs.Diagrams.{IsDiagram};
ghost use Rattle.maid_model.specs.Nodes.{is_utility_of, IsUtilityOf};
ghost use Rattle.maid_model.specs.Relevance.{IsGoal};

use crate::diagrams::{Diagram, Kind};
use node_sets::{NodeSet, descendants};

impl Diagram {
    /// Whether the node is a utility of the agent: one that the agent owns, alone or with others.
    pub fn is_utility_of(&self, agent: usize, v: usize) -> bool
        requires { v < length self.now.nodes }
        ensures test { result ≡ is_utility_of self.now.nodes agent v }
        ensures utility { IsTrue result ↔ IsUtilityOf self.now.nodes agent v }
    {
        match self.kind(v) {
            Kind::Utility => self.owns(agent, v),
            Kind::Chance | Kind::Decision => false,
        }
    }

    /// The utilities of the agent. It takes no memory.
    pub fn utilities_of(&self, agent: usize) -> NodeSet
        ensures utilities { (v : ℕ) → IsIn result v ↔ IsUtilityOf self.now.nodes agent v }
        ensures tested { (v : ℕ) → v < length self.now.nodes
            → holds result v ≡ is_utility_of self.now.nodes agent v }
        ensures diagram { IsDiagram self.now }
    {
        self.utilities_among(agent, self.utilities())
    }

    /// Those of the nodes that are utilities of the agent. It takes no memory, and looks at each
    /// utility once.
    pub fn utilities_among(&self, agent: usize, nodes: &NodeSet) -> NodeSet
        ensures { (v : ℕ) → IsIn result v
            ↔ (IsIn nodes.now v × IsUtilityOf self.now.nodes agent v) }
    {
        let utilities = nodes.intersection(self.utilities());
        let mut among = NodeSet::empty();
        let mut from = 0;
        'nodes: while let Some(v) = utilities.first_from(from) {
            if self.is_utility_of(agent, v) {
                among.insert(v);
            }
            from = v + 1;
        }
        among
    }
}

/// The goals of the decision: the utilities of its agent that descend from it.
pub fn goals_of(diagram: &Diagram, decision: usize) -> NodeSet
    requires { decision < length diagram.now.nodes }
    ensures { (v : ℕ) → IsIn result v ↔ IsGoal diagram.now.nodes decision v }
{
    let agent = diagram.agent_of(decision);
    let mut below = descendants(diagram, NodeSet::of(decision));
    below.remove(decision);
    diagram.utilities_among(agent, &below)
}
