//! Names of nodes, states and agents.

ghost use Rattle.std.specs.Prelude.{◌≡◌, ◌<◌, length, Contains, IfSome, IfNone};
ghost use Rattle.maid_model.specs.Names.{IsFirstPlace, agent_name, label_of, labels_of, list_of, name_of, names_in};

use std::marker::Model;

/// The names of a diagram's nodes, a list of labels for each node, and the names of its agents, all
/// as bytes.
#[derive(Debug, Drop)]
pub struct Names {
    nodes: Vec<Vec<u8>>,
    labels: Vec<Vec<Vec<u8>>>,
    agents: Vec<Vec<u8>>,
}

impl Model for Names {
    ghost use Rattle.maid_model.specs.Names.{NamesView, names_in};

    ghost Value = { NamesView };

    ghost view = { λ n. names_in n.nodes.items n.labels.items n.agents.items };
}

/// The first place of the name in the list. It compares the name with each before it.
pub fn first_place(names: &[Vec<u8>], name: &[u8]) -> Option<usize>
    ensures some { IfSome result (IsFirstPlace (list_of names.now) name.now) }
    ensures none { IfNone result (¬ Contains (list_of names.now) name.now) }
{
    for (place, other) in names.iter().enumerate() {
        if other.as_slice() == name {
            return Some(place);
        }
    }
    None
}

impl Names {
    /// These names. It takes no memory.
    pub fn from_lists(nodes: Vec<Vec<u8>>, labels: Vec<Vec<Vec<u8>>>, agents: Vec<Vec<u8>>) -> Names
        ensures { result ≡ names_in nodes.items labels.items agents.items }
    {
        Names {
            nodes,
            labels,
            agents,
        }
    }

    /// The name of the node of that number.
    pub fn name(&self, node: usize) -> &[u8]
        requires { node < length self.now.nodes }
        ensures { result.now ≡ name_of self.now node }
    {
        self.nodes[node].as_slice()
    }

    /// The label of that state of the node.
    pub fn label(&self, node: usize, state: usize) -> &[u8]
        requires node { node < length self.now.labels }
        requires state { state < length (labels_of self.now node) }
        ensures { result.now ≡ label_of self.now node state }
    {
        self.labels[node][state].as_slice()
    }

    /// The name of the agent of that number.
    pub fn agent(&self, agent: usize) -> &[u8]
        requires { agent < length self.now.agents }
        ensures { result.now ≡ agent_name self.now agent }
    {
        self.agents[agent].as_slice()
    }

    /// The number of the agent of that name, the first where several have it. It compares the name
    /// with each.
    pub fn find_agent(&self, name: &[u8]) -> Option<usize>
        ensures some { IfSome result (IsFirstPlace self.now.agents name.now) }
        ensures none { IfNone result (¬ Contains self.now.agents name.now) }
    {
        first_place(&self.agents, name)
    }
}
