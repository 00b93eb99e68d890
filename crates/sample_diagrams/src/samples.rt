//! Nodes whose lists are literals, and the diagrams that they make.

ghost use Rattle.std.specs.Prelude.{◌≡◌, IfOk};
ghost use Rattle.maid_model.specs.Views.{diagram_of};
ghost use Rattle.sample_diagrams.specs.Nodes.{PassesTests, chance_node, decision_node, shared_node, utility_node};

use maid_model::{Diagram, Kind, Node, literals_are_tested};
use smallvec::SmallVec;
use std::alloc::{AllocError, Global};
use std::marker::Model;

/// A node of a diagram whose lists lie elsewhere; its fields are those of [`Node`].
#[derive(Drop)]
pub struct Sample<'a> {
    pub kind: Kind,
    pub owner: usize,
    pub more: &'a [usize],
    pub states: usize,
    pub parents: &'a [usize],
    pub cells: &'a [i128],
}

impl<'a> Model for Sample<'a> {
    ghost use Rattle.maid_model.specs.Views.{NodeView};

    ghost Value = { NodeView };

    ghost view = { λ s.
        record {
          kind = s.kind;
          owner = s.owner;
          more = s.more.now;
          states = s.states;
          parents = s.parents.now;
          cells = s.cells.now;
        } };
}

/// A chance node of so many states, by its parents and its weights.
pub fn chance<'a>(states: usize, parents: &'a [usize], cells: &'a [i128]) -> Sample<'a>
    ensures { result ≡ chance_node states parents.now cells.now }
{
    Sample {
        kind: Kind::Chance,
        owner: 0,
        more: &[],
        states,
        parents,
        cells,
    }
}

/// An agent's decision of so many states, by what it sees.
pub fn decision<'a>(owner: usize, states: usize, parents: &'a [usize]) -> Sample<'a>
    ensures { result ≡ decision_node owner states parents.now }
{
    Sample {
        kind: Kind::Decision,
        owner,
        more: &[],
        states,
        parents,
        cells: &[],
    }
}

/// A utility of one agent, by its parents and its values.
pub fn utility<'a>(owner: usize, parents: &'a [usize], cells: &'a [i128]) -> Sample<'a>
    ensures { result ≡ utility_node owner parents.now cells.now }
{
    shared_utility(owner, &[], parents, cells)
}

/// A utility of an agent and of the further ones `more`, by its parents and its values.
pub fn shared_utility<'a>(
    owner: usize,
    more: &'a [usize],
    parents: &'a [usize],
    cells: &'a [i128],
) -> Sample<'a>
    ensures { result ≡ shared_node owner more.now parents.now cells.now }
{
    Sample {
        kind: Kind::Utility,
        owner,
        more,
        states: 1,
        parents,
        cells,
    }
}

impl<'a> Sample<'a> {
    /// The node itself.
    fn node(&self, alloc: Global) -> Result<Node, AllocError>
        ensures { IfOk result (λ n. n ≡ self.now) }
    {
        Ok(Node {
            kind: self.kind,
            owner: self.owner,
            more: SmallVec::from_slice(alloc, self.more)?,
            states: self.states,
            parents: SmallVec::from_slice(alloc, self.parents)?,
            cells: Vec::from_slice(alloc, self.cells)?,
        })
    }
}

/// The diagram of these nodes, of so many agents, whose utilities are scaled by ten to the power of
/// `decimals`. It copies all lists.
pub fn sample_diagram(
    alloc: Global,
    nodes: &[Sample],
    agents: usize,
    decimals: u32,
) -> Result<Diagram, AllocError>
    requires { PassesTests nodes.now agents decimals }
    ensures { IfOk result (λ d. d ≡ diagram_of nodes.now agents decimals) }
{
    literals_are_tested();
    let mut made = Vec::with_capacity(alloc, nodes.len())?;
    for node in nodes {
        made.push(node.node(alloc)?)?;
    }
    Diagram::from_nodes(alloc, made, agents, decimals)
}
