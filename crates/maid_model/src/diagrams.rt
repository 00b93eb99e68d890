//! Nodes and diagrams.

ghost use Rattle.std.specs.Prelude.{◌≡◌, ℕ, ◌<◌, ◌≤◌, ◌↔◌, ◌^◌, length, Contains, IfOk, IsTrue, pos, ◌≤ℤ◌, nat_abs, slice_index_or};
ghost use Rattle.node_sets.specs.Arcs.{HasParent, HasChild};
ghost use Rattle.node_sets.specs.Sets.{IsIn};
ghost use Rattle.maid_model.specs.Diagrams.{IsDiagram};
ghost use Rattle.maid_model.specs.Edits.{AreAlike, with_node};
ghost use Rattle.maid_model.specs.Graph.{Arc};
ghost use Rattle.maid_model.specs.Nodes.{IsDecision, IsOwnedBy, IsUtility, agent_of, decisions_of, counts_of, is_decision, node_at, parents_of, rows_of, states_of};
ghost use Rattle.maid_model.specs.Relevance.{IsLive};
ghost use Rattle.maid_model.specs.Views.{diagram_of};
ghost use Rattle.finite_sums.specs.Sums.{sum_below};
ghost use Rattle.maid_model.specs.Tables.{chance_total};

use crate::indexing::NodeIndex;
use node_sets::{ArcSets, NodeSet};
use smallvec::SmallVec;
use std::alloc::{AllocError, Global};
use std::marker::Model;
use std::mem;

/// What a node is.
#[derive(Clone, Copy, Debug, PartialEq, Eq)]
pub enum Kind {
    Chance,
    Decision,
    Utility,
}

/// A node of a diagram. Its cells stand with the first parent slowest, and a chance node's own
/// state fastest. A chance node has owner 0, a utility one state, and a decision no cells. Where
/// several agents share a utility, `more` has the owners after the first in written order; it is
/// empty at every other node.
#[derive(Debug, Drop)]
pub struct Node {
    pub kind: Kind,
    pub owner: usize,
    pub more: SmallVec<usize, 4, Global>,
    pub states: usize,
    pub parents: SmallVec<usize, 4, Global>,
    pub cells: Vec<i128>,
}

impl Model for Node {
    ghost use Rattle.maid_model.specs.Views.{NodeView};

    ghost Value = { NodeView };

    ghost view = { λ n.
        record {
          kind = n.kind;
          owner = n.owner;
          more = n.more.items;
          states = n.states;
          parents = n.parents.items;
          cells = n.cells.items;
        } };
}

/// An influence diagram. Its nodes are numbered from 0 in text order, its agents from 0 in order of
/// first sight, and its utilities are scaled by ten to the power of `decimals`.
#[derive(Debug, Drop)]
pub struct Diagram {
    nodes: Vec<Node>,
    agents: usize,
    decimals: u32,
    /// In a place of its own, so that a diagram that is moved is small.
    index: Box<NodeIndex>,
}

impl Model for Diagram {
    ghost use Rattle.maid_model.specs.Views.{DiagramView, diagram_of};
    ghost use Rattle.maid_model.specs.Private.{IsIndexed};

    ghost Value = { DiagramView };

    ghost view = { λ d. diagram_of d.nodes.items d.agents d.decimals };

    ghost invariant = { λ d.
        IsIndexed (diagram_of d.nodes.items d.agents d.decimals) d.index.value };
}

impl Diagram {
    /// The diagram of these nodes. It goes over all arcs once, and takes memory for the sets and
    /// counts that it keeps of them, as much whatever the nodes are.
    ///
    /// # Errors
    ///
    /// Only where memory runs out.
    pub fn from_nodes(
        alloc: Global,
        nodes: Vec<Node>,
        agents: usize,
        decimals: u32,
    ) -> Result<Diagram, AllocError>
        requires { IsDiagram (diagram_of nodes.items agents decimals) }
        ensures { IfOk result (λ d. d ≡ diagram_of nodes.items agents decimals) }
    {
        let index = Box::new(alloc, NodeIndex::of(&nodes))?;
        Ok(Diagram {
            nodes,
            agents,
            decimals,
            index,
        })
    }

    /// The nodes, by number. It takes no memory.
    pub fn into_nodes(self) -> Vec<Node>
        ensures nodes { result.items ≡ self.nodes }
        ensures diagram { IsDiagram self }
    {
        self.nodes
    }

    /// Puts the node in the place of one that is like it, and gives that one back. Their parents
    /// may differ. It takes no memory, and looks at the parents of the two and at no other node.
    pub fn exchange(&mut self, v: usize, node: Node) -> Node
        requires within { v < length self.old.nodes }
        requires alike { AreAlike (node_at self.old.nodes v) node }
        requires diagram { IsDiagram (with_node self.old v node) }
        ensures diagram { self.new ≡ with_node self.old v node }
        ensures node { result ≡ node_at self.old.nodes v }
    {
        self.index.exchange(&self.nodes, v, &node);
        mem::replace(&mut self.nodes[v], node)
    }

    /// How many nodes there are. Who must know that what it holds is a diagram calls it for that
    /// clause alone: `let _count = diagram.count();`.
    pub fn count(&self) -> usize
        ensures count { result ≡ length self.now.nodes }
        ensures diagram { IsDiagram self.now }
    {
        self.nodes.len()
    }

    /// The node of that number.
    pub fn node(&self, v: usize) -> &Node
        requires { v < length self.now.nodes }
        ensures node { result.now ≡ node_at self.now.nodes v }
        ensures diagram { IsDiagram self.now }
    {
        &self.nodes[v]
    }

    /// What the node is.
    pub fn kind(&self, v: usize) -> Kind
        requires { v < length self.now.nodes }
        ensures kind { result ≡ (node_at self.now.nodes v).kind }
        ensures diagram { IsDiagram self.now }
    {
        self.nodes[v].kind
    }

    /// Whether the node is a decision.
    pub fn is_decision(&self, v: usize) -> bool
        requires { v < length self.now.nodes }
        ensures kind { result ≡ is_decision (node_at self.now.nodes v).kind }
        ensures decision { IsTrue result ↔ IsDecision self.now.nodes v }
    {
        match self.nodes[v].kind {
            Kind::Decision => true,
            Kind::Chance | Kind::Utility => false,
        }
    }

    /// The number of the decision's agent.
    pub fn agent_of(&self, decision: usize) -> usize
        requires { decision < length self.now.nodes }
        ensures agent { result ≡ agent_of self.now.nodes decision }
        ensures diagram { IsDiagram self.now }
    {
        self.nodes[decision].owner
    }

    /// How many states the node has.
    pub fn states(&self, v: usize) -> usize
        requires { v < length self.now.nodes }
        ensures states { result ≡ states_of self.now.nodes v }
        ensures diagram { IsDiagram self.now }
    {
        self.nodes[v].states
    }

    /// How many states each node has, by number.
    pub fn state_counts(&self) -> &[usize]
        ensures counts { result.now ≡ counts_of self.now.nodes }
        ensures diagram { IsDiagram self.now }
    {
        self.index.counts.split_at(self.nodes.len()).0
    }

    /// The node's parents, in the order of its table.
    pub fn parents(&self, v: usize) -> &[usize]
        requires { v < length self.now.nodes }
        ensures parents { result.now ≡ parents_of self.now.nodes v }
        ensures known { (p : ℕ) → Contains result.now p → p < length self.now.nodes }
        ensures diagram { IsDiagram self.now }
    {
        let node = self.node(v);
        node.parents.as_slice()
    }

    /// The arcs, as each node's set of parents and set of children.
    pub fn arcs(&self) -> &ArcSets
        ensures parents { (u v : ℕ) → HasParent result.now u v ↔ Arc self.now.nodes u v }
        ensures children { (u v : ℕ) → HasChild result.now u v ↔ Arc self.now.nodes u v }
        ensures diagram { IsDiagram self.now }
    {
        &self.index.arcs
    }

    /// The nodes that can be on walks: the utilities, and the others of two states or more.
    pub fn live_nodes(&self) -> &NodeSet
        ensures nodes { (v : ℕ) → IsIn result.now v ↔ IsLive self.now.nodes v }
        ensures diagram { IsDiagram self.now }
    {
        &self.index.live
    }

    /// The utilities of all agents.
    pub fn utilities(&self) -> &NodeSet
        ensures nodes { (v : ℕ) → IsIn result.now v ↔ IsUtility self.now.nodes v }
        ensures diagram { IsDiagram self.now }
    {
        &self.index.utilities
    }

    /// The node's cells.
    pub fn cells(&self, v: usize) -> &[i128]
        requires { v < length self.now.nodes }
        ensures cells { result.now ≡ (node_at self.now.nodes v).cells }
        ensures diagram { IsDiagram self.now }
    {
        self.nodes[v].cells.as_slice()
    }

    /// How many agents there are.
    pub fn agents(&self) -> usize
        ensures agents { result ≡ self.now.agents }
        ensures diagram { IsDiagram self.now }
    {
        self.agents
    }

    /// By which power of ten the utilities are scaled.
    pub fn decimals(&self) -> u32
        ensures decimals { result ≡ self.now.decimals }
        ensures diagram { IsDiagram self.now }
    {
        self.decimals
    }

    /// By what the utilities are scaled: ten to the power of the decimals.
    pub fn scale(&self) -> u128
        ensures scale { result ≡ 10 ^ self.now.decimals }
        ensures some { 0 < result }
    {
        10u128.pow(self.decimals())
    }

    /// Whether the node is a decision of the agent, or a utility that the agent owns, alone or with
    /// others.
    pub fn owns(&self, agent: usize, node: usize) -> bool
        requires { node < length self.now.nodes }
        ensures { IsTrue result ↔ IsOwnedBy self.now.nodes node agent }
    {
        let node = self.node(node);
        match node.kind {
            Kind::Chance => false,
            Kind::Decision | Kind::Utility => {
                node.owner == agent || node.more.as_slice().contains(&agent)
            }
        }
    }

    /// How many rows the node's table or rule has: one for each choice of its parents' states.
    pub fn rows(&self, v: usize) -> usize
        requires { v < length self.now.nodes }
        ensures { result ≡ rows_of self.now.nodes v }
    {
        let mut rows = 1;
        for u in self.parents(v) {
            rows *= self.states(*u);
        }
        rows
    }

    /// The decisions, in text order.
    ///
    /// # Errors
    ///
    /// Only where memory runs out.
    pub fn decisions(&self, alloc: Global) -> Result<Vec<usize>, AllocError>
        ensures { IfOk result (λ decisions. decisions.items ≡ decisions_of self.now.nodes) }
    {
        let mut decisions = Vec::new(alloc);
        for v in 0..self.count() {
            if self.is_decision(v) {
                decisions.push(v)?;
            }
        }
        Ok(decisions)
    }

    /// What each row of the chance node's table adds up to.
    pub fn weight_total(&self, v: usize) -> u128
        requires { (node_at self.now.nodes v).kind ≡ Kind.Chance }
        ensures { result ≡ chance_total self.now.nodes v }
    {
        first_row_total(self.cells(v), self.states(v))
    }
}

/// The sum of the first cells, one for each state.
fn first_row_total(cells: &[i128], states: usize) -> u128
    requires within { states ≤ length cells.now }
    requires not_negative { (i : ℕ) → pos 0 ≤ℤ slice_index_or cells.now i (pos 0) }
    requires fits { nat_abs (sum_below states (λ s. slice_index_or cells.now s (pos 0))) < 2 ^ 127 }
    ensures { result ≡ nat_abs (sum_below states (λ s. slice_index_or cells.now s (pos 0))) }
{
    let mut total: u128 = 0;
    for s in 0..states {
        total += cells[s] as u128;
    }
    total
}
