//! What a diagram keeps of its nodes: sets that searches along arcs ask again and again, and the
//! counts of states that sums do.

ghost use Rattle.std.specs.Prelude.{◌≡◌, ℕ, ◌<◌, ◌≤◌, ◌↔◌, Contains, length, slice_set, take, IsTrue};
ghost use Rattle.node_sets.specs.declared.sets.TheConstants.{MOST_NODES};
ghost use Rattle.node_sets.specs.Arcs.{HasParent, HasChild};
ghost use Rattle.node_sets.specs.Sets.{IsIn};
ghost use Rattle.maid_model.specs.Edits.{AreAlike};
ghost use Rattle.maid_model.specs.Graph.{Arc};
ghost use Rattle.maid_model.specs.Nodes.{IsUtility, counts_of, node_at};
ghost use Rattle.maid_model.specs.Relevance.{IsLive};
ghost use Rattle.maid_model.specs.Private.{HasLiveStates, HasRenewed, IsIndexOf};

use crate::diagrams::{Kind, Node};
use node_sets::{ArcSets, MOST_NODES, NodeSet};

/// The sets of a list of nodes, and their counts of states.
#[derive(Clone, Copy, Debug)]
pub(crate) struct NodeIndex {
    pub(crate) arcs: ArcSets,
    /// The nodes that can be on walks.
    pub(crate) live: NodeSet,
    pub(crate) utilities: NodeSet,
    /// How many states each node has, by number; the places behind the last node have 1.
    pub(crate) counts: [usize; MOST_NODES],
}

impl NodeIndex {
    /// The sets and counts of these nodes. It goes over all arcs once.
    pub(crate) fn of(nodes: &[Node]) -> NodeIndex
        requires few { length nodes.now ≤ MOST_NODES }
        requires known { (u v : ℕ) → Arc nodes.now u v → u < length nodes.now }
        ensures { IsIndexOf nodes.now result }
    {
        NodeIndex {
            arcs: arcs_of(nodes),
            live: live_nodes_of(nodes),
            utilities: all_utilities_of(nodes),
            counts: state_counts_of(nodes),
        }
    }

    /// Keeps what it does of these nodes with that one in the place of one that is like it. Where
    /// the parents differ, it goes over those of both.
    pub(crate) fn exchange(&mut self, nodes: &[Node], v: usize, node: &Node)
        requires index { IsIndexOf nodes.now self.old }
        requires few { length nodes.now ≤ MOST_NODES }
        requires within { v < length nodes.now }
        requires alike { AreAlike (node_at nodes.now v) node.now }
        requires known { (u : ℕ) → Contains node.now.parents u → u < length nodes.now }
        ensures { IsIndexOf (slice_set nodes.now v node.now) self.new }
    {
        let before = &nodes[v];
        let parents = node.parents.as_slice();
        if before.parents.as_slice() != parents {
            renew_arcs_into(&mut self.arcs, v, parents);
        }
    }
}

/// Puts arcs into the node from those of the list in the place of the arcs into it.
fn renew_arcs_into(arcs: &mut ArcSets, v: usize, list: &[usize])
    requires node { v < MOST_NODES }
    requires list { (u : ℕ) → Contains list.now u → u < MOST_NODES }
    requires same { (u : ℕ) → HasChild arcs.old u v ↔ HasParent arcs.old u v }
    ensures parents { (u w : ℕ) → HasParent arcs.new u w
        ↔ HasRenewed (HasParent arcs.old) v list.now u w }
    ensures children { (u w : ℕ) → HasChild arcs.new u w
        ↔ HasRenewed (HasChild arcs.old) v list.now u w }
{
    arcs.remove_arcs_into(v);
    arcs.add_arcs_into(v, list);
}

/// The arcs between the nodes.
fn arcs_of(nodes: &[Node]) -> ArcSets
    requires few { length nodes.now ≤ MOST_NODES }
    requires known { (u v : ℕ) → Arc nodes.now u v → u < length nodes.now }
    ensures parents { (u v : ℕ) → HasParent result u v ↔ Arc nodes.now u v }
    ensures children { (u v : ℕ) → HasChild result u v ↔ Arc nodes.now u v }
{
    let mut arcs = ArcSets::none();
    for v in 0..nodes.len() {
        let node = &nodes[v];
        arcs.add_arcs_into(v, node.parents.as_slice());
    }
    arcs
}

fn is_utility(node: &Node) -> bool
    ensures { IsTrue result ↔ (node.now.kind ≡ Kind.Utility) }
{
    match node.kind {
        Kind::Utility => true,
        Kind::Chance | Kind::Decision => false,
    }
}

/// Whether walks can go through a node like this.
fn has_live_states(node: &Node) -> bool
    ensures { IsTrue result ↔ HasLiveStates node.now }
{
    is_utility(node) || node.states > 1
}

/// The nodes that can be on walks.
fn live_nodes_of(nodes: &[Node]) -> NodeSet
    requires { length nodes.now ≤ MOST_NODES }
    ensures { (v : ℕ) → IsIn result v ↔ IsLive nodes.now v }
{
    let mut live = NodeSet::empty();
    for v in 0..nodes.len() {
        if has_live_states(&nodes[v]) {
            live.insert(v);
        }
    }
    live
}

/// The utilities.
fn all_utilities_of(nodes: &[Node]) -> NodeSet
    requires { length nodes.now ≤ MOST_NODES }
    ensures { (v : ℕ) → IsIn result v ↔ IsUtility nodes.now v }
{
    let mut utilities = NodeSet::empty();
    for v in 0..nodes.len() {
        if is_utility(&nodes[v]) {
            utilities.insert(v);
        }
    }
    utilities
}

/// How many states each node has.
fn state_counts_of(nodes: &[Node]) -> [usize; MOST_NODES]
    requires { length nodes.now ≤ MOST_NODES }
    ensures { take (length nodes.now) result ≡ counts_of nodes.now }
{
    let mut counts = [1; MOST_NODES];
    for v in 0..nodes.len() {
        let node = &nodes[v];
        counts[v] = node.states;
    }
    counts
}
