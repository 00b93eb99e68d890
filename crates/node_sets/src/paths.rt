//! Children, parents, descendants and ancestors of a set.

ghost use Rattle.std.specs.Prelude.{ℕ, ◌<◌, ◌↔◌};
ghost use Rattle.node_sets.specs.declared.sets.TheConstants.{MOST_NODES};
ghost use Rattle.node_sets.specs.Sets.{IsIn};
ghost use Rattle.node_sets.specs.Paths.{ParentArc, LeadsFrom, LeadsInto};
ghost use Rattle.node_sets.specs.Steps.{Step, StepsFrom, AreReachedAlong};

use crate::graphs::Graph;
use crate::sets::NodeSet;

/// Along arcs, or back.
#[derive(Clone, Copy)]
enum Way {
    Down,
    Up,
}

/// The nodes to which a step leads from the node.
fn step_from<G: Graph>(graph: &G, way: Way, u: usize) -> NodeSet
    requires { u < MOST_NODES }
    ensures { (v : ℕ) → IsIn result v ↔ Step (G.parents_of graph.now) way u v }
{
    match way {
        Way::Down => graph.child_set(u),
        Way::Up => graph.parent_set(u),
    }
}

/// The nodes to which a step leads from one of the set.
fn steps_from<G: Graph>(graph: &G, way: Way, set: &NodeSet) -> NodeSet
    ensures { (v : ℕ) → IsIn result v ↔ StepsFrom (G.parents_of graph.now) way (IsIn set.now) v }
{
    let mut reached = NodeSet::empty();
    let mut from = 0;
    'nodes: while let Some(u) = set.first_from(from) {
        reached = reached.union(&step_from(graph, way, u));
        from = u + 1;
    }
    reached
}

/// The nodes to which steps lead from those of the set, wave by wave: each node is followed once.
fn follow<G: Graph>(graph: &G, way: Way, set: NodeSet) -> NodeSet
    ensures { AreReachedAlong (G.parents_of graph.now) way set result }
{
    let mut reached = set;
    let mut followed = NodeSet::empty();
    'waves: while let Some(_) = reached.difference(&followed).first_from(0) {
        let fresh = reached.difference(&followed);
        followed = reached;
        reached = reached.union(&steps_from(graph, way, &fresh));
    }
    reached
}

/// The nodes that have a parent in the set. It goes through the set once.
pub fn children_of_any<G: Graph>(graph: &G, set: &NodeSet) -> NodeSet
    ensures { (v : ℕ) → IsIn result v
        ↔ ((u : ℕ) × IsIn set.now u × ParentArc (G.parents_of graph.now) u v) }
{
    steps_from(graph, Way::Down, set)
}

/// The nodes that have a child in the set. It goes through the set once.
pub fn parents_of_any<G: Graph>(graph: &G, set: &NodeSet) -> NodeSet
    ensures { (u : ℕ) → IsIn result u
        ↔ ((v : ℕ) × IsIn set.now v × ParentArc (G.parents_of graph.now) u v) }
{
    steps_from(graph, Way::Up, set)
}

/// These nodes, and all to which a path of arcs leads from one of them. It looks once at the
/// children of each.
pub fn descendants<G: Graph>(graph: &G, of: NodeSet) -> NodeSet
    ensures { (v : ℕ) → IsIn result v ↔ LeadsFrom (ParentArc (G.parents_of graph.now)) (IsIn of) v }
{
    follow(graph, Way::Down, of)
}

/// These nodes, and all from which a path of arcs leads to one of them. It looks once at the
/// parents of each.
pub fn ancestors<G: Graph>(graph: &G, of: NodeSet) -> NodeSet
    ensures { (v : ℕ) → IsIn result v ↔ LeadsInto (ParentArc (G.parents_of graph.now)) (IsIn of) v }
{
    follow(graph, Way::Up, of)
}
