//! Arcs into decisions: a diagram with one more.

ghost use Rattle.std.specs.Prelude.{◌≡◌, ◌≢◌, ◌<◌, ◌↔◌, ◌++◌, [], ◌∷◌, length, IsTrue, IfOk, OnOk, OnErr, IsErrOf};
ghost use Rattle.maid_model.specs.declared.diagrams.Kind.TheVariants.{Utility};
ghost use Rattle.maid_model.specs.Edits.{with_arc};
ghost use Rattle.maid_model.specs.Graph.{Arc, IsPath};
ghost use Rattle.maid_model.specs.Nodes.{IsDecision, node_at};
ghost use Rattle.diagram_graph.specs.Edited.{ClosesCycle, IsEditedAt, IsWithNodes, PutsBack, with_parents};
ghost use Rattle.diagram_graph.specs.Room.{IsArcTooLarge, RulesFit};

use crate::copies::{copy_node, copy_nodes, with_nodes};
use crate::room::{cells_at, rule_cells};
use maid_model::{Diagram, MOST_CELLS, MOST_PARENTS, MOST_RULE_CELLS, Node};
use node_sets::{NodeSet, descendants};
use smallvec::SmallVec;
use std::alloc::{AllocError, Global};
use thiserror::Error;

/// Why no arc was added.
#[derive(Clone, Copy, Debug, PartialEq, Eq, Error)]
pub enum AddFault {
    /// The arc is there.
    #[error("the arc is there")]
    Present,
    /// The arc would lead from the decision itself or from a node that descends from it.
    #[error("the arc would close a cycle")]
    WouldCycle,
    /// The decision would have too many parents or its rule too many cells, or all rules together
    /// would.
    #[error("too many parents or cells of rules")]
    TooLarge,
    /// Memory ran out, which says nothing of the diagram.
    #[error("out of memory")]
    NoMemory,
}

impl From<AllocError> for AddFault {
    ghost use Rattle.diagram_graph.specs.declared.adding.AddFault.TheVariants.{NoMemory};

    ghost from_gives = { λ _ fault. fault ≡ NoMemory };

    fn from(_failed: AllocError) -> AddFault {
        AddFault::NoMemory
    }
}

fn push_parent(parents: &mut SmallVec<usize, 4, Global>, parent: usize) -> Result<(), AllocError>
    ensures { OnOk result (parents.new.items ≡ parents.old.items ++ parent ∷ []) }
{
    parents.push(parent)?;
    Ok(())
}

fn push_parent_of(node: &mut Node, parent: usize) -> Result<(), AllocError>
    ensures { OnOk result (node.new ≡ with_parents node.old (node.old.parents ++ parent ∷ [])) }
{
    push_parent(&mut node.parents, parent)
}

/// Puts the arc into the list of nodes, as the node's last parent.
fn put_arc(nodes: &mut Vec<Node>, from: usize, to: usize) -> Result<(), AllocError>
    requires { to < length nodes.old.items }
    ensures { OnOk result (nodes.new.items ≡ with_arc nodes.old.items from to) }
{
    push_parent_of(&mut nodes[to], from)
}

/// Whether a path of nought or more arcs leads from the one node to the other.
fn leads(diagram: &Diagram, from: usize, to: usize) -> bool
    requires from { from < length diagram.now.nodes }
    requires to { to < length diagram.now.nodes }
    ensures { IsTrue result ↔ IsPath (Arc diagram.now.nodes) from to }
{
    let _count = diagram.count();
    descendants(diagram, NodeSet::of(from)).holds(to)
}

/// Whether the decision's parents and the cells of rules stay few enough with the arc.
fn has_room(diagram: &Diagram, from: usize, to: usize) -> bool
    requires decision { IsDecision diagram.now.nodes to }
    requires from { from < length diagram.now.nodes }
    ensures { IsTrue result ↔ RulesFit (with_arc diagram.now.nodes from to) to }
{
    let seen = diagram.parents(to).len();
    if seen >= MOST_PARENTS {
        return false;
    }
    let cells = cells_at(diagram, to);
    let more = cells * diagram.states(from);
    if more > MOST_CELLS {
        return false;
    }
    rule_cells(diagram) + more <= MOST_RULE_CELLS + cells
}

/// Whether an arc into the decision, which is not there and would close no cycle, would make too
/// much of the rules: the decision would have more than 16 parents, its rule more than 65,536
/// cells, or all rules together more than 262,144. It takes no memory, and goes over the parents of
/// all decisions once.
pub fn is_too_large(diagram: &Diagram, from: usize, to: usize) -> bool
    requires decision { IsDecision diagram.now.nodes to }
    requires from { from < length diagram.now.nodes }
    requires absent { Arc diagram.now.nodes from to → ⊥ }
    requires no_cycle { IsPath (Arc diagram.now.nodes) to from → ⊥ }
    ensures { IsTrue result ↔ IsArcTooLarge diagram.now.nodes from to }
{
    !has_room(diagram, from, to)
}

/// The diagram with the arc into the decision, as its last parent. It looks at each node a few
/// times, and takes the time and the memory of a copy of all cells.
///
/// It is refused exactly where the arc is there; else where it would close a cycle; else where the
/// decision would have more than 16 parents, its rule more than 65,536 cells, or all rules together
/// more than 262,144; and else where memory ran out.
pub fn add_arc(
    alloc: Global,
    diagram: &Diagram,
    from: usize,
    to: usize,
) -> Result<Diagram, AddFault>
    requires decision { IsDecision diagram.now.nodes to }
    requires from { from < length diagram.now.nodes }
    requires no_utility { (node_at diagram.now.nodes from).kind ≢ Utility }
    ensures more { IfOk result (IsWithNodes diagram.now (with_arc diagram.now.nodes from to)) }
    ensures present { IsErrOf result AddFault.Present ↔ Arc diagram.now.nodes from to }
    ensures would_cycle { IsErrOf result AddFault.WouldCycle ↔ ClosesCycle diagram.now from to }
    ensures too_large { IsErrOf result AddFault.TooLarge ↔ IsArcTooLarge diagram.now.nodes from to }
{
    if diagram.parents(to).contains(&from) {
        return Err(AddFault::Present);
    }
    if leads(diagram, to, from) {
        return Err(AddFault::WouldCycle);
    }
    if !has_room(diagram, from, to) {
        return Err(AddFault::TooLarge);
    }
    let mut nodes = copy_nodes(alloc, diagram)?;
    put_arc(&mut nodes, from, to)?;
    Ok(with_nodes(alloc, diagram, nodes)?)
}

/// Adds an arc that is not there to the diagram itself, as `add_arc` does to a copy, and gives the
/// decision as it was: `Diagram::exchange` puts it back. It takes memory for the decision alone,
/// and looks at no other node. Where there is room, `is_too_large` tells.
///
/// # Errors
///
/// Only where memory runs out. The diagram is as it was then.
pub fn add_arc_in(
    alloc: Global,
    diagram: &mut Diagram,
    from: usize,
    to: usize,
) -> Result<Node, AllocError>
    requires decision { IsDecision diagram.old.nodes to }
    requires from { from < length diagram.old.nodes }
    requires no_utility { (node_at diagram.old.nodes from).kind ≢ Utility }
    requires absent { Arc diagram.old.nodes from to → ⊥ }
    requires no_cycle { IsPath (Arc diagram.old.nodes) to from → ⊥ }
    requires room { IsArcTooLarge diagram.old.nodes from to → ⊥ }
    ensures more { IfOk result
        (IsEditedAt diagram.old (with_arc diagram.old.nodes from to) to diagram.new) }
    ensures back { IfOk result (PutsBack diagram.old to diagram.new) }
    ensures same { OnErr result (diagram.new ≡ diagram.old) }
{
    let _count = diagram.count();
    let mut node = copy_node(alloc, diagram.node(to))?;
    push_parent_of(&mut node, from)?;
    Ok(diagram.exchange(to, node))
}
