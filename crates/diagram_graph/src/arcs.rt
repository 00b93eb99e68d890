//! Arcs into decisions: a diagram with one less.

ghost use Rattle.std.specs.Prelude.{◌≡◌, ◌<◌, ◌↔◌, ◌==◌, not, filter, length, IfOk, OnErr, IsErrOf};
ghost use Rattle.maid_model.specs.Edits.{without_arc};
ghost use Rattle.maid_model.specs.Graph.{Arc};
ghost use Rattle.maid_model.specs.Nodes.{IsDecision};
ghost use Rattle.diagram_graph.specs.Edited.{IsEditedAt, IsWithNodes, LacksArc, PutsBack, without_parent};

use crate::copies::{copy_node, copy_nodes, with_nodes};
use arc_laws::arc_removed;
use maid_model::{Diagram, Node};
use smallvec::SmallVec;
use std::alloc::{AllocError, Global};
use thiserror::Error;

/// Why no arc was removed.
#[derive(Clone, Copy, Debug, PartialEq, Eq, Error)]
pub enum RemoveFault {
    /// There is no such arc.
    #[error("there is no such arc")]
    NotPresent,
    /// Memory ran out, which says nothing of the diagram.
    #[error("out of memory")]
    NoMemory,
}

impl From<AllocError> for RemoveFault {
    ghost use Rattle.diagram_graph.specs.declared.arcs.RemoveFault.TheVariants.{NoMemory};

    ghost from_gives = { λ _ fault. fault ≡ NoMemory };

    fn from(_failed: AllocError) -> RemoveFault {
        RemoveFault::NoMemory
    }
}

fn drop_parent(parents: &mut SmallVec<usize, 4, Global>, parent: usize)
    ensures { parents.new.items ≡ filter (λ u. not (u == parent)) parents.old.items }
{
    parents.retain(|u| *u != parent);
}

fn drop_parent_of(node: &mut Node, parent: usize)
    ensures { node.new ≡ without_parent node.old parent }
{
    drop_parent(&mut node.parents, parent);
}

/// Takes the arc out of the list of nodes. The node's other parents keep their order.
fn drop_arc(nodes: &mut Vec<Node>, from: usize, to: usize)
    requires { to < length nodes.old.items }
    ensures { nodes.new.items ≡ without_arc nodes.old.items from to }
{
    drop_parent_of(&mut nodes[to], from);
}

/// The diagram without the arc into the decision, whose other parents keep their order. It takes
/// the time and the memory of a copy of all cells.
///
/// It is refused exactly where there is no such arc, and else where memory ran out.
pub fn remove_arc(
    alloc: Global,
    diagram: &Diagram,
    from: usize,
    to: usize,
) -> Result<Diagram, RemoveFault>
    requires { IsDecision diagram.now.nodes to }
    ensures less { IfOk result (IsWithNodes diagram.now (without_arc diagram.now.nodes from to)) }
    ensures not_present { IsErrOf result RemoveFault.NotPresent ↔ LacksArc diagram.now from to }
{
    arc_removed();
    if !diagram.parents(to).contains(&from) {
        return Err(RemoveFault::NotPresent);
    }
    let mut nodes = copy_nodes(alloc, diagram)?;
    drop_arc(&mut nodes, from, to);
    Ok(with_nodes(alloc, diagram, nodes)?)
}

/// The diagram without an arc that is there, out of the diagram itself: no node is copied.
///
/// # Errors
///
/// Only where memory runs out.
pub fn lose_arc(
    alloc: Global,
    diagram: Diagram,
    from: usize,
    to: usize,
) -> Result<Diagram, AllocError>
    requires decision { IsDecision diagram.nodes to }
    requires arc { Arc diagram.nodes from to }
    ensures { IfOk result (IsWithNodes diagram (without_arc diagram.nodes from to)) }
{
    arc_removed();
    let agents = diagram.agents();
    let decimals = diagram.decimals();
    let mut nodes = diagram.into_nodes();
    drop_arc(&mut nodes, from, to);
    Diagram::from_nodes(alloc, nodes, agents, decimals)
}

/// Takes the arc into the decision out of the diagram itself, as `remove_arc` does out of a copy,
/// and gives the decision as it was: `Diagram::exchange` puts it back. It takes memory for the
/// decision alone, and looks at no other node.
///
/// # Errors
///
/// Only where memory runs out. The diagram is as it was then.
pub fn remove_arc_in(
    alloc: Global,
    diagram: &mut Diagram,
    from: usize,
    to: usize,
) -> Result<Node, AllocError>
    requires { IsDecision diagram.old.nodes to }
    ensures less { IfOk result
        (IsEditedAt diagram.old (without_arc diagram.old.nodes from to) to diagram.new) }
    ensures back { IfOk result (PutsBack diagram.old to diagram.new) }
    ensures same { OnErr result (diagram.new ≡ diagram.old) }
{
    arc_removed();
    let _count = diagram.count();
    let mut node = copy_node(alloc, diagram.node(to))?;
    drop_parent_of(&mut node, from);
    Ok(diagram.exchange(to, node))
}
