//! Copies of diagrams, and diagrams with other nodes.

ghost use Rattle.std.specs.Prelude.{◌≡◌, IfOk};
ghost use Rattle.maid_model.specs.Diagrams.{IsDiagram};
ghost use Rattle.diagram_graph.specs.Edited.{with_nodes};

use maid_model::{Diagram, Node};
use smallvec::SmallVec;
use std::alloc::{AllocError, Global};

/// A copy of the node.
pub(crate) fn copy_node(alloc: Global, node: &Node) -> Result<Node, AllocError>
    ensures { IfOk result (λ copy. copy ≡ node.now) }
{
    Ok(Node {
        kind: node.kind,
        owner: node.owner,
        more: SmallVec::from_slice(alloc, node.more.as_slice())?,
        states: node.states,
        parents: SmallVec::from_slice(alloc, node.parents.as_slice())?,
        cells: Vec::from_slice(alloc, node.cells.as_slice())?,
    })
}

/// Copies of all nodes, in their order. They take the time and the memory of all cells.
///
/// # Errors
///
/// Only where memory runs out.
pub fn copy_nodes(alloc: Global, diagram: &Diagram) -> Result<Vec<Node>, AllocError>
    ensures { IfOk result (λ nodes. nodes.items ≡ diagram.now.nodes) }
{
    let mut nodes = Vec::with_capacity(alloc, diagram.count())?;
    for v in 0..diagram.count() {
        nodes.push(copy_node(alloc, diagram.node(v))?)?;
    }
    Ok(nodes)
}

/// The diagram with these nodes in place of its own.
pub(crate) fn with_nodes(
    alloc: Global,
    diagram: &Diagram,
    nodes: Vec<Node>,
) -> Result<Diagram, AllocError>
    requires { IsDiagram (with_nodes diagram.now nodes.items) }
    ensures { IfOk result (λ made. made ≡ with_nodes diagram.now nodes.items) }
{
    Diagram::from_nodes(alloc, nodes, diagram.agents(), diagram.decimals())
}

/// A copy of the diagram. It takes the time and the memory of all cells.
///
/// # Errors
///
/// Only where memory runs out.
pub fn copy_diagram(alloc: Global, diagram: &Diagram) -> Result<Diagram, AllocError>
    ensures { IfOk result (λ copy. copy ≡ diagram.now) }
{
    let nodes = copy_nodes(alloc, diagram)?;
    Diagram::from_nodes(alloc, nodes, diagram.agents(), diagram.decimals())
}
