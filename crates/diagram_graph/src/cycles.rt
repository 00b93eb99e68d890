//! The first cycle of lists of parents.

ghost use Rattle.std.specs.Prelude.{ℕ, ◌<◌, length, IfOk};
ghost use Rattle.diagram_graph.specs.Cycles.{IsNodeOrder, IsRingOfParents, ListedArc, TellsCycle, lists_in};

use crate::placing::{Placing, place_all};
use maid_model::Diagram;
use std::alloc::{AllocError, Global};

/// All nodes in an order with parents first: each time the first node in text whose parents all
/// stand before it. It goes over all nodes once for each node, which is a few tens of thousands of
/// looks for the greatest diagram.
///
/// # Errors
///
/// Only where memory runs out.
pub fn topological(alloc: Global, diagram: &Diagram) -> Result<Vec<usize>, AllocError>
    ensures { IfOk result (λ order. IsNodeOrder diagram.now.nodes order.items) }
{
    let nodes = vec![in alloc; true; diagram.count()]?;
    match place_all(alloc, diagram, &nodes)? {
        Placing::Order(order) => Ok(order),
        Placing::Cycle(_) => unreachable!(),
    }
}

/// A directed cycle of the graph in which each node has the parents of its list, if there is one.
/// Nodes without remaining parents are taken away until none is left to take. From the first
/// remaining node it goes each time to the first remaining parent in the node's own list; the cycle
/// is the list from the first visit of the node that comes twice. It goes over all nodes once for
/// each node.
///
/// # Errors
///
/// Only where memory runs out.
pub fn first_cycle(alloc: Global, parents: &[Vec<usize>]) -> Result<Option<Vec<usize>>, AllocError>
    requires { (u v : ℕ) → ListedArc (lists_in parents.now) u v → u < length parents.now }
    ensures cycle { IfOk result (TellsCycle (lists_in parents.now)) }
    ensures ring { IfOk result (IsRingOfParents (lists_in parents.now)) }
{
    let nodes = vec![in alloc; true; parents.len()]?;
    match place_all(alloc, &parents, &nodes)? {
        Placing::Order(_) => Ok(None),
        Placing::Cycle(cycle) => Ok(Some(cycle)),
    }
}
