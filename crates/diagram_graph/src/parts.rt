//! The part of a diagram that some nodes and all their ancestors make.

ghost use Rattle.std.specs.Prelude.{◌≡◌, ℕ, ◌<◌, ◌↔◌, length, map, slice_index, Contains, IfOk};
ghost use Rattle.node_sets.specs.declared.sets.TheConstants.{MOST_NODES};
ghost use Rattle.node_sets.specs.Sets.{IsIn};
ghost use Rattle.maid_model.specs.Graph.{AllDifferent};
ghost use Rattle.maid_model.specs.Parts.{IsAncestral, part_of, place_in, with_ancestors};
ghost use Rattle.diagram_graph.specs.Parts.{HasPartDiagram, HasPartNodes, IsRenumbered, ListsSet};

use crate::copies::{copy_node, with_nodes};
use maid_model::{Diagram, MOST_NODES, Node};
use node_sets::{NodeSet, ancestors};
use part_laws::parts_are_diagrams;
use std::alloc::{AllocError, Global};

/// A part of a diagram, and the numbers that its nodes had there, in text order.
#[derive(Debug, Drop)]
pub struct SubDiagram {
    pub diagram: Diagram,
    pub nodes: Vec<usize>,
}

/// The nodes of the list and all their ancestors.
fn kept_set(diagram: &Diagram, of: &[usize]) -> NodeSet
    requires { (v : ℕ) → Contains of.now v → v < length diagram.now.nodes }
    ensures { (v : ℕ) → IsIn result v ↔ Contains (with_ancestors diagram.now.nodes of.now) v }
{
    parts_are_diagrams();
    let _count = diagram.count();
    let mut set = NodeSet::empty();
    set.insert_all(of);
    ancestors(diagram, set)
}

/// The nodes of the set, in text order.
fn listed(alloc: Global, diagram: &Diagram, set: &NodeSet) -> Result<Vec<usize>, AllocError>
    ensures { IfOk result (λ list. ListsSet diagram.now.nodes set.now list.items) }
{
    let mut list = Vec::new(alloc);
    for v in 0..diagram.count() {
        if set.holds(v) {
            list.push(v)?;
        }
    }
    Ok(list)
}

/// The nodes of the list and all their ancestors, in text order.
fn kept_nodes(alloc: Global, diagram: &Diagram, of: &[usize]) -> Result<Vec<usize>, AllocError>
    requires { (v : ℕ) → Contains of.now v → v < length diagram.now.nodes }
    ensures { IfOk result (λ kept. kept.items ≡ with_ancestors diagram.now.nodes of.now) }
{
    let set = kept_set(diagram, of);
    listed(alloc, diagram, &set)
}

/// At each number of the list its place there.
fn places(kept: &[usize]) -> [usize; MOST_NODES]
    requires small { (v : ℕ) → Contains kept.now v → v < MOST_NODES }
    requires differ { AllDifferent kept.now }
    ensures { (v : ℕ) → Contains kept.now v → slice_index result v ≡ place_in kept.now v }
{
    let mut places = [0; MOST_NODES];
    for (place, v) in kept.iter().enumerate() {
        places[*v] = place;
    }
    places
}

/// Each number's place over the number.
fn put_places(numbers: &mut [usize], places: &[usize; MOST_NODES])
    requires { (u : ℕ) → Contains numbers.old u → u < MOST_NODES }
    ensures { numbers.new ≡ map (slice_index places.now) numbers.old }
{
    for i in 0..numbers.len() {
        numbers[i] = places[numbers[i]];
    }
}

/// The parents' new numbers over the old ones.
fn renumber_parents(node: &mut Node, places: &[usize; MOST_NODES])
    requires { (u : ℕ) → Contains node.old.parents u → u < MOST_NODES }
    ensures { IsRenumbered places.now node.old node.new }
{
    put_places(node.parents.as_mut_slice(), places);
}

/// A copy of the node with its parents' new numbers.
fn renumber(alloc: Global, node: &Node, places: &[usize; MOST_NODES]) -> Result<Node, AllocError>
    requires { (u : ℕ) → Contains node.now.parents u → u < MOST_NODES }
    ensures { IfOk result (IsRenumbered places.now node.now) }
{
    let mut copy = copy_node(alloc, node)?;
    renumber_parents(&mut copy, places);
    Ok(copy)
}

/// The kept nodes with their parents' new numbers.
fn part_nodes(alloc: Global, diagram: &Diagram, kept: &[usize]) -> Result<Vec<Node>, AllocError>
    requires { IsAncestral diagram.now.nodes kept.now }
    ensures { IfOk result (λ nodes. nodes.items ≡ part_of diagram.now.nodes kept.now) }
{
    let _count = diagram.count();
    let places = places(kept);
    let mut nodes = Vec::with_capacity(alloc, kept.len())?;
    for v in kept {
        nodes.push(renumber(alloc, diagram.node(*v), &places)?)?;
    }
    Ok(nodes)
}

/// The part of the diagram that these nodes and all their ancestors make, in text order, with the
/// agents and the decimals of the whole. Where the part has a decision and all utilities of its
/// agent that descend from it, the decision's sums in the whole are those in the part times one
/// factor, the totals of what is left out; and so are an agent's, where the part has all its
/// utilities: `part_laws::law_of_parts`.
///
/// It looks at each node a few times, and takes the time and the memory of a copy of the kept
/// cells.
///
/// # Errors
///
/// Only where memory runs out.
pub fn part(alloc: Global, diagram: &Diagram, of: &[usize]) -> Result<SubDiagram, AllocError>
    requires { (v : ℕ) → Contains of.now v → v < length diagram.now.nodes }
    ensures nodes { IfOk result (HasPartNodes diagram.now of.now) }
    ensures diagram { IfOk result (HasPartDiagram diagram.now of.now) }
{
    parts_are_diagrams();
    let _count = diagram.count();
    let kept = kept_nodes(alloc, diagram, of)?;
    let nodes = part_nodes(alloc, diagram, &kept)?;
    Ok(SubDiagram {
        diagram: with_nodes(alloc, diagram, nodes)?,
        nodes: kept,
    })
}
