//! The diagram in which every decision sees one chance node.

ghost use Rattle.std.specs.Prelude.{◌≡◌, ◌<◌, ◌↔◌, true, length, IsTrue, IfOk};
ghost use Rattle.first_fault.specs.Answers.{Passes};
ghost use Rattle.maid_model.specs.declared.diagrams.Kind.TheVariants.{Chance};
ghost use Rattle.maid_model.specs.Diagrams.{IsDiagram};
ghost use Rattle.maid_model.specs.Nodes.{IsDecision, node_at};
ghost use Rattle.reach_laws.specs.Evidence.{IsEvidence, all_seeing, all_seeing_diagram, seeing};
ghost use Rattle.evidence.specs.Faults.{given_fault, sight_pass};
ghost use Rattle.evidence.specs.Rules.{IsBelowDecision, KeepsRules};
ghost use Rattle.evidence.specs.Sights.{TellsOwnCells, adds, parents_with};

use crate::faults::GivenFault;
use maid_model::{Diagram, MOST_CELLS, MOST_PARENTS, MOST_RULE_CELLS, Node};
use node_sets::{NodeSet, ancestors};
use reach_laws::seen_everywhere;
use smallvec::SmallVec;
use std::alloc::{AllocError, Global};

/// Whether the node descends from a decision.
fn is_below_decision(diagram: &Diagram, node: usize) -> bool
    requires within { node < length diagram.now.nodes }
    requires kind { (node_at diagram.now.nodes node).kind ≡ Chance }
    ensures { IsTrue result ↔ IsBelowDecision diagram.now.nodes node }
{
    let _count = diagram.count();
    let above = ancestors(diagram, NodeSet::of(node));
    for v in 0..diagram.count() {
        if above.holds(v) && diagram.is_decision(v) {
            return true;
        }
    }
    false
}

/// Whether the node is a decision that doesn't see the other one.
fn adds(diagram: &Diagram, node: usize, v: usize) -> bool
    requires { v < length diagram.now.nodes }
    ensures { result ≡ adds diagram.now.nodes node v }
{
    diagram.is_decision(v) && !diagram.parents(v).contains(&node)
}

/// How many cells the decision's rule has with the node as a parent more; or nothing where it has
/// too many parents or cells then.
fn added_cells(diagram: &Diagram, node: usize, v: usize) -> Option<usize>
    requires node { node < length diagram.now.nodes }
    requires decision { IsDecision diagram.now.nodes v }
    requires added { adds diagram.now.nodes node v ≡ true }
    ensures { TellsOwnCells (all_seeing diagram.now.nodes node) v result }
{
    if diagram.parents(v).len() >= MOST_PARENTS {
        return None;
    }
    let cells = diagram.rows(v) * diagram.states(v) * diagram.states(node);
    if cells > MOST_CELLS {
        return None;
    }
    Some(cells)
}

/// How many cells the node's rule has where it sees the other one, none where it is no decision;
/// or nothing where it has too many parents or cells then.
fn seeing_cells(diagram: &Diagram, node: usize, v: usize) -> Option<usize>
    requires node { node < length diagram.now.nodes }
    requires within { v < length diagram.now.nodes }
    ensures { TellsOwnCells (all_seeing diagram.now.nodes node) v result }
{
    if !diagram.is_decision(v) {
        return Some(0);
    }
    if adds(diagram, node, v) {
        return added_cells(diagram, node, v);
    }
    Some(diagram.rows(v) * diagram.states(v))
}

/// Whether the rules keep their limits where every decision sees the node.
fn keeps_rules(diagram: &Diagram, node: usize) -> bool
    requires { node < length diagram.now.nodes }
    ensures { IsTrue result ↔ KeepsRules (all_seeing diagram.now.nodes node) }
{
    let mut cells = 0;
    for v in 0..diagram.count() {
        match seeing_cells(diagram, node, v) {
            Some(more) => cells += more,
            None => return false,
        }
    }
    cells <= MOST_RULE_CELLS
}

/// The parents, and the other node as the last of them where it is added.
fn parents_seeing(
    alloc: Global,
    parents: &[usize],
    node: usize,
    added: bool,
) -> Result<SmallVec<usize, 4, Global>, AllocError>
    ensures { IfOk result (λ more. more.items ≡ parents_with added parents.now node) }
{
    let mut more = SmallVec::from_slice(alloc, parents)?;
    if added {
        more.push(node)?;
    }
    Ok(more)
}

/// A copy of the node, which sees the other one if it is a decision.
fn node_seeing(alloc: Global, diagram: &Diagram, node: usize, v: usize) -> Result<Node, AllocError>
    requires { v < length diagram.now.nodes }
    ensures { IfOk result (λ copy. copy ≡ seeing node (node_at diagram.now.nodes v)) }
{
    let added = adds(diagram, node, v);
    let old = diagram.node(v);
    Ok(Node {
        kind: old.kind,
        owner: old.owner,
        more: SmallVec::from_slice(alloc, old.more.as_slice())?,
        states: old.states,
        parents: parents_seeing(alloc, old.parents.as_slice(), node, added)?,
        cells: Vec::from_slice(alloc, old.cells.as_slice())?,
    })
}

/// The nodes, of which every decision sees that one.
fn nodes_seeing(alloc: Global, diagram: &Diagram, node: usize) -> Result<Vec<Node>, AllocError>
    ensures { IfOk result (λ nodes. nodes.items ≡ all_seeing diagram.now.nodes node) }
{
    let mut nodes = Vec::with_capacity(alloc, diagram.count())?;
    for v in 0..diagram.count() {
        nodes.push(node_seeing(alloc, diagram, node, v)?)?;
    }
    Ok(nodes)
}

/// The diagram in which every decision sees the node, as its last parent where it didn't see it.
/// It looks at each node a few times, and takes the time and the memory of a copy of all cells.
pub(crate) fn see(alloc: Global, diagram: &Diagram, node: usize) -> Result<Diagram, GivenFault>
    requires within { node < length diagram.now.nodes }
    requires kind { (node_at diagram.now.nodes node).kind ≡ Chance }
    ensures rows { Passes given_fault (sight_pass diagram.now node) result }
    ensures diagram { IfOk result (λ seen. IsDiagram diagram.now) }
    ensures evidence { IfOk result (λ seen. IsEvidence diagram.now.nodes node) }
    ensures seen { IfOk result (λ seen. seen ≡ all_seeing_diagram diagram.now node) }
{
    seen_everywhere();
    if is_below_decision(diagram, node) {
        return Err(GivenFault::BelowDecision);
    }
    if !keeps_rules(diagram, node) {
        return Err(GivenFault::RulesTooLarge);
    }
    let nodes = nodes_seeing(alloc, diagram, node)?;
    Ok(Diagram::from_nodes(alloc, nodes, diagram.agents(), diagram.decimals())?)
}
