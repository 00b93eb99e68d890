//! On which decisions each decision relies.

ghost use Rattle.std.specs.Prelude.{◌<◌, ◌↔◌, All, length, IsTrue, IfOk};
ghost use Rattle.node_sets.specs.declared.sets.TheConstants.{MOST_NODES};
ghost use Rattle.maid_model.specs.Relevance.{ReliesOn};
ghost use Rattle.diagram_graph.specs.Cycles.{lists_in};
ghost use Rattle.relevance_graph.specs.Kept.{IsKeptSearch};
ghost use Rattle.relevance_graph.specs.Steps.{IsLiveDecision, IsSearchedFor, ListsReliance, TellsAllReliance};

use crate::searches::{KeptSearch, marks_of};
use bayes_ball::Marks;
use maid_model::{Diagram, Kind};
use std::alloc::{AllocError, Global};

/// Whether it is a decision of two states or more.
fn is_live_decision(diagram: &Diagram, v: usize) -> bool
    requires { v < length diagram.now.nodes }
    ensures { IsTrue result ↔ IsLiveDecision diagram.now.nodes v }
{
    let node = diagram.node(v);
    match node.kind {
        Kind::Decision => node.states > 1,
        Kind::Chance | Kind::Utility => false,
    }
}

/// Whether the decision relies on the node, by the marks of its search.
fn relies_on(diagram: &Diagram, decision: usize, on: usize, marks: &Marks) -> bool
    requires decision { IsLiveDecision diagram.now.nodes decision }
    requires on { on < length diagram.now.nodes }
    requires small { on < MOST_NODES }
    requires marks { IsSearchedFor diagram.now.nodes decision marks.now }
    ensures { IsTrue result ↔ ReliesOn diagram.now.nodes decision on }
{
    on != decision && marks.reached_parent_of(on) && is_live_decision(diagram, on)
}

/// What the decision relies on, by the marks of its search.
fn list_relied_on(
    alloc: Global,
    diagram: &Diagram,
    decision: usize,
    marks: &Marks,
) -> Result<Vec<usize>, AllocError>
    requires decision { IsLiveDecision diagram.now.nodes decision }
    requires marks { IsSearchedFor diagram.now.nodes decision marks.now }
    ensures { IfOk result (λ list. ListsReliance diagram.now.nodes decision list.items) }
{
    let mut list = Vec::new(alloc);
    for on in 0..diagram.count() {
        if relies_on(diagram, decision, on, marks) {
            list.push(on)?;
        }
    }
    Ok(list)
}

/// What the node relies on, by one search where it is a decision of two states or more, unless that
/// is kept.
fn relied_on_by(
    alloc: Global,
    diagram: &Diagram,
    kept: &[KeptSearch],
    v: usize,
) -> Result<Vec<usize>, AllocError>
    requires kept { All (IsKeptSearch diagram.now.nodes) kept.now }
    requires within { v < length diagram.now.nodes }
    ensures { IfOk result (λ list. ListsReliance diagram.now.nodes v list.items) }
{
    if !is_live_decision(diagram, v) {
        return Ok(Vec::new(alloc));
    }
    let marks = marks_of(diagram, kept, v);
    list_relied_on(alloc, diagram, v, &marks)
}

/// What each node relies on, in text order.
pub(crate) fn list_reliance(
    alloc: Global,
    diagram: &Diagram,
    kept: &[KeptSearch],
) -> Result<Vec<Vec<usize>>, AllocError>
    requires { All (IsKeptSearch diagram.now.nodes) kept.now }
    ensures { IfOk result (λ lists. TellsAllReliance diagram.now.nodes (lists_in lists.items)) }
{
    let mut lists = Vec::with_capacity(alloc, diagram.count())?;
    for v in 0..diagram.count() {
        lists.push(relied_on_by(alloc, diagram, kept, v)?)?;
    }
    Ok(lists)
}
