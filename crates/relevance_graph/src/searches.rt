//! Searches that are kept for later diagrams.

ghost use Rattle.std.specs.Prelude.{All, IfOk};
ghost use Rattle.maid_model.specs.Nodes.{IsDecision};
ghost use Rattle.relevance_graph.specs.Kept.{IsKeptSearch, KeepsAllSearches};
ghost use Rattle.relevance_graph.specs.Steps.{IsSearchedFor};

use bayes_ball::{Marks, reach_from_goals};
use maid_model::Diagram;
use std::alloc::{AllocError, Global};

/// A decision, and what the search from its goals marked. It is also that of a diagram in which
/// other nodes have become decisions, as `kept_searches_stand` says.
#[derive(Clone, Copy, Debug)]
pub struct KeptSearch {
    pub decision: usize,
    pub(crate) marks: Marks,
}

/// The searches for the decisions of the diagram, in text order, to be kept for later. It searches
/// once for each.
///
/// # Errors
///
/// Only where memory runs out.
pub fn keep_searches(alloc: Global, diagram: &Diagram) -> Result<Vec<KeptSearch>, AllocError>
    ensures decisions { IfOk result (λ kept. KeepsAllSearches diagram.now.nodes kept.items) }
    ensures kept { IfOk result (λ kept. All (IsKeptSearch diagram.now.nodes) kept.items) }
{
    let mut kept = Vec::new(alloc);
    for decision in 0..diagram.count() {
        if diagram.is_decision(decision) {
            let marks = reach_from_goals(diagram, decision);
            kept.push(KeptSearch { decision, marks })?;
        }
    }
    Ok(kept)
}

/// The marks of the search for a decision: those that are kept of it, or else by a search.
pub(crate) fn marks_of(diagram: &Diagram, kept: &[KeptSearch], decision: usize) -> Marks
    requires decision { IsDecision diagram.now.nodes decision }
    requires kept { All (IsKeptSearch diagram.now.nodes) kept.now }
    ensures { IsSearchedFor diagram.now.nodes decision result }
{
    for known in kept {
        if known.decision == decision {
            return known.marks;
        }
    }
    reach_from_goals(diagram, decision)
}
