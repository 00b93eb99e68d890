//! The order of solving, or the relevance cycle.

ghost use Rattle.std.specs.Prelude.{◌≡◌, length, IfOk};
ghost use Rattle.diagram_graph.specs.Cycles.{lists_in};
ghost use Rattle.relevance_graph.specs.Views.{outcome_of};
ghost use Rattle.relevance_graph.specs.Relevant.{IsOutcome, MarksDecisions};
ghost use Rattle.relevance_graph.specs.Steps.{TellsReliance};

use diagram_graph::{Placing, place_all};
use maid_model::Diagram;
use std::alloc::{AllocError, Global};

/// Whether it is a decision, for each node.
fn mark_decisions(alloc: Global, diagram: &Diagram) -> Result<Vec<bool>, AllocError>
    ensures count { IfOk result (λ marks. length marks.items ≡ length diagram.now.nodes) }
    ensures decisions { IfOk result (λ marks. MarksDecisions diagram.now.nodes marks.items) }
{
    let mut marks = vec![in alloc; false; diagram.count()]?;
    for v in 0..diagram.count() {
        marks[v] = diagram.is_decision(v);
    }
    Ok(marks)
}

/// The decisions in order of solving, or the relevance cycle, by what each relies on.
pub(crate) fn place_decisions(
    alloc: Global,
    diagram: &Diagram,
    relied_on: &[Vec<usize>],
) -> Result<Placing, AllocError>
    requires { TellsReliance diagram.now.nodes (length diagram.now.nodes) (lists_in relied_on.now) }
    ensures { IfOk result (λ placing. IsOutcome diagram.now.nodes (outcome_of placing)) }
{
    let decisions = mark_decisions(alloc, diagram)?;
    place_all(alloc, &relied_on, &decisions)
}
