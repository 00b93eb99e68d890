//! What is kept of a diagram for later runs.

ghost use Rattle.std.specs.Prelude.{IfOk, IfSome};
ghost use Rattle.relevance_graph.specs.Relevant.{IsRelevance};
ghost use Rattle.rule_solver.specs.Kept.{IsKeptDiagram, KeepsAllPlans, KeptDiagramsStand, HasAllSearches};

use maid_model::Diagram;
use relevance_graph::{
    KeptSearch, Relevance, find_relevance, find_relevance_with, keep_searches, kept_searches_stand,
};
use size_precheck::{KeptRun, keep_plans, kept_runs_stand};
use std::alloc::{AllocError, Global};

/// What is kept of a diagram for later runs: its plans, and the searches for its decisions. It is
/// also that of a diagram in which other nodes have become decisions, as `kept_diagrams_stand`
/// says.
#[derive(Drop)]
pub struct KeptDiagram {
    pub plans: KeptRun,
    pub searches: Vec<KeptSearch>,
}

/// The plans of the diagram and the searches for its decisions, to be kept for later runs.
///
/// # Errors
///
/// Only where memory runs out.
pub fn keep_diagram(alloc: Global, diagram: &Diagram) -> Result<KeptDiagram, AllocError>
    ensures kept { IfOk result (IsKeptDiagram diagram.now.nodes) }
    // Nothing is left out: the plans of each decision are kept, and the search for it.
    ensures plans { IfOk result (λ kept. KeepsAllPlans diagram.now.nodes kept.plans) }
    ensures searches { IfOk result (HasAllSearches diagram.now.nodes) }
{
    let plans = keep_plans(alloc, diagram)?;
    let searches = keep_searches(alloc, diagram)?;
    Ok(KeptDiagram { plans, searches })
}

/// What is kept of a diagram is also that of another one that keeps all that plans and searches
/// look at.
pub fn kept_diagrams_stand()
    ensures { KeptDiagramsStand }
{
    kept_runs_stand();
    kept_searches_stand();
}

/// The relevance graph of the diagram. It searches for no decision of which that is kept.
pub(crate) fn find_by(
    alloc: Global,
    diagram: &Diagram,
    kept: Option<&KeptDiagram>,
) -> Result<Relevance, AllocError>
    requires { IfSome kept (λ known. IsKeptDiagram diagram.now.nodes known.now) }
    ensures { IfOk result (IsRelevance diagram.now.nodes) }
{
    match kept {
        Some(known) => find_relevance_with(alloc, diagram, &known.searches),
        None => find_relevance(alloc, diagram),
    }
}
