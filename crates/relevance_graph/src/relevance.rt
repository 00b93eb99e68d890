//! The relevance graph of a diagram.

ghost use Rattle.std.specs.Prelude.{◌≡◌, ◌<◌, ◌↔◌, All, length, IsTrue, IfOk};
ghost use Rattle.relevance_graph.specs.Kept.{IsKeptSearch};
ghost use Rattle.relevance_graph.specs.Relevant.{IsRelevance, TellsOutcome};
ghost use Rattle.relevance_graph.specs.Views.{ReliesTo, relied_on_by};

use crate::placed::place_decisions;
use crate::reliance::list_reliance;
use crate::searches::KeptSearch;
use diagram_graph::Placing;
use maid_model::Diagram;
use std::alloc::{AllocError, Global};
use std::marker::Model;

/// Which decisions rely on which, and the order of solving or the relevance cycle.
#[derive(Debug, Drop)]
pub struct Relevance {
    /// For each node the decisions that it relies on, in text order.
    relied_on: Vec<Vec<usize>>,
    placing: Placing,
}

impl Model for Relevance {
    ghost use Rattle.std.specs.Prelude.{ℕ};
    ghost use Rattle.diagram_graph.specs.Cycles.{lists_in};
    ghost use Rattle.diagram_graph.specs.Needs.{needs_of};
    ghost use Rattle.relevance_graph.specs.Views.{IsRising};
    ghost use Rattle.relevance_graph.specs.Views.{RelevanceView, outcome_of};

    ghost Value = { RelevanceView };

    ghost view = { λ r.
        record { relied_on = lists_in r.relied_on.items; outcome = outcome_of r.placing } };

    ghost invariant = { λ r. (d : ℕ) → IsRising (needs_of (lists_in r.relied_on.items) d) };
}

impl Relevance {
    /// Whether the one node relies on the other: it doesn't where either is no decision of two
    /// states or more. It takes no memory, and searches what the decision relies on by halves.
    pub fn relies(&self, decision: usize, on: usize) -> bool
        requires { decision < length self.now.relied_on }
        ensures { IsTrue result ↔ ReliesTo self.now decision on }
    {
        self.relied_on[decision].binary_search(&on).is_ok()
    }

    /// The decisions on which the node relies, in text order. It takes no memory.
    pub fn relied_on(&self, decision: usize) -> &[usize]
        requires { decision < length self.now.relied_on }
        ensures { result.now ≡ relied_on_by self.now decision }
    {
        &self.relied_on[decision]
    }

    /// The order of solving: each time the first decision in text, all of whose relied-on decisions
    /// stand before it. An `Err` has the relevance cycle where there is no such order of all
    /// decisions: from the first decision that can't be placed it goes each time to the first such
    /// decision on which the last one relies, until one comes twice, and it is the list from the
    /// first visit of that one. It takes no memory.
    pub fn order(&self) -> Result<&[usize], &[usize]>
        ensures { TellsOutcome self.now result }
    {
        match &self.placing {
            Placing::Order(order) => Ok(order),
            Placing::Cycle(cycle) => Err(cycle),
        }
    }
}

/// The relevance graph of the diagram. It searches once for each decision of two states or more,
/// from all utilities of its agent that descend from it, which looks at each node a few times:
/// decisions times nodes in all, and for the order or the cycle at most as many looks as there are
/// nodes times pairs of which one relies on the other.
///
/// # Errors
///
/// Only where memory runs out.
pub fn find_relevance(alloc: Global, diagram: &Diagram) -> Result<Relevance, AllocError>
    ensures { IfOk result (IsRelevance diagram.now.nodes) }
{
    find_relevance_with(alloc, diagram, &[])
}

/// The same where searches are kept: it searches for no decision of which one is. Each decision is
/// looked for among what is kept.
///
/// # Errors
///
/// Only where memory runs out.
pub fn find_relevance_with(
    alloc: Global,
    diagram: &Diagram,
    kept: &[KeptSearch],
) -> Result<Relevance, AllocError>
    requires { All (IsKeptSearch diagram.now.nodes) kept.now }
    ensures { IfOk result (IsRelevance diagram.now.nodes) }
{
    let relied_on = list_reliance(alloc, diagram, kept)?;
    let placing = place_decisions(alloc, diagram, &relied_on)?;
    Ok(Relevance { relied_on, placing })
}
