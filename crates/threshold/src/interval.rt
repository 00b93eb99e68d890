//! The interval on which the answered rules hold.

ghost use Rattle.std.specs.Prelude.{◌≡◌, ◌<◌, ◌^◌, None, IfOk, pos};
ghost use Rattle.first_fault.specs.Answers.{Passes};
ghost use Rattle.maid_model.specs.declared.diagrams.Kind.TheVariants.{Chance};
ghost use Rattle.maid_model.specs.Answers.{IsAnswer, IsFraction};
ghost use Rattle.maid_model.specs.Nodes.{node_at, rows_of, states_of};
ghost use Rattle.relevance_graph.specs.Relevant.{IsRelevance};
ghost use Rattle.rule_solver.specs.Faults.{solve_pass};
ghost use Rattle.threshold.specs.Faults.{span_fault, span_pass};
ghost use Rattle.threshold.specs.Intervals.{IsOnlySpan, StaysPerfect, TellsNow, TellsSpan};

use crate::SpanFault;
use crate::answers::hold_answers;
use crate::ends::find_ends;
use crate::weights::{Place, weight_there};
use maid_laws::answers_are_best;
use maid_model::{Diagram, Ratio, Solved};
use reach_laws::{held_is_perfect, stays_best};
use relevance_graph::Relevance;
use std::alloc::Global;
use whole_num::reduce;

/// A probability and the ends of the interval in which it may move, in lowest terms.
#[derive(Clone, Copy, Debug, PartialEq, Eq)]
pub struct Interval {
    /// The present probability.
    pub now: Ratio,
    /// The least at which the rules hold.
    pub low: Ratio,
    /// The greatest at which they hold.
    pub high: Ratio,
}

/// The fraction in lowest terms.
fn fraction(num: u128, den: u128) -> Ratio
    requires den { 0 < den }
    requires num { num < 2 ^ 127 }
    ensures { IsFraction result (pos num) den }
{
    let (num, den) = reduce(num as i128, den);
    Ratio { num, den }
}

/// How far the probability of the state in the row of the chance node's table may move while the
/// answered rules hold; the other states of the row share the rest in the proportion of their
/// weights. The rules hold where in no row of any decision, rows marked as never reached among
/// them, a state has a greater gain than the answer's choice: against the answered rules where the
/// decision relies on them, and uniform rules elsewhere.
///
/// It makes the two diagrams in which the probability is 0 and 1, over the least common multiple of
/// the table's total and of what the other states weigh. An answer holds at all fractions where its
/// decision doesn't rely on the node's table, as it would on the rule of a decision in the node's
/// place, unless one of its rows may become reached. If all do so, that is all. Else in both
/// diagrams the gains of each other decision are summed, by elimination along the plans of `solve`,
/// and two fractions are compared for each row and state that gains more than the choice in one of
/// the two. Only such a decision is planned, once for both diagrams, and it leaves its workspaces
/// to the next.
///
/// # Errors
///
/// The first of these that holds: `NoOthers` where all other weights of the row are nought, and
/// `WeightBound` where the common multiple passes 2^126 - 1, at this node, or where with it in the
/// place of the table's total a scope passes the weight bound. `NoMemory` may come at any point.
pub fn span(
    alloc: Global,
    diagram: &Diagram,
    relevance: &Relevance,
    solved: &Solved,
    node: usize,
    state: usize,
    row: usize,
) -> Result<Interval, SpanFault>
    // The solver doesn't refuse the diagram, and answers this.
    requires solves { solve_pass diagram.now None }
    requires relevance { IsRelevance diagram.now.nodes relevance.now }
    requires answer { IsAnswer diagram.now solved.now }
    requires chance { (node_at diagram.now.nodes node).kind ≡ Chance }
    requires state { state < states_of diagram.now.nodes node }
    requires row { row < rows_of diagram.now.nodes node }
    ensures rows { Passes span_fault (span_pass diagram.now node state row) result }
    ensures now { IfOk result (TellsNow diagram.now.nodes node state row) }
    // Inside the rules hold, and outside some row has a better state.
    ensures span { IfOk result (TellsSpan diagram.now solved.now node state row) }
    ensures only { IfOk result (IsOnlySpan diagram.now solved.now node state row) }
    // Inside no agent gains by other rules of its own from any subgame start.
    ensures perfect { IfOk result (StaysPerfect diagram.now solved.now node state row) }
{
    // Somewhere the rules hold, in no other interval, and where they do they are subgame-perfect.
    stays_best();
    held_is_perfect();
    answers_are_best();
    let place = Place { node, state, row };
    let ends = find_ends(alloc, diagram, place)?;
    let held = hold_answers(alloc, diagram, relevance, solved, place, &ends)?;
    Ok(Interval {
        now: fraction(weight_there(diagram, place), diagram.weight_total(node)),
        low: fraction(held.low.num, held.low.den),
        high: fraction(held.high.num, held.high.den),
    })
}
