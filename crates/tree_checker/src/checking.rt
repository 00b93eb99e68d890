//! The check of a finished report.

ghost use Rattle.std.specs.Prelude.{◌≤◌, IfOk};
ghost use Rattle.maid_model.specs.declared.limits.TheConstants.{MOST_LEAVES};
ghost use Rattle.maid_model.specs.Accepted.{IsReliedFirst};
ghost use Rattle.maid_model.specs.Answers.{FitsDiagram};
ghost use Rattle.maid_model.specs.Bounds.{world_count};
ghost use Rattle.maid_model.specs.Scopes.{KeepsScopedBounds};
ghost use Rattle.relevance_graph.specs.Relevant.{IsRelevance};
ghost use Rattle.tree_checker.specs.Sound.{IsSoundIfAccepted};
ghost use Rattle.tree_checker.specs.Verdicts.{IsVerdict};

use crate::gains::first_wrong_gain;
use crate::laws::accepted_reports_are_sound;
use crate::orders::is_relied_first;
use crate::rows::answer_fault;
use crate::verdicts::{Cause, Verdict};
use maid_model::{Diagram, Profile, Solved};
use part_laws::scoped_sums_fit;
use relevance_graph::{Relevance, find_relevance};
use std::alloc::{AllocError, Global};

/// The verdict on a report whose order is right: the answers are looked at in their order, and then
/// the gains.
fn check_answers(
    alloc: Global,
    diagram: &Diagram,
    relevance: &Relevance,
    solved: &Solved,
) -> Result<Verdict, AllocError>
    requires relevance { IsRelevance diagram.now.nodes relevance.now }
    requires fits { FitsDiagram diagram.now solved.now }
    requires order { IsReliedFirst diagram.now.nodes solved.now.order }
    requires bound { KeepsScopedBounds diagram.now }
    ensures { IfOk result (IsVerdict diagram.now solved.now) }
{
    // The rules of answers add up to 1.
    scoped_sums_fit();
    let _count = diagram.count();
    let chosen = Profile::pure(alloc, diagram, &solved.answers)?;
    // The head and the order stand before the answers.
    let mut line = 3;
    for answer in &solved.answers {
        let (decision, rows) = (answer.decision, answer.rows.as_slice());
        if let Some(fault) = answer_fault(alloc, diagram, relevance, &chosen, decision, rows)? {
            return Ok(Verdict::Rejected {
                line: line + 1 + fault.row,
                cause: fault.cause,
            });
        }
        line += 1 + rows.len();
    }
    match first_wrong_gain(alloc, diagram, &chosen, &solved.gains)? {
        None => Ok(Verdict::Accepted),
        Some(agent) => Ok(Verdict::Rejected {
            line: line + agent,
            cause: Cause::Gain,
        }),
    }
}

/// The verdict on a report of the diagram. It is accepted exactly where each decision stands in the
/// order after those that it relies on; each row that its decision's base reaches names a state of
/// greatest gain and its worth; each other row is marked as never reached; and each agent's
/// expected utility is that of the answered rules. Else the verdict names the first line that
/// fails, and why.
///
/// It takes the relevance graph, and for each decision and each agent goes by one walk down the
/// nodes of the part that matters to it: through a node's states once for each choice of states of
/// those before it that has weight. It may be asked where each scope keeps the weight bound and the
/// diagram has no more than 1,048,576 worlds.
///
/// # Errors
///
/// Only where memory runs out.
pub fn check(alloc: Global, diagram: &Diagram, solved: &Solved) -> Result<Verdict, AllocError>
    requires fits { FitsDiagram diagram.now solved.now }
    requires bound { KeepsScopedBounds diagram.now }
    requires leaves { world_count diagram.now.nodes ≤ MOST_LEAVES }
    ensures verdict { IfOk result (IsVerdict diagram.now solved.now) }
    // Whatever is accepted is subgame-perfect.
    ensures sound { IfOk result (IsSoundIfAccepted diagram.now solved.now) }
{
    accepted_reports_are_sound();
    let _count = diagram.count();
    let relevance = find_relevance(alloc, diagram)?;
    if !is_relied_first(diagram, &relevance, &solved.order) {
        return Ok(Verdict::Rejected {
            line: 2,
            cause: Cause::Order,
        });
    }
    check_answers(alloc, diagram, &relevance, solved)
}
