//! A whole diagram, solved decision by decision.

ghost use Rattle.std.specs.Prelude.{◌≡◌, ◌≤◌, IfOk, OnOk};
ghost use Rattle.first_fault.specs.Answers.{Passes};
ghost use Rattle.maid_model.specs.Answers.{IsAnswer, KeepsWorth};
ghost use Rattle.maid_model.specs.Diagrams.{IsDiagram};
ghost use Rattle.maid_model.specs.declared.limits.TheConstants.{MOST_PLAN_CELLS};
ghost use Rattle.maid_model.specs.Placing.{IsRelianceOrder};
ghost use Rattle.maid_model.specs.Scopes.{KeepsScopedBounds};
ghost use Rattle.maid_model.specs.Values.{PrintsOptima};
ghost use Rattle.relevance_graph.specs.Relevant.{IsRelevance};
ghost use Rattle.size_precheck.specs.Decisions.{ArePlans};
ghost use Rattle.rule_solver.specs.Faults.{solve_fault, solve_pass};
ghost use Rattle.rule_solver.specs.Rooms.{AreReadyForRun, HasRoomForRun};
ghost use Rattle.size_precheck.specs.Sizes.{ArePlansOfWorths};
ghost use Rattle.rule_solver.specs.Solved.{HasOptimalProfile, HasPerfectProfile};

use crate::SolveFault;
use crate::answering::answer_all;
use crate::limits::{keep_bound, keep_sizes};
use crate::spaces::Workspaces;
use crate::worths::expected_along;
use maid_laws::{
    answers_are_optimal, answers_are_subgame_perfect, gains_are_optima, worth_under_the_profile,
};
use maid_model::{Diagram, Profile, Solved};
use part_laws::scoped_sums_fit;
use relevance_graph::{Relevance, find_relevance};
use size_precheck::RunPlans;
use std::alloc::{AllocError, Global};

/// What `solve` tells of a diagram whose decisions have this order of solving, by the plans of its
/// run, in workspaces with room for the largest of them.
///
/// The plans, as `size_precheck::plan_run` makes them, and the workspaces are the caller's, who may
/// run further plans in these. They are left as they were found. It may be asked where each scope
/// keeps the weight bound.
///
/// # Errors
///
/// Only where memory runs out.
pub fn solve_by(
    alloc: Global,
    diagram: &Diagram,
    relevance: &Relevance,
    order: &[usize],
    run: &RunPlans,
    spaces: &mut Workspaces,
) -> Result<Solved, AllocError>
    requires bound { KeepsScopedBounds diagram.now }
    requires relevance { IsRelevance diagram.now.nodes relevance.now }
    requires order { IsRelianceOrder diagram.now.nodes order.now }
    requires plans { ArePlans diagram.now.nodes order.now run.now.decisions.items }
    requires worths { ArePlansOfWorths diagram.now.nodes run.now.worths.items }
    requires ready { AreReadyForRun diagram.now.nodes spaces.old }
    ensures ok { IfOk result (IsAnswer diagram.now) }
    ensures again { OnOk result (spaces.new ≡ spaces.old) }
{
    scoped_sums_fit();
    let answers = answer_all(alloc, diagram, relevance, order, &run.decisions, spaces)?;
    let profile = Profile::pure(alloc, diagram, &answers)?;
    let gains = expected_along(alloc, diagram, &profile, &run.worths, spaces)?;
    Ok(Solved {
        order: Vec::from_slice(alloc, order)?,
        answers,
        gains,
    })
}

/// The answer of a diagram whose decisions have this order of solving, by the plans of its run. The
/// workspaces are reserved once.
fn solve_along(
    alloc: Global,
    diagram: &Diagram,
    relevance: &Relevance,
    order: &[usize],
    run: &RunPlans,
) -> Result<Solved, AllocError>
    requires bound { KeepsScopedBounds diagram.now }
    requires relevance { IsRelevance diagram.now.nodes relevance.now }
    requires order { IsRelianceOrder diagram.now.nodes order.now }
    requires plans { ArePlans diagram.now.nodes order.now run.now.decisions.items }
    requires worths { ArePlansOfWorths diagram.now.nodes run.now.worths.items }
    requires room { HasRoomForRun diagram.now.nodes run.now.size.cells }
    requires limit { run.now.size.cells ≤ MOST_PLAN_CELLS }
    ensures { IfOk result (IsAnswer diagram.now) }
{
    let cells = run.size.cells as usize;
    let mut spaces = Workspaces::reserve(alloc, cells)?;
    solve_by(alloc, diagram, relevance, order, run, &mut spaces)
}

/// The answer of a diagram within the limits, or the first of them that it doesn't keep.
fn solve_ordered(
    alloc: Global,
    diagram: &Diagram,
    relevance: &Relevance,
    order: &[usize],
) -> Result<Solved, SolveFault>
    requires relevance { IsRelevance diagram.now.nodes relevance.now }
    requires order { IsRelianceOrder diagram.now.nodes order.now }
    ensures rows { Passes solve_fault (solve_pass diagram.now) result }
    ensures ok { IfOk result (IsAnswer diagram.now) }
    ensures diagram { IfOk result (λ solved. IsDiagram diagram.now) }
{
    keep_bound(diagram)?;
    let run = keep_sizes(alloc, diagram, order, None)?;
    Ok(solve_along(alloc, diagram, relevance, order, &run)?)
}

/// What `solve` tells of a diagram whose relevance graph is known, with the same refusals.
pub fn solve_by_relevance(
    alloc: Global,
    diagram: &Diagram,
    relevance: &Relevance,
) -> Result<Solved, SolveFault>
    requires { IsRelevance diagram.now.nodes relevance.now }
    ensures rows { Passes solve_fault (solve_pass diagram.now) result }
    ensures ok { IfOk result (IsAnswer diagram.now) }
    ensures subgame_perfect { IfOk result (HasPerfectProfile diagram.now) }
    ensures optimal { IfOk result (HasOptimalProfile diagram.now) }
    ensures optimum { IfOk result (PrintsOptima diagram.now) }
    ensures worth { IfOk result (KeepsWorth diagram.now) }
{
    answers_are_subgame_perfect();
    answers_are_optimal();
    gains_are_optima();
    worth_under_the_profile();
    match relevance.order() {
        Ok(order) => solve_ordered(alloc, diagram, relevance, order),
        Err(cycle) => Err(SolveFault::Cycle {
            list: Vec::from_slice(alloc, cycle)?,
        }),
    }
}

/// The answer of a diagram: the order of solving, at each decision the first best state in each row
/// against the decision's base, and what the plan is worth to each agent.
///
/// It takes the relevance graph, and sums by variable elimination: one plan for each decision's
/// rows, one for each decision and each utility of its agent that descends from it, and one for
/// each utility. Their work is what `size_precheck::measure` counts. The plans are made once, and
/// kept until they are run; workspaces are reserved once: of small and of wide cells with the most
/// cells of a plan, and of pairs, in which several goals of a decision are summed together where
/// that is less work.
///
/// # Errors
///
/// The first of these that holds: `Cycle` where the relevance graph has one, `WeightBound` where a
/// scope passes the weight bound, and `TooLarge` where a plan has more than 4,194,304 cells, or all
/// plans together have more than 134,217,728 steps of work. `NoMemory` may come at any point.
pub fn solve(alloc: Global, diagram: &Diagram) -> Result<Solved, SolveFault>
    // An answer where nothing refuses the diagram, and else the first refusal that applies.
    ensures rows { Passes solve_fault (solve_pass diagram.now) result }
    ensures ok { IfOk result (IsAnswer diagram.now) }
    // From no subgame start does an agent gain by other rules of its own.
    ensures subgame_perfect { IfOk result (HasPerfectProfile diagram.now) }
    // No profile is worth more to an agent that owns all decisions.
    ensures optimal { IfOk result (HasOptimalProfile diagram.now) }
    // So what is printed for such an agent is the optimum of the diagram.
    ensures optimum { IfOk result (PrintsOptima diagram.now) }
    // In a row of a live decision that the answered profile reaches, the printed worth is also that
    // under the profile.
    ensures worth { IfOk result (KeepsWorth diagram.now) }
{
    let relevance = find_relevance(alloc, diagram)?;
    solve_by_relevance(alloc, diagram, &relevance)
}
