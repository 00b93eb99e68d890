//! The limits that a diagram must keep to be solved.

ghost use Rattle.std.specs.Prelude.{◌≤◌, ◌↔◌, IsTrue, IfOk, IfSome};
ghost use Rattle.first_fault.specs.Answers.{Passes};
ghost use Rattle.maid_model.specs.Diagrams.{IsDiagram};
ghost use Rattle.maid_model.specs.Placing.{IsRelianceOrder};
ghost use Rattle.size_precheck.specs.Decisions.{ArePlans};
ghost use Rattle.size_precheck.specs.Sizes.{IsSizeOfRun, ListsDecisions, ArePlansOfWorths};
ghost use Rattle.rule_solver.specs.Faults.{KeepsPlanLimits, bound_pass, size_pass, solve_fault};
ghost use Rattle.rule_solver.specs.Kept.{IsKeptDiagram};
ghost use Rattle.rule_solver.specs.Rooms.{HasRoomForRun};

use crate::SolveFault;
use crate::keeping::KeptDiagram;
use crate::laws::counted_plans_have_room;
use maid_model::{Diagram, MOST_PLAN_CELLS, MOST_WORK};
use size_precheck::{RunPlans, Size, plan_run, plan_run_with, sizes_of_plans};
use std::alloc::{AllocError, Global};
use weight_scale::{BoundPlace, bound};

/// Refuses a diagram of which the scope of a decision or of an agent doesn't keep the weight bound.
///
/// # Errors
///
/// The weight bound, at the first place that breaks it.
pub fn keep_bound(diagram: &Diagram) -> Result<(), SolveFault>
    ensures rows { Passes solve_fault (bound_pass diagram.now) result }
    ensures diagram { IsDiagram diagram.now }
{
    match bound(diagram) {
        BoundPlace::Within => Ok(()),
        BoundPlace::Node(v) => Err(SolveFault::WeightBound { node: Some(v) }),
        BoundPlace::Utilities => Err(SolveFault::WeightBound { node: None }),
    }
}

/// Whether a size is within the limits of cells and of work.
pub fn keeps_plan_limits(size: &Size) -> bool
    ensures { IsTrue result ↔ KeepsPlanLimits size.now }
{
    size.cells <= MOST_PLAN_CELLS as u128 && size.work <= MOST_WORK
}

/// The plans of the run that solves the decisions in this order, and its size. Those that are kept
/// are copied.
fn plan_by(
    alloc: Global,
    diagram: &Diagram,
    order: &[usize],
    kept: Option<&KeptDiagram>,
) -> Result<RunPlans, AllocError>
    requires order { ListsDecisions diagram.now.nodes order.now }
    requires kept { IfSome kept (λ known. IsKeptDiagram diagram.now.nodes known.now) }
    ensures plans { IfOk result (λ run. ArePlans diagram.now.nodes order.now run.decisions.items) }
    ensures worths { IfOk result (λ run. ArePlansOfWorths diagram.now.nodes run.worths.items) }
    ensures size { IfOk result (λ run. IsSizeOfRun diagram.now.nodes order.now run.size) }
{
    match kept {
        Some(known) => plan_run_with(alloc, diagram, order, &known.plans),
        None => plan_run(alloc, diagram, order),
    }
}

/// The plans of the run that solves the decisions in this order, those that are kept among them,
/// and its size. Refuses one that is too large.
pub(crate) fn keep_sizes(
    alloc: Global,
    diagram: &Diagram,
    order: &[usize],
    kept: Option<&KeptDiagram>,
) -> Result<RunPlans, SolveFault>
    requires order { IsRelianceOrder diagram.now.nodes order.now }
    requires kept { IfSome kept (λ known. IsKeptDiagram diagram.now.nodes known.now) }
    ensures rows { Passes solve_fault (size_pass diagram.now) result }
    ensures plans { IfOk result (λ run. ArePlans diagram.now.nodes order.now run.decisions.items) }
    ensures worths { IfOk result (λ run. ArePlansOfWorths diagram.now.nodes run.worths.items) }
    ensures room { IfOk result (λ run. HasRoomForRun diagram.now.nodes run.size.cells) }
    ensures limit { IfOk result (λ run. run.size.cells ≤ MOST_PLAN_CELLS) }
{
    sizes_of_plans();
    counted_plans_have_room();
    let plans = plan_by(alloc, diagram, order, kept)?;
    if !keeps_plan_limits(&plans.size) {
        return Err(SolveFault::TooLarge {
            cells: plans.size.cells,
            work: plans.size.work,
        });
    }
    Ok(plans)
}
