//! The plans of a run.

ghost use Rattle.std.specs.Prelude.{◌≡◌, ◌≤◌, IfOk};
ghost use Rattle.maid_model.specs.declared.limits.TheConstants.{COUNT_END};
ghost use Rattle.size_precheck.specs.Decisions.{ArePlans};
ghost use Rattle.size_precheck.specs.Families.{IsPlanner};
ghost use Rattle.size_precheck.specs.Kept.{IsKeptRun};
ghost use Rattle.size_precheck.specs.Runs.{joined_size, IncludesGains, IncludesPlans, IncludesRows, IsSizeOfRunWith};
ghost use Rattle.size_precheck.specs.Sizes.{ListsDecisions, IsSizeOfRun, ArePlansOfWorths};

use crate::decisions::{DecisionPlans, copy_plans};
use crate::keeping::{KeptRun, plan_decisions};
use crate::planners::Planner;
use crate::plans::Plan;
use crate::sizes::Size;
use crate::worths::worths_in;
use maid_model::{COUNT_END, Diagram};
use std::alloc::{AllocError, Global};

/// The greater cells of two sizes, and their work together.
fn join_sizes(size: Size, other: Size) -> Size
    ensures { result ≡ joined_size size other }
{
    Size {
        cells: size.cells.max(other.cells),
        work: size.work.saturating_add(other.work).min(COUNT_END),
    }
}

/// Counts the plans of the decisions' rows in.
fn include_rows(plans: &[DecisionPlans], size: Size) -> Size
    requires { size.work ≤ COUNT_END }
    ensures few { result.work ≤ COUNT_END }
    ensures counted { IncludesRows plans.now size result }
{
    let mut sum = size;
    for decision in plans {
        sum = join_sizes(sum, decision.rows.size());
    }
    sum
}

/// Counts these plans in.
fn include_plans(plans: &[Plan], size: Size) -> Size
    requires { size.work ≤ COUNT_END }
    ensures few { result.work ≤ COUNT_END }
    ensures counted { IncludesPlans plans.now size result }
{
    let mut sum = size;
    for plan in plans {
        sum = join_sizes(sum, plan.size());
    }
    sum
}

/// Counts the plans of all decisions' states in.
fn include_all_goals(plans: &[DecisionPlans], size: Size) -> Size
    requires { size.work ≤ COUNT_END }
    ensures few { result.work ≤ COUNT_END }
    ensures counted { IncludesGains plans.now size result }
{
    let mut sum = size;
    for decision in plans {
        sum = include_plans(&decision.goals, sum);
    }
    sum
}

/// The plans of a run, and its size.
#[derive(Debug, Drop)]
pub struct RunPlans {
    /// Those of each decision of the order.
    pub decisions: Vec<DecisionPlans>,
    /// Those of the utilities' worths, in text order.
    pub worths: Vec<Plan>,
    /// The greatest cells of the run's plans, and their work together.
    pub size: Size,
}

/// The plans of a run, with its size.
fn with_size(decisions: Vec<DecisionPlans>, worths: Vec<Plan>) -> RunPlans
    ensures decisions { result.decisions ≡ decisions }
    ensures worths { result.worths ≡ worths }
    ensures size { IsSizeOfRunWith decisions.items worths.items result.size }
{
    let none = Size { cells: 0, work: 0 };
    let rows = include_rows(&decisions, none);
    let gains = include_all_goals(&decisions, rows);
    let size = include_plans(&worths, gains);
    RunPlans {
        decisions,
        worths,
        size,
    }
}

/// What `plan_run` tells, by what all plans of the diagram share.
pub fn plan_run_by(
    alloc: Global,
    diagram: &Diagram,
    planner: &Planner,
    order: &[usize],
) -> Result<RunPlans, AllocError>
    requires order { ListsDecisions diagram.now.nodes order.now }
    requires planner { IsPlanner diagram.now.nodes planner.now }
    ensures plans { IfOk result (λ run. ArePlans diagram.now.nodes order.now run.decisions.items) }
    ensures worths { IfOk result (λ run. ArePlansOfWorths diagram.now.nodes run.worths.items) }
    ensures size { IfOk result (λ run. IsSizeOfRun diagram.now.nodes order.now run.size) }
{
    let mut left = None;
    let decisions = plan_decisions(alloc, diagram, planner, &mut left, &[], order)?;
    let worths = worths_in(alloc, diagram, planner, &mut left)?;
    Ok(with_size(decisions, worths))
}

/// The plans of a run that solves the decisions in this order, made once and kept, and the size of
/// the run: the greatest cells of its plans, and their work together.
///
/// The plans are one for each decision's rows, one for each decision and each utility of its agent
/// that descends from it, and one for each utility's worth. `make_plan` tells the cost of each;
/// what is kept of one is the list of its kept nodes and that of its steps.
pub fn plan_run(alloc: Global, diagram: &Diagram, order: &[usize]) -> Result<RunPlans, AllocError>
    requires { ListsDecisions diagram.now.nodes order.now }
    ensures plans { IfOk result (λ run. ArePlans diagram.now.nodes order.now run.decisions.items) }
    ensures worths { IfOk result (λ run. ArePlansOfWorths diagram.now.nodes run.worths.items) }
    ensures size { IfOk result (λ run. IsSizeOfRun diagram.now.nodes order.now run.size) }
{
    let planner = Planner::new(alloc, diagram)?;
    plan_run_by(alloc, diagram, &planner, order)
}

/// The same where plans are kept: those are copied, and only those of other decisions are made.
/// Each decision of the order is looked for among what is kept.
pub fn plan_run_with(
    alloc: Global,
    diagram: &Diagram,
    order: &[usize],
    kept: &KeptRun,
) -> Result<RunPlans, AllocError>
    requires order { ListsDecisions diagram.now.nodes order.now }
    requires kept { IsKeptRun diagram.now.nodes kept.now }
    ensures plans { IfOk result (λ run. ArePlans diagram.now.nodes order.now run.decisions.items) }
    ensures worths { IfOk result (λ run. ArePlansOfWorths diagram.now.nodes run.worths.items) }
    ensures size { IfOk result (λ run. IsSizeOfRun diagram.now.nodes order.now run.size) }
{
    let planner = &kept.planner;
    let known = kept.decisions.as_slice();
    let decisions = plan_decisions(alloc, diagram, planner, &mut None, known, order)?;
    let worths = copy_plans(alloc, &kept.worths)?;
    Ok(with_size(decisions, worths))
}

/// The size of a run that solves the decisions in this order: the greatest cells of its plans, and
/// their work together. Each of its plans is made once, as `plan_run` tells, and let go.
pub fn measure(alloc: Global, diagram: &Diagram, order: &[usize]) -> Result<Size, AllocError>
    requires { ListsDecisions diagram.now.nodes order.now }
    ensures { IfOk result (IsSizeOfRun diagram.now.nodes order.now) }
{
    Ok(plan_run(alloc, diagram, order)?.size)
}
