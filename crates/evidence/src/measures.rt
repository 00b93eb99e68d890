//! The plans of a diagram under evidence, and their sizes.

ghost use Rattle.std.specs.Prelude.{◌≡◌, ◌≢◌, ◌≤◌, ◌<◌, length, IfOk, None};
ghost use Rattle.maid_model.specs.declared.diagrams.Kind.TheVariants.{Utility};
ghost use Rattle.maid_model.specs.declared.limits.TheConstants.{COUNT_END};
ghost use Rattle.maid_model.specs.Nodes.{node_at};
ghost use Rattle.maid_model.specs.Placing.{IsRelianceOrder};
ghost use Rattle.size_precheck.specs.Families.{IsPlanner};
ghost use Rattle.size_precheck.specs.Runs.{joined_size};
ghost use Rattle.size_precheck.specs.Sizes.{CanBePlanned};
ghost use Rattle.evidence.specs.Measures.{AddsPlanGiven, AddsUtilities, AddsUtility};
ghost use Rattle.evidence.specs.Plans.{HasFurtherPlans, HasRunPlans, HasUtilityPlans, IsPlanGiven, IsPlanIf};
ghost use Rattle.evidence.specs.Sizes.{IsSizeOfPlans, plan_given};

use maid_model::{COUNT_END, Diagram, Kind};
use rule_solver::orders_list_decisions;
use size_precheck::{Plan, Planner, RunPlans, Size, plan_by, plan_run_by};
use std::alloc::{AllocError, Global};

/// The plans of a diagram in which a node is given, made once and kept, and their size.
#[derive(Drop)]
pub(crate) struct GivenPlans {
    /// Those of the run.
    pub run: RunPlans,
    /// The plan that keeps the node.
    pub alone: Plan,
    /// The same with a utility, at the place of each utility.
    pub utilities: Vec<Option<Plan>>,
    /// The greatest cells of all these plans, and their work together.
    pub size: Size,
}

/// The greater cells of two sizes, and their work together.
fn join_sizes(size: Size, other: Size) -> Size
    requires size { size.work ≤ COUNT_END }
    requires other { other.work ≤ COUNT_END }
    ensures { result ≡ joined_size size other }
{
    Size {
        cells: size.cells.max(other.cells),
        work: (size.work + other.work).min(COUNT_END),
    }
}

/// The plan that keeps the node, perhaps with a utility, and the size with it counted in.
fn add_plan(
    alloc: Global,
    diagram: &Diagram,
    planner: &Planner,
    node: usize,
    utility: Option<usize>,
    size: Size,
) -> Result<(Plan, Size), AllocError>
    requires planner { IsPlanner diagram.now.nodes planner.now }
    requires asked { CanBePlanned diagram.now.nodes (plan_given node utility) }
    requires few { size.work ≤ COUNT_END }
    ensures plan { IfOk result (λ made. IsPlanGiven diagram.now.nodes node utility made.0) }
    ensures size { IfOk result (λ made. AddsPlanGiven diagram.now.nodes node utility size made.1) }
{
    let plan = plan_by(alloc, diagram, planner, &[node], None, utility)?;
    let size = join_sizes(size, plan.size());
    Ok((plan, size))
}

/// The plan that keeps the node with that utility, if it is one, and the size with it counted in.
fn add_utility(
    alloc: Global,
    diagram: &Diagram,
    planner: &Planner,
    node: usize,
    v: usize,
    size: Size,
) -> Result<(Option<Plan>, Size), AllocError>
    requires planner { IsPlanner diagram.now.nodes planner.now }
    requires node { node < length diagram.now.nodes }
    requires kind { (node_at diagram.now.nodes node).kind ≢ Utility }
    requires within { v < length diagram.now.nodes }
    requires few { size.work ≤ COUNT_END }
    ensures plan { IfOk result (λ made. IsPlanIf diagram.now.nodes node v made.0) }
    ensures size { IfOk result (λ made. AddsUtility diagram.now.nodes node v size made.1) }
{
    match diagram.kind(v) {
        Kind::Utility => {
            let (plan, size) = add_plan(alloc, diagram, planner, node, Some(v), size)?;
            Ok((Some(plan), size))
        }
        Kind::Chance | Kind::Decision => Ok((None, size)),
    }
}

/// The plan that keeps the node with each utility, at the place of the utility, and the size with
/// all of them counted in.
fn add_utilities(
    alloc: Global,
    diagram: &Diagram,
    planner: &Planner,
    node: usize,
    size: Size,
) -> Result<(Vec<Option<Plan>>, Size), AllocError>
    requires planner { IsPlanner diagram.now.nodes planner.now }
    requires within { node < length diagram.now.nodes }
    requires kind { (node_at diagram.now.nodes node).kind ≢ Utility }
    requires few { size.work ≤ COUNT_END }
    ensures plans { IfOk result (λ made. HasUtilityPlans diagram.now.nodes node made.0.items) }
    ensures size { IfOk result (λ made. AddsUtilities diagram.now.nodes node size made.1) }
{
    let mut plans = Vec::with_capacity(alloc, diagram.count())?;
    let mut all = size;
    for v in 0..diagram.count() {
        let (plan, more) = add_utility(alloc, diagram, planner, node, v, all)?;
        plans.push(plan)?;
        all = more;
    }
    Ok((plans, all))
}

/// All plans of a diagram in which the node is given: those of the run in this order, the plan that
/// keeps the node, and that plan with each utility. What they share is found once.
pub(crate) fn plan_all(
    alloc: Global,
    diagram: &Diagram,
    order: &[usize],
    node: usize,
) -> Result<GivenPlans, AllocError>
    requires order { IsRelianceOrder diagram.now.nodes order.now }
    requires within { node < length diagram.now.nodes }
    requires kind { (node_at diagram.now.nodes node).kind ≢ Utility }
    ensures plans { IfOk result (HasRunPlans diagram.now.nodes order.now) }
    ensures further { IfOk result (HasFurtherPlans diagram.now.nodes node) }
    ensures size { IfOk result (λ p. IsSizeOfPlans diagram.now.nodes order.now node p.size) }
{
    orders_list_decisions();
    let planner = Planner::new(alloc, diagram)?;
    let run = plan_run_by(alloc, diagram, &planner, order)?;
    let (alone, size) = add_plan(alloc, diagram, &planner, node, None, run.size)?;
    let (utilities, size) = add_utilities(alloc, diagram, &planner, node, size)?;
    Ok(GivenPlans {
        run,
        alone,
        utilities,
        size,
    })
}
