//! The three kinds of plan that a run makes, one after another in the same lists.

ghost use Rattle.std.specs.Prelude.{◌≡◌, ◌<◌, length, IfOk, OnOk};
ghost use Rattle.maid_model.specs.declared.diagrams.Kind.TheVariants.{Utility};
ghost use Rattle.maid_model.specs.Nodes.{IsDecision, node_at};
ghost use Rattle.maid_model.specs.Relevance.{IsGoal};
ghost use Rattle.plan_sums.specs.Plans.{row_plan, worth_plan};
ghost use Rattle.size_precheck.specs.Families.{IsPlanner};
ghost use Rattle.size_precheck.specs.Sizes.{CanBePlanned, CanPlanGain, CanPlanRows, IsGainPlan, IsMade};

use crate::joints::Known;
use crate::planners::Planner;
use crate::plans::{Plan, plan_in};
use maid_model::{Diagram, MOST_PARENTS};
use std::alloc::{AllocError, Global};

/// The plan of a decision's rows, by what is known of the diagram.
pub fn rows_in(
    alloc: Global,
    diagram: &Diagram,
    planner: &Planner,
    left: &mut Option<Known>,
    decision: usize,
) -> Result<Plan, AllocError>
    requires decision { IsDecision diagram.now.nodes decision }
    requires planner { IsPlanner diagram.now.nodes planner.now }
    ensures asked { OnOk result (CanPlanRows diagram.now.nodes decision) }
    ensures made { IfOk result (IsMade diagram.now.nodes (row_plan diagram.now.nodes decision)) }
{
    let parents = diagram.parents(decision);
    let keep = Vec::from_slice(alloc, parents)?;
    plan_in(alloc, diagram, planner, left, keep, None, None)
}

/// The plan of a decision's states for one of its goals, by what is known of the diagram.
pub fn gain_in(
    alloc: Global,
    diagram: &Diagram,
    planner: &Planner,
    left: &mut Option<Known>,
    decision: usize,
    goal: usize,
) -> Result<Plan, AllocError>
    requires decision { IsDecision diagram.now.nodes decision }
    requires goal { IsGoal diagram.now.nodes decision goal }
    requires planner { IsPlanner diagram.now.nodes planner.now }
    ensures asked { OnOk result (CanPlanGain diagram.now.nodes decision goal) }
    ensures made { IfOk result (IsGainPlan diagram.now.nodes decision goal) }
{
    let parents = diagram.parents(decision);
    let mut keep = Vec::with_capacity(alloc, MOST_PARENTS + 1)?;
    keep.push(decision)?;
    keep.extend_from_slice(parents)?;
    plan_in(
        alloc,
        diagram,
        planner,
        left,
        keep,
        Some(decision),
        Some(goal),
    )
}

/// The plan of a utility's worth, by what is known of the diagram: nothing is kept. What it sums to
/// is the utility's part of an expected utility.
pub fn worth_in(
    alloc: Global,
    diagram: &Diagram,
    planner: &Planner,
    left: &mut Option<Known>,
    utility: usize,
) -> Result<Plan, AllocError>
    requires within { utility < length diagram.now.nodes }
    requires kind { (node_at diagram.now.nodes utility).kind ≡ Utility }
    requires planner { IsPlanner diagram.now.nodes planner.now }
    ensures asked { OnOk result (CanBePlanned diagram.now.nodes (worth_plan utility)) }
    ensures made { IfOk result (IsMade diagram.now.nodes (worth_plan utility)) }
{
    let _count = diagram.count();
    let keep = Vec::new(alloc);
    plan_in(alloc, diagram, planner, left, keep, None, Some(utility))
}
