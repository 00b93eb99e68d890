//! The plans of a decision.

ghost use Rattle.std.specs.Prelude.{◌≡◌, IfOk};
ghost use Rattle.maid_model.specs.Nodes.{IsDecision};
ghost use Rattle.maid_model.specs.Relevance.{IsGoal};
ghost use Rattle.size_precheck.specs.Decisions.{AreDecisionPlans};
ghost use Rattle.size_precheck.specs.Families.{IsPlanner};
ghost use Rattle.size_precheck.specs.Joints.{HoldsOfEach};
ghost use Rattle.size_precheck.specs.Sizes.{AreGainPlans, ArePlansOfGoals};

use crate::joint_orders::joint_order;
use crate::joints::Known;
use crate::kinds::{gain_in, rows_in};
use crate::planners::Planner;
use crate::plans::Plan;
use crate::simulation::list_members;
use maid_model::{Diagram, descent_is_tested, goals_of};
use std::alloc::{AllocError, Global};

/// The plans of one decision.
#[derive(Debug, Drop)]
pub struct DecisionPlans {
    /// That of its rows.
    pub rows: Plan,
    /// Those of its states, one for each of its goals in text order.
    pub goals: Vec<Plan>,
    /// The nodes that these eliminate, each once, in an order in which all goals may be summed
    /// together; empty where that would take longer or have no room. What the sums give does not
    /// depend on it.
    pub joint_order: Vec<usize>,
}

/// Copies of these plans.
pub(crate) fn copy_plans(alloc: Global, plans: &[Plan]) -> Result<Vec<Plan>, AllocError>
    ensures { IfOk result (λ copies. copies.items ≡ plans.now) }
{
    let mut copies = Vec::with_capacity(alloc, plans.len())?;
    for plan in plans {
        copies.push(plan.copy(alloc)?)?;
    }
    Ok(copies)
}

impl DecisionPlans {
    /// A copy of the plans. It takes the memory of their lists.
    pub(crate) fn copy(&self, alloc: Global) -> Result<DecisionPlans, AllocError>
        ensures rows { IfOk result (λ copy. copy.rows ≡ self.now.rows) }
        ensures goals { IfOk result (λ copy. copy.goals.items ≡ self.now.goals.items) }
        ensures order { IfOk result (λ copy. copy.joint_order.items ≡ self.now.joint_order.items) }
    {
        let rows = self.rows.copy(alloc)?;
        let goals = copy_plans(alloc, &self.goals)?;
        Ok(DecisionPlans {
            rows,
            goals,
            joint_order: Vec::from_slice(alloc, &self.joint_order)?,
        })
    }
}

/// The plans of a decision's states, one for each of these goals.
fn gain_plans(
    alloc: Global,
    diagram: &Diagram,
    planner: &Planner,
    left: &mut Option<Known>,
    decision: usize,
    goals: &[usize],
) -> Result<Vec<Plan>, AllocError>
    requires decision { IsDecision diagram.now.nodes decision }
    requires planner { IsPlanner diagram.now.nodes planner.now }
    requires goals { HoldsOfEach (IsGoal diagram.now.nodes decision) goals.now }
    ensures { IfOk result (λ plans. AreGainPlans diagram.now.nodes decision goals.now plans.items) }
{
    let mut plans = Vec::with_capacity(alloc, goals.len())?;
    for goal in goals {
        plans.push(gain_in(alloc, diagram, planner, left, decision, *goal)?)?;
    }
    Ok(plans)
}

/// The plans of a decision's states, one for each of its goals in text order.
fn plan_goals(
    alloc: Global,
    diagram: &Diagram,
    planner: &Planner,
    left: &mut Option<Known>,
    decision: usize,
) -> Result<Vec<Plan>, AllocError>
    requires decision { IsDecision diagram.now.nodes decision }
    requires planner { IsPlanner diagram.now.nodes planner.now }
    ensures { IfOk result (λ plans. ArePlansOfGoals diagram.now.nodes decision plans.items) }
{
    descent_is_tested();
    let goals = list_members(alloc, &goals_of(diagram, decision))?;
    gain_plans(alloc, diagram, planner, left, decision, &goals)
}

/// What `plan_decision_by` tells, made in the lists that are left of an earlier plan, where there
/// are some; it leaves them to the next one.
pub(crate) fn plan_decision_in(
    alloc: Global,
    diagram: &Diagram,
    planner: &Planner,
    left: &mut Option<Known>,
    decision: usize,
) -> Result<DecisionPlans, AllocError>
    requires decision { IsDecision diagram.now.nodes decision }
    requires planner { IsPlanner diagram.now.nodes planner.now }
    ensures { IfOk result (AreDecisionPlans diagram.now.nodes decision) }
{
    let rows = rows_in(alloc, diagram, planner, left, decision)?;
    let goals = plan_goals(alloc, diagram, planner, left, decision)?;
    let joint_order = joint_order(alloc, diagram, planner, left, decision, &goals)?;
    Ok(DecisionPlans {
        rows,
        goals,
        joint_order,
    })
}

/// What `plan_decision` tells, by what all plans of the diagram share.
pub fn plan_decision_by(
    alloc: Global,
    diagram: &Diagram,
    planner: &Planner,
    decision: usize,
) -> Result<DecisionPlans, AllocError>
    requires decision { IsDecision diagram.now.nodes decision }
    requires planner { IsPlanner diagram.now.nodes planner.now }
    ensures { IfOk result (AreDecisionPlans diagram.now.nodes decision) }
{
    plan_decision_in(alloc, diagram, planner, &mut None, decision)
}

/// The plans of a decision: that of its rows, and one for each utility of its agent that descends
/// from it. `make_plan` tells what each of them costs.
pub fn plan_decision(
    alloc: Global,
    diagram: &Diagram,
    decision: usize,
) -> Result<DecisionPlans, AllocError>
    requires { IsDecision diagram.now.nodes decision }
    ensures { IfOk result (AreDecisionPlans diagram.now.nodes decision) }
{
    let planner = Planner::new(alloc, diagram)?;
    plan_decision_by(alloc, diagram, &planner, decision)
}
