//! Plans that are kept for later runs.

ghost use Rattle.std.specs.Prelude.{◌≡◌, ◌<◌, [], All, IfOk};
ghost use Rattle.maid_model.specs.Nodes.{IsDecision};
ghost use Rattle.size_precheck.specs.Decisions.{AreDecisionPlans, ArePlans};
ghost use Rattle.size_precheck.specs.Families.{IsPlanner};
ghost use Rattle.node_sets.specs.declared.sets.TheConstants.{MOST_NODES};
ghost use Rattle.size_precheck.specs.Kept.{AreWorthsBeside, FollowDecisions, IsFoundInKept, IsKept, IsKeptRun, IsWorthBeside};
ghost use Rattle.size_precheck.specs.Sizes.{ArePlansOfWorths, IsPlanned, ListsDecisions};

use crate::decisions::{DecisionPlans, plan_decision_in};
use crate::joints::Known;
use crate::kinds::worth_in;
use crate::planners::Planner;
use crate::plans::Plan;
use crate::worths::worths_in;
use maid_model::{Diagram, descent_is_tested};
use node_sets::MOST_NODES;
use std::alloc::{AllocError, Global};

/// A decision with its plans. They are also those of a diagram in which other nodes have become
/// decisions, as `kept_plans_stand` says.
#[derive(Debug, Drop)]
pub struct KeptPlans {
    pub decision: usize,
    pub plans: DecisionPlans,
}

/// All that is kept of a diagram's plans for later runs: what they share, those of its decisions,
/// and those of its utilities' worths. They are also those of a diagram in which other nodes have
/// become decisions, as `kept_runs_stand` says.
#[derive(Drop)]
pub struct KeptRun {
    pub(crate) planner: Planner,
    /// In text order.
    pub decisions: Vec<KeptPlans>,
    /// In text order.
    pub worths: Vec<Plan>,
}

/// The plans of each decision of the diagram, in text order, by what is known of it.
fn keep_decisions(
    alloc: Global,
    diagram: &Diagram,
    planner: &Planner,
    left: &mut Option<Known>,
) -> Result<Vec<KeptPlans>, AllocError>
    requires { IsPlanner diagram.now.nodes planner.now }
    ensures decisions { IfOk result (λ kept. FollowDecisions diagram.now.nodes kept.items) }
    ensures kept { IfOk result (λ kept. All (IsKept diagram.now.nodes) kept.items) }
{
    let mut kept = Vec::new(alloc);
    for decision in 0..diagram.count() {
        if diagram.is_decision(decision) {
            let plans = plan_decision_in(alloc, diagram, planner, left, decision)?;
            kept.push(KeptPlans { decision, plans })?;
        }
    }
    Ok(kept)
}

/// The plans of each decision of the diagram and of each utility's worth, to be kept for later
/// runs. `make_plan` tells the cost of each; what is kept of one is the list of its kept nodes and
/// that of its steps.
pub fn keep_plans(alloc: Global, diagram: &Diagram) -> Result<KeptRun, AllocError>
    ensures decisions { IfOk result (λ run. FollowDecisions diagram.now.nodes run.decisions.items) }
    ensures kept { IfOk result (IsKeptRun diagram.now.nodes) }
{
    let planner = Planner::new(alloc, diagram)?;
    let mut left = None;
    let decisions = keep_decisions(alloc, diagram, &planner, &mut left)?;
    let worths = worths_in(alloc, diagram, &planner, &mut left)?;
    Ok(KeptRun {
        planner,
        decisions,
        worths,
    })
}

/// A copy of the plans that are kept of the decision, where some are.
fn copy_kept(
    alloc: Global,
    kept: &[KeptPlans],
    decision: usize,
) -> Result<Option<DecisionPlans>, AllocError>
    ensures { IfOk result (IsFoundInKept kept.now decision) }
{
    for known in kept {
        if known.decision == decision {
            return Ok(Some(known.plans.copy(alloc)?));
        }
    }
    Ok(None)
}

/// The plans of a decision: those that are kept of it, or else made by what is known of the
/// diagram.
fn decision_with(
    alloc: Global,
    diagram: &Diagram,
    planner: &Planner,
    left: &mut Option<Known>,
    kept: &[KeptPlans],
    decision: usize,
) -> Result<DecisionPlans, AllocError>
    requires decision { IsDecision diagram.now.nodes decision }
    requires planner { IsPlanner diagram.now.nodes planner.now }
    requires kept { All (IsKept diagram.now.nodes) kept.now }
    ensures { IfOk result (AreDecisionPlans diagram.now.nodes decision) }
{
    match copy_kept(alloc, kept, decision)? {
        Some(plans) => Ok(plans),
        None => plan_decision_in(alloc, diagram, planner, left, decision),
    }
}

/// The plans of each decision of the order, those that are kept among them.
pub(crate) fn plan_decisions(
    alloc: Global,
    diagram: &Diagram,
    planner: &Planner,
    left: &mut Option<Known>,
    kept: &[KeptPlans],
    order: &[usize],
) -> Result<Vec<DecisionPlans>, AllocError>
    requires order { ListsDecisions diagram.now.nodes order.now }
    requires planner { IsPlanner diagram.now.nodes planner.now }
    requires kept { All (IsKept diagram.now.nodes) kept.now }
    ensures { IfOk result (λ plans. ArePlans diagram.now.nodes order.now plans.items) }
{
    let mut plans = Vec::with_capacity(alloc, order.len())?;
    for decision in order {
        let of_one = decision_with(alloc, diagram, planner, left, kept, *decision)?;
        plans.push(of_one)?;
    }
    Ok(plans)
}

/// The plan of a utility's worth in an edited diagram, by that before the edit. It stays where the
/// node whose parents the edit changed does not lead to the utility, and is made anew where it
/// does.
fn worth_beside(
    alloc: Global,
    diagram: &Diagram,
    planner: &Planner,
    left: &mut Option<Known>,
    before: &Plan,
    changed: usize,
) -> Result<Plan, AllocError>
    requires planner { IsPlanner diagram.now.nodes planner.now }
    requires changed { changed < MOST_NODES }
    requires before { IsWorthBeside diagram.now.nodes changed before.now }
    ensures { IfOk result (IsPlanned diagram.now.nodes before.now.plan) }
{
    descent_is_tested();
    match before.utility() {
        Some(utility) => {
            if planner.families[utility].above.holds(changed) {
                worth_in(alloc, diagram, planner, left, utility)
            } else {
                before.copy(alloc)
            }
        }
        None => unreachable!(),
    }
}

/// The plans of all utilities' worths in an edited diagram, by those before the edit.
fn worths_beside(
    alloc: Global,
    diagram: &Diagram,
    planner: &Planner,
    left: &mut Option<Known>,
    before: &[Plan],
    changed: usize,
) -> Result<Vec<Plan>, AllocError>
    requires planner { IsPlanner diagram.now.nodes planner.now }
    requires changed { changed < MOST_NODES }
    requires before { AreWorthsBeside diagram.now.nodes changed before.now }
    ensures { IfOk result (λ plans. ArePlansOfWorths diagram.now.nodes plans.items) }
{
    let mut plans = Vec::with_capacity(alloc, before.len())?;
    for plan in before {
        let worth = worth_beside(alloc, diagram, planner, left, plan, changed)?;
        plans.push(worth)?;
    }
    Ok(plans)
}

/// What is kept of an edited diagram for one run: the plans of its utilities' worths, and none of
/// its decisions'. The edit changes the parents of one node, and `before` has the plans of the
/// worths before it (`plan_worths`). They are copied where that node does not lead to the utility,
/// and the others are made anew; `make_plan` tells the cost of each.
pub fn keep_edited(
    alloc: Global,
    diagram: &Diagram,
    before: &[Plan],
    changed: usize,
) -> Result<KeptRun, AllocError>
    requires changed { changed < MOST_NODES }
    requires before { AreWorthsBeside diagram.now.nodes changed before.now }
    ensures kept { IfOk result (IsKeptRun diagram.now.nodes) }
    ensures worths_alone { IfOk result (λ run. run.decisions.items ≡ []) }
{
    let planner = Planner::new(alloc, diagram)?;
    let worths = worths_beside(alloc, diagram, &planner, &mut None, before, changed)?;
    Ok(KeptRun {
        planner,
        decisions: Vec::new(alloc),
        worths,
    })
}
