//! What a diagram must keep to be updated.

ghost use Rattle.std.specs.Prelude.{◌≡◌, IfOk};
ghost use Rattle.first_fault.specs.Answers.{Passes};
ghost use Rattle.maid_model.specs.Nodes.{decisions_of};
ghost use Rattle.maid_model.specs.Scopes.{KeepsScopedBounds};
ghost use Rattle.policy_update.specs.Faults.{update_bound_pass, owners_pass, update_size_pass, update_fault};
ghost use Rattle.policy_update.specs.Steps.{IsPlannedRun};

use crate::UpdateFault;
use maid_model::Diagram;
use rule_solver::{counted_plans_have_room, keeps_plan_limits};
use size_precheck::{RunPlans, plan_run, sizes_of_plans};
use std::alloc::Global;
use weight_scale::{BoundPlace, bound};

/// Refuses a diagram in which two of the decisions have different owners.
pub(crate) fn keep_one_owner(diagram: &Diagram, decisions: &[usize]) -> Result<(), UpdateFault>
    requires { decisions.now ≡ decisions_of diagram.now.nodes }
    ensures { Passes update_fault (owners_pass diagram.now) result }
{
    for decision in decisions {
        if diagram.agent_of(*decision) != diagram.agent_of(decisions[0]) {
            return Err(UpdateFault::NotOneAgent);
        }
    }
    Ok(())
}

/// Refuses a diagram that doesn't keep the weight bound.
pub(crate) fn keep_bound(diagram: &Diagram) -> Result<(), UpdateFault>
    ensures rows { Passes update_fault (update_bound_pass diagram.now) result }
    ensures bound { IfOk result (λ _. KeepsScopedBounds diagram.now) }
{
    match bound(diagram) {
        BoundPlace::Within => Ok(()),
        BoundPlace::Node(v) => Err(UpdateFault::WeightBound { node: Some(v) }),
        BoundPlace::Utilities => Err(UpdateFault::WeightBound { node: None }),
    }
}

/// The plans of the run over the decisions, and its size. Refuses a diagram in which one of the
/// plans needs too many cells, or all of them together too much work.
pub(crate) fn keep_sizes(
    alloc: Global,
    diagram: &Diagram,
    decisions: &[usize],
) -> Result<RunPlans, UpdateFault>
    requires { decisions.now ≡ decisions_of diagram.now.nodes }
    ensures rows { Passes update_fault (update_size_pass diagram.now) result }
    ensures run { IfOk result (IsPlannedRun diagram.now.nodes) }
{
    sizes_of_plans();
    counted_plans_have_room();
    let plans = plan_run(alloc, diagram, decisions)?;
    if !keeps_plan_limits(&plans.size) {
        return Err(UpdateFault::TooLarge {
            cells: plans.size.cells,
            work: plans.size.work,
        });
    }
    Ok(plans)
}
