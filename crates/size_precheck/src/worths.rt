//! The plans of the utilities' worths.

ghost use Rattle.std.specs.Prelude.{IfOk};
ghost use Rattle.size_precheck.specs.Families.{IsPlanner};
ghost use Rattle.size_precheck.specs.Sizes.{ArePlansOfWorths};

use crate::joints::Known;
use crate::kinds::worth_in;
use crate::planners::Planner;
use crate::plans::Plan;
use maid_model::{Diagram, Kind};
use std::alloc::{AllocError, Global};

/// The plans of the utilities' worths in text order, by what is known of the diagram. They are made
/// in the lists that are left of an earlier plan, where there are some, and leave them to the next.
pub(crate) fn worths_in(
    alloc: Global,
    diagram: &Diagram,
    planner: &Planner,
    left: &mut Option<Known>,
) -> Result<Vec<Plan>, AllocError>
    requires { IsPlanner diagram.now.nodes planner.now }
    ensures { IfOk result (λ plans. ArePlansOfWorths diagram.now.nodes plans.items) }
{
    let mut plans = Vec::new(alloc);
    for u in 0..diagram.count() {
        match diagram.kind(u) {
            Kind::Utility => plans.push(worth_in(alloc, diagram, planner, left, u)?)?,
            Kind::Chance | Kind::Decision => {}
        }
    }
    Ok(plans)
}

/// The plans of the worths of all utilities in text order. What they share is found once;
/// `make_plan` tells what each of them costs.
pub fn plan_worths(alloc: Global, diagram: &Diagram) -> Result<Vec<Plan>, AllocError>
    ensures { IfOk result (λ plans. ArePlansOfWorths diagram.now.nodes plans.items) }
{
    let planner = Planner::new(alloc, diagram)?;
    worths_in(alloc, diagram, &planner, &mut None)
}
