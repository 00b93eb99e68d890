//! What plans that keep one node sum to at a state of the node.

ghost use Rattle.std.specs.Prelude.{◌≡◌, ◌<◌, ◌≤◌, ◌*◌, ◌∷◌, [], length};
ghost use Rattle.cell_rings.specs.Rings.{most_size};
ghost use Rattle.eliminate.specs.Results.{plan_total};
ghost use Rattle.maid_model.specs.Nodes.{states_of};
ghost use Rattle.maid_model.specs.Profiles.{IsProfile};
ghost use Rattle.size_precheck.specs.Sizes.{IsPlanned};
ghost use Rattle.rule_solver.specs.Rooms.{AreReadyForPlan, IsReadyFor};
ghost use Rattle.rule_solver.specs.StateSums.{IsSumAt};
ghost use Rattle.rule_solver.specs.Totals.{HasTotals};

use crate::numbers::Number;
use crate::spaces::Workspaces;
use crate::widths::fits_small;
use eliminate::{RunLists, release, run_plan};
use factor_core::Workspace;
use maid_model::{Diagram, Profile};
use size_precheck::Plan;

/// Runs a plan that keeps one node, in cells that hold all of its numbers, and gives what it sums
/// to at the state.
fn run_at<C: Number>(
    diagram: &Diagram,
    profile: &Profile,
    node: usize,
    state: usize,
    plan: &Plan,
    work: &mut Workspace<C>,
    lists: &mut RunLists,
) -> i128
    requires within { node < length diagram.now.nodes }
    requires state { state < states_of diagram.now.nodes node }
    requires profile { IsProfile diagram.now.nodes profile.now }
    requires keep { plan.now.plan.keep ≡ node ∷ [] }
    requires planned { IsPlanned diagram.now.nodes plan.now.plan plan.now }
    requires ready { IsReadyFor diagram.now.nodes plan.now.plan work.old }
    requires fits { 2 * plan_total diagram.now.nodes profile.now plan.now.plan ≤ C.ring.most }
    ensures sum { IsSumAt diagram.now.nodes profile.now plan.now.plan node state result }
    ensures again { work.new ≡ work.old }
{
    let slot = run_plan(work, lists, plan, diagram, profile);
    let sum = work.at(diagram, &slot, &[state]);
    release(work);
    sum.number()
}

/// What a plan that keeps one node sums to where the node has the state, in the smaller cells where
/// they surely hold its numbers. Without a utility that is a mass, and not below 0. `totals` are
/// those of the diagram and the profile, as `list_totals` lists them.
///
/// The plan is run once, in workspaces with room for it, which are left as they were found. It may
/// be asked where twice the product of the plan's totals and of the greater of 1 and its utility's
/// greatest absolute value fits 128 bits. It takes no memory.
pub fn sum_at(
    diagram: &Diagram,
    profile: &Profile,
    totals: &[u128],
    node: usize,
    state: usize,
    plan: &Plan,
    spaces: &mut Workspaces,
) -> i128
    requires within { node < length diagram.now.nodes }
    requires state { state < states_of diagram.now.nodes node }
    requires profile { IsProfile diagram.now.nodes profile.now }
    requires keep { plan.now.plan.keep ≡ node ∷ [] }
    requires planned { IsPlanned diagram.now.nodes plan.now.plan plan.now }
    requires fits { 2 * plan_total diagram.now.nodes profile.now plan.now.plan ≤ most_size }
    requires totals { HasTotals diagram.now.nodes profile.now totals.now }
    requires ready { AreReadyForPlan diagram.now.nodes plan.now.plan spaces.old }
    ensures sum { IsSumAt diagram.now.nodes profile.now plan.now.plan node state result }
    ensures again { spaces.new ≡ spaces.old }
{
    let _count = diagram.count();
    let (small, wide) = (&mut spaces.small, &mut spaces.wide);
    let lists = &mut spaces.lists;
    if fits_small(diagram, totals, plan) {
        run_at(diagram, profile, node, state, plan, small, lists)
    } else {
        run_at(diagram, profile, node, state, plan, wide, lists)
    }
}
