//! Conditional expected utilities by plans of elimination.

ghost use Rattle.std.specs.Prelude.{◌≡◌, ◌<◌, IfOk, None, OnOk, Option, Some, length};
ghost use Rattle.maid_model.specs.declared.diagrams.Kind.TheVariants.{Utility};
ghost use Rattle.maid_model.specs.Nodes.{node_at, states_of};
ghost use Rattle.reach_laws.specs.Evidence.{IsEvidence};
ghost use Rattle.size_precheck.specs.Sizes.{IsPlanned};
ghost use Rattle.rule_solver.specs.Totals.{HasTotals};
ghost use Rattle.evidence.specs.Bounds.{KeepsBoundsGiven};
ghost use Rattle.evidence.specs.Conditional.{HasAllGains};
ghost use Rattle.evidence.specs.Plans.{HasUtilityPlans, IsPlanIf};
ghost use Rattle.evidence.specs.Sizes.{HasSpace, HasSpaceFor, plan_given};
ghost use Rattle.evidence.specs.Stakes.{HasWorthsAt, IsGivenSetting, IsMass, IsMassAt};
ghost use Rattle.evidence.specs.Stakes.{IsWorthGivenAt, IsWorthIf};

use crate::stakes::Stake;
use maid_model::{Diagram, Profile, Ratio};
use reach_laws::scopes_of_evidence;
use rule_solver::{Workspaces, list_totals, sum_at};
use size_precheck::Plan;
use std::alloc::{AllocError, Global};
use weight_scale::scope_given;

/// What the plan that keeps the node sums to at the state. The node descends from no decision, so
/// the plan has no rule, and the sum is the same whatever the rules are: it's made under uniform
/// ones.
pub(crate) fn mass_of(
    alloc: Global,
    diagram: &Diagram,
    node: usize,
    state: usize,
    plan: &Plan,
    spaces: &mut Workspaces,
) -> Result<u128, AllocError>
    requires within { node < length diagram.now.nodes }
    requires evidence { IsEvidence diagram.now.nodes node }
    requires state { state < states_of diagram.now.nodes node }
    requires bounds { KeepsBoundsGiven diagram.now node }
    requires planned { IsPlanned diagram.now.nodes (plan_given node None) plan.now }
    requires ready { HasSpaceFor diagram.now.nodes (plan_given node None) spaces.old }
    ensures mass { IfOk result (λ mass. IsMass diagram.now.nodes node state mass) }
    ensures again { OnOk result (spaces.new ≡ spaces.old) }
{
    let profile = Profile::uniform(alloc, diagram)?;
    let totals = list_totals(alloc, diagram, &profile)?;
    let sum = sum_at(diagram, &profile, &totals, node, state, plan, spaces);
    Ok(sum.unsigned_abs())
}

/// What the plan that keeps the node sums to at the state with the utility.
fn worth_at(
    diagram: &Diagram,
    profile: &Profile,
    totals: &[u128],
    node: usize,
    state: usize,
    utility: usize,
    plan: &Plan,
    spaces: &mut Workspaces,
) -> i128
    requires setting { IsGivenSetting diagram.now profile.now node state }
    requires totals { HasTotals diagram.now.nodes profile.now totals.now }
    requires within { utility < length diagram.now.nodes }
    requires kind { (node_at diagram.now.nodes utility).kind ≡ Utility }
    requires planned { IsPlanned diagram.now.nodes (plan_given node (Some utility)) plan.now }
    requires ready { HasSpaceFor diagram.now.nodes (plan_given node (Some utility)) spaces.old }
    ensures worth { IsWorthGivenAt diagram.now.nodes profile.now node state utility result }
    ensures again { spaces.new ≡ spaces.old }
{
    let _count = diagram.count();
    sum_at(diagram, profile, totals, node, state, plan, spaces)
}

/// The same of any node: 0 where it is no utility, and has no plan.
fn worth_or_none(
    diagram: &Diagram,
    profile: &Profile,
    totals: &[u128],
    node: usize,
    state: usize,
    v: usize,
    plan: &Option<Plan>,
    spaces: &mut Workspaces,
) -> i128
    requires setting { IsGivenSetting diagram.now profile.now node state }
    requires totals { HasTotals diagram.now.nodes profile.now totals.now }
    requires within { v < length diagram.now.nodes }
    requires planned { IsPlanIf diagram.now.nodes node v plan.now }
    requires ready { HasSpace diagram.now.nodes node spaces.old }
    ensures worth { IsWorthIf diagram.now.nodes profile.now node state v result }
    ensures again { spaces.new ≡ spaces.old }
{
    match plan {
        Some(plan) => worth_at(diagram, profile, totals, node, state, v, plan, spaces),
        None => 0,
    }
}

/// What the plan that keeps the node sums to at the state with each utility, and 0 at other nodes.
fn list_worths(
    alloc: Global,
    diagram: &Diagram,
    profile: &Profile,
    totals: &[u128],
    node: usize,
    state: usize,
    plans: &[Option<Plan>],
    spaces: &mut Workspaces,
) -> Result<Vec<i128>, AllocError>
    requires setting { IsGivenSetting diagram.now profile.now node state }
    requires totals { HasTotals diagram.now.nodes profile.now totals.now }
    requires planned { HasUtilityPlans diagram.now.nodes node plans.now }
    requires ready { HasSpace diagram.now.nodes node spaces.old }
    ensures { IfOk result (λ v. HasWorthsAt diagram.now.nodes profile.now node state v.items) }
{
    let mut worths = Vec::with_capacity(alloc, diagram.count())?;
    for v in 0..diagram.count() {
        let plan = &plans[v];
        let worth = worth_or_none(diagram, profile, totals, node, state, v, plan, spaces);
        worths.push(worth)?;
    }
    Ok(worths)
}

/// What the profile, whose rules are pure, is worth to each agent where the node has the state,
/// whose worlds have this mass. It runs one plan for each utility.
pub(crate) fn list_gains(
    alloc: Global,
    diagram: &Diagram,
    profile: &Profile,
    node: usize,
    state: usize,
    mass: u128,
    plans: &[Option<Plan>],
    spaces: &mut Workspaces,
) -> Result<Vec<Ratio>, AllocError>
    requires setting { IsGivenSetting diagram.now profile.now node state }
    requires planned { HasUtilityPlans diagram.now.nodes node plans.now }
    requires ready { HasSpace diagram.now.nodes node spaces.old }
    requires mass { IsMassAt diagram.now.nodes profile.now node state mass }
    requires positive { 0 < mass }
    ensures gains { IfOk result (λ v. HasAllGains diagram.now profile.now node state v.items) }
{
    scopes_of_evidence();
    let totals = list_totals(alloc, diagram, profile)?;
    let worths = list_worths(alloc, diagram, profile, &totals, node, state, plans, spaces)?;
    let mut gains = Vec::with_capacity(alloc, diagram.agents())?;
    for agent in 0..diagram.agents() {
        let stake = Stake {
            diagram,
            node,
            agent,
            mass,
            worths: &worths,
            scope: scope_given(diagram, node, agent),
        };
        gains.push(stake.expected())?;
    }
    Ok(gains)
}
