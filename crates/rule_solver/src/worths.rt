//! What a plan is worth to each agent, as reduced fractions.

ghost use Rattle.std.specs.Prelude.{◌≡◌, ◌<◌, ◌≤◌, ◌*◌, true, IfOk, OnOk, length, nat_abs};
ghost use Rattle.eliminate.specs.Results.{plan_total};
ghost use Rattle.maid_model.specs.declared.limits.TheConstants.{MOST_PLAN_CELLS};
ghost use Rattle.maid_model.specs.declared.diagrams.Kind.TheVariants.{Utility};
ghost use Rattle.maid_model.specs.Diagrams.{IsDiagram, greatest_number};
ghost use Rattle.maid_model.specs.Nodes.{is_utility_of, node_at};
ghost use Rattle.maid_model.specs.Profiles.{IsProfile};
ghost use Rattle.maid_model.specs.Scopes.{KeepsScopedBounds};
ghost use Rattle.part_laws.specs.ScopeLaws.{HasUnitRules};
ghost use Rattle.plan_sums.specs.Plans.{worth_plan};
ghost use Rattle.size_precheck.specs.Sizes.{IsPlanned, ArePlansOfWorths};
ghost use Rattle.rule_solver.specs.Masses.{HasGains};
ghost use Rattle.rule_solver.specs.Rooms.{AreBothReadyForWorths, AreReadyFor, AreReadyForWorths, HasRoomForWorths, IsReadyFor};
ghost use Rattle.rule_solver.specs.Totals.{HasTotals};
ghost use Rattle.rule_solver.specs.Worths.{HasWorths, HoldsStake, IsExpectedTo, IsWorth, gain_to, share_of};

use crate::numbers::Number;
use crate::spaces::{Workspaces, most_cells};
use crate::totals::{list_totals, product_in};
use crate::widths::fits_small;
use cell_rings::{Gain, SmallGain};
use eliminate::{RunLists, release, run_plan};
use factor_core::Workspace;
use maid_model::{Diagram, Kind, Profile, Ratio, descent_is_tested};
use node_sets::{NodeSet, ancestors};
use part_laws::{parts_decide, scopes_are_parts};
use scope_sums::{plans_keep_scopes, plans_sum_scopes};
use size_precheck::{Plan, greedy_orders, plan_worths};
use std::alloc::{AllocError, Global};
use weight_scale::agent_scope;

/// Runs a plan that keeps no node, in cells that hold all of its numbers, and gives what it sums
/// to.
fn run_worth<C: Number>(
    diagram: &Diagram,
    profile: &Profile,
    utility: usize,
    plan: &Plan,
    work: &mut Workspace<C>,
    lists: &mut RunLists,
) -> i128
    requires profile { IsProfile diagram.now.nodes profile.now }
    requires planned { IsPlanned diagram.now.nodes (worth_plan utility) plan.now }
    requires ready { IsReadyFor diagram.now.nodes (worth_plan utility) work.old }
    requires fits { 2 * plan_total diagram.now.nodes profile.now plan.now.plan ≤ C.ring.most }
    ensures worth { IsWorth diagram.now.nodes profile.now utility result }
    ensures again { work.new ≡ work.old }
{
    let slot = run_plan(work, lists, plan, diagram, profile);
    let worth = work.at(diagram, &slot, &[]);
    release(work);
    worth.number()
}

/// What the utility's plan sums to, in the smaller cells where they surely hold its numbers.
pub(crate) fn worth(
    diagram: &Diagram,
    profile: &Profile,
    totals: &[u128],
    utility: usize,
    plan: &Plan,
    small: &mut Workspace<SmallGain>,
    wide: &mut Workspace<Gain>,
    lists: &mut RunLists,
) -> i128
    requires diagram { IsDiagram diagram.now }
    requires within { utility < length diagram.now.nodes }
    requires kind { (node_at diagram.now.nodes utility).kind ≡ Utility }
    requires profile { IsProfile diagram.now.nodes profile.now }
    requires rules { HasUnitRules diagram.now.nodes profile.now }
    requires bound { KeepsScopedBounds diagram.now }
    requires totals { HasTotals diagram.now.nodes profile.now totals.now }
    requires planned { IsPlanned diagram.now.nodes (worth_plan utility) plan.now }
    requires ready { AreReadyFor diagram.now.nodes (worth_plan utility) small.old wide.old }
    ensures worth { IsWorth diagram.now.nodes profile.now utility result }
    ensures again { (small.new ≡ small.old) × (wide.new ≡ wide.old) }
{
    plans_keep_scopes();
    if fits_small(diagram, totals, plan) {
        run_worth(diagram, profile, utility, plan, small, lists)
    } else {
        run_worth(diagram, profile, utility, plan, wide, lists)
    }
}

/// The worth of each utility, and 0 at other nodes. It runs the plan of each utility.
fn list_worths(
    alloc: Global,
    diagram: &Diagram,
    profile: &Profile,
    totals: &[u128],
    plans: &[Plan],
    small: &mut Workspace<SmallGain>,
    wide: &mut Workspace<Gain>,
    lists: &mut RunLists,
) -> Result<Vec<i128>, AllocError>
    requires profile { IsProfile diagram.now.nodes profile.now }
    requires rules { HasUnitRules diagram.now.nodes profile.now }
    requires bound { KeepsScopedBounds diagram.now }
    requires totals { HasTotals diagram.now.nodes profile.now totals.now }
    requires planned { ArePlansOfWorths diagram.now.nodes plans.now }
    requires ready { AreBothReadyForWorths diagram.now.nodes small.old wide.old }
    ensures worths { IfOk result (λ worths. HasWorths diagram.now.nodes profile.now worths.items) }
    ensures again { OnOk result ((small.new ≡ small.old) × (wide.new ≡ wide.old)) }
{
    let mut worths = Vec::with_capacity(alloc, diagram.count())?;
    let mut place = 0;
    for v in 0..diagram.count() {
        match diagram.kind(v) {
            Kind::Utility => {
                let plan = &plans[place];
                worths.push(worth(diagram, profile, totals, v, plan, small, wide, lists))?;
                place += 1;
            }
            Kind::Chance | Kind::Decision => worths.push(0)?,
        }
    }
    Ok(worths)
}

/// An agent, and what its expected utility is made of.
#[derive(Drop)]
pub(crate) struct Stake<'a> {
    pub diagram: &'a Diagram,
    pub profile: &'a Profile,
    pub agent: usize,
    /// The total of each node's table or rule.
    pub totals: &'a [u128],
    /// What the plan of each of the agent's utilities sums to.
    pub worths: &'a [i128],
    /// The nodes from which a path leads to one of the agent's utilities.
    pub scope: NodeSet,
}

impl<'a> Stake<'a> {
    /// What the utility gives to the agent's gain: its worth times the totals of the scope's nodes
    /// that its plan lacks.
    fn given(&self, utility: usize) -> i128
        requires stake { HoldsStake self.now }
        requires within { utility < length self.now.diagram.now.nodes }
        requires owned { is_utility_of self.now.diagram.now.nodes self.now.agent utility ≡ true }
        ensures { result ≡ share_of self.now utility }
    {
        descent_is_tested();
        plans_keep_scopes();
        let mut planned = ancestors(self.diagram, NodeSet::of(utility));
        planned.remove(utility);
        let left = self.scope.difference(&planned);
        self.worths[utility] * product_in(self.totals, &left) as i128
    }

    /// The same of any node: 0 where it is none of the agent's utilities.
    fn given_by(&self, v: usize) -> i128
        requires stake { HoldsStake self.now }
        requires within { v < length self.now.diagram.now.nodes }
        ensures { result ≡ share_of self.now v }
    {
        if self.diagram.is_utility_of(self.agent, v) {
            self.given(v)
        } else {
            0
        }
    }

    /// The agent's gain in the part of its scope.
    fn gain(&self) -> i128
        requires stake { HoldsStake self.now }
        ensures gain { result ≡ gain_to self.now }
        ensures small { nat_abs result ≤ greatest_number }
    {
        plans_sum_scopes();
        plans_keep_scopes();
        let mut gain = 0;
        for v in 0..self.diagram.count() {
            gain += self.given_by(v);
        }
        gain
    }

    /// What the profile is worth to the agent.
    pub(crate) fn expected(&self) -> Ratio
        requires stake { HoldsStake self.now }
        ensures { IsExpectedTo self.now result }
    {
        // The part of the scope has the whole's fraction, and its mass is the product of the
        // scope's totals.
        scopes_are_parts();
        parts_decide();
        plans_sum_scopes();
        let mass = product_in(self.totals, &self.scope);
        Ratio::reduced(self.gain(), mass * self.diagram.scale())
    }
}

/// What `expected` tells, by the plans of the utilities' worths, in workspaces with room for each
/// of them. It runs each plan once. The workspaces are left as they were found.
///
/// # Errors
///
/// Only where memory runs out.
pub fn expected_along(
    alloc: Global,
    diagram: &Diagram,
    profile: &Profile,
    plans: &[Plan],
    spaces: &mut Workspaces,
) -> Result<Vec<Ratio>, AllocError>
    requires bound { KeepsScopedBounds diagram.now }
    requires profile { IsProfile diagram.now.nodes profile.now }
    requires pure { HasUnitRules diagram.now.nodes profile.now }
    requires planned { ArePlansOfWorths diagram.now.nodes plans.now }
    requires ready { AreReadyForWorths diagram.now.nodes spaces.old }
    ensures gains { IfOk result (λ v. HasGains diagram.now profile.now diagram.now.agents v.items) }
    ensures again { OnOk result (spaces.new ≡ spaces.old) }
{
    let totals = list_totals(alloc, diagram, profile)?;
    let worths = list_worths(
        alloc,
        diagram,
        profile,
        &totals,
        plans,
        &mut spaces.small,
        &mut spaces.wide,
        &mut spaces.lists,
    )?;
    let mut gains = Vec::with_capacity(alloc, diagram.agents())?;
    for agent in 0..diagram.agents() {
        let stake = Stake {
            diagram,
            profile,
            agent,
            totals: &totals,
            worths: &worths,
            scope: agent_scope(diagram, agent),
        };
        gains.push(stake.expected())?;
    }
    Ok(gains)
}

/// What `expected` tells, in workspaces with room for each utility's plan. It makes each of these
/// plans once, and runs it. The workspaces are left as they were found.
///
/// # Errors
///
/// Only where memory runs out.
pub fn expected_by(
    alloc: Global,
    diagram: &Diagram,
    profile: &Profile,
    spaces: &mut Workspaces,
) -> Result<Vec<Ratio>, AllocError>
    requires bound { KeepsScopedBounds diagram.now }
    requires profile { IsProfile diagram.now.nodes profile.now }
    requires pure { HasUnitRules diagram.now.nodes profile.now }
    requires ready { AreReadyForWorths diagram.now.nodes spaces.old }
    ensures gains { IfOk result (λ v. HasGains diagram.now profile.now diagram.now.agents v.items) }
    ensures again { OnOk result (spaces.new ≡ spaces.old) }
{
    let plans = plan_worths(alloc, diagram)?;
    expected_along(alloc, diagram, profile, &plans, spaces)
}

/// What the profile, whose rules are pure, is worth to each agent: a reduced fraction for each, in
/// the agents' order.
///
/// A utility's plan sums it with the tables and rules of its ancestors alone, by variable
/// elimination. An agent's gain is what its utilities' plans give, each times the totals of those
/// nodes of the agent's scope that the plan lacks; its expected utility is the gain over the
/// product of the scope's totals and ten to the power of the decimals.
///
/// It makes each utility's plan once, and reserves the three `Workspaces`, with room for the
/// largest of these plans, of which it runs all in those of small and of wide cells. It may be
/// asked where each scope keeps the weight bound, and where no such plan has more than 4,194,304
/// cells.
///
/// # Errors
///
/// Only where memory runs out.
pub fn expected(
    alloc: Global,
    diagram: &Diagram,
    profile: &Profile,
) -> Result<Vec<Ratio>, AllocError>
    requires bound { KeepsScopedBounds diagram.now }
    requires profile { IsProfile diagram.now.nodes profile.now }
    requires pure { HasUnitRules diagram.now.nodes profile.now }
    requires room { HasRoomForWorths diagram.now.nodes MOST_PLAN_CELLS }
    ensures gains { IfOk result (λ v. HasGains diagram.now profile.now diagram.now.agents v.items) }
{
    // A plan that is made again has as many cells.
    greedy_orders();
    let plans = plan_worths(alloc, diagram)?;
    let cells = most_cells(0, &plans) as usize;
    let mut spaces = Workspaces::reserve(alloc, cells)?;
    expected_along(alloc, diagram, profile, &plans, &mut spaces)
}
