//! The gains and masses of one decision, by plans of elimination in the part of its scope.

ghost use Rattle.std.specs.Prelude.{◌≡◌, ◌*◌, ◌≤◌, ◌∷◌, [], IfOk, OnOk, length};
ghost use Rattle.maid_model.specs.declared.limits.TheConstants.{MOST_PLAN_CELLS};
ghost use Rattle.maid_model.specs.Nodes.{IsDecision, rows_of};
ghost use Rattle.maid_model.specs.Profiles.{IsProfile};
ghost use Rattle.maid_model.specs.Scopes.{KeepsScopedBounds};
ghost use Rattle.part_laws.specs.ScopeLaws.{HasSmallRules};
ghost use Rattle.size_precheck.specs.Decisions.{AreDecisionPlans, ListsStepsOrNone};
ghost use Rattle.rule_solver.specs.Rooms.{AreLeft, AreReadyForDecision, HasRoomForDecision};
ghost use Rattle.rule_solver.specs.Settings.{AddsGoalsIn, AreGoalPlansIn, ArePlansIn, AreReadyForDecisionIn, AreReadyForGoal, AreReadyForGoalsIn, AreReadyForRows, AreRowGainsIn, AreRowSumsIn, HasGoalsIn, HasMassesIn, HasRoomForGoalsIn, HoldsSetting, IsGoalIn, IsPlannedForGoal, IsPlannedForRows, IsReadyForGoal, IsReadyForRows, KeepsRoomIn, goals_in, lacking_in_goal, lacking_in_rows, total_in};
ghost use Rattle.rule_solver.specs.Sums.{AreRowSums, AreRowGains, KeepsRowRoom};

use crate::joint_goals::{add_together, list_goals};
use crate::numbers::Number;
use crate::reading::{LastTable, add_gains, put_masses};
use crate::spaces::{Workspaces, most_cells};
use crate::totals::{list_totals, product_in};
use crate::widths::fits_small;
use cell_rings::{Gain, SmallGain};
use eliminate::{RunLists, release, run_plan};
use factor_core::Workspace;
use maid_model::{Diagram, Profile};
use node_sets::NodeSet;
use scope_sums::{plans_keep_scopes, plans_sum_scopes};
use size_precheck::{DecisionPlans, Plan, greedy_orders, plan_decision};
use std::alloc::{AllocError, Global};
use weight_scale::decision_scope;

/// What the states of a decision gain in each row, and how much mass each row has.
#[derive(Debug, Drop)]
pub struct RowSums {
    /// A gain for each row and state, the first parent slowest and the decision's own state
    /// fastest.
    pub gains: Vec<i128>,
    /// A mass for each row.
    pub masses: Vec<u128>,
}

/// A decision, the profile in which it is looked at, and what its sums count.
///
/// The scope stays from profile to profile, and so do the totals as long as the total of each rule
/// does. So a caller that asks for a decision's gains in one profile of pure rules after another
/// keeps both.
#[derive(Drop)]
pub struct Setting<'a> {
    pub diagram: &'a Diagram,
    pub base: &'a Profile,
    pub decision: usize,
    /// The total of each node's table or rule.
    pub totals: &'a [u128],
    /// The nodes from which a path leads to the decision or to one of its goals.
    pub scope: NodeSet,
}

impl<'a> Setting<'a> {
    /// Runs the plan of the decision's rows in cells that hold all of its numbers, and writes what
    /// it sums to, times the factor, as the masses.
    fn run_rows<C: Number>(
        &self,
        alloc: Global,
        plan: &Plan,
        factor: u128,
        work: &mut Workspace<C>,
        lists: &mut RunLists,
        masses: &mut [u128],
    ) -> Result<(), AllocError>
        requires setting { HoldsSetting self.now }
        requires planned { IsPlannedForRows self.now plan.now }
        requires factor { factor ≡ lacking_in_rows self.now }
        requires ready { IsReadyForRows self.now work.old }
        requires fits { 2 * total_in self.now plan.now ≤ C.ring.most }
        requires count { length masses.old
            ≡ rows_of self.now.diagram.now.nodes self.now.decision }
        ensures masses { OnOk result (HasMassesIn self.now masses.new) }
        ensures again { OnOk result (work.new ≡ work.old) }
        ensures len { length masses.new ≡ length masses.old }
    {
        plans_sum_scopes();
        plans_keep_scopes();
        let slot = run_plan(work, lists, plan, self.diagram, self.base);
        let table = LastTable {
            diagram: self.diagram,
            decision: self.decision,
            work,
            slot: &slot,
            factor,
        };
        put_masses(alloc, &table, masses)?;
        release(work);
        Ok(())
    }

    /// Writes the masses of the decision's rows in the part of its scope: what the plan of its rows
    /// sums to, in small cells where they surely hold its numbers, times the totals of the scope's
    /// other nodes that the plan lacks.
    fn put_rows(
        &self,
        alloc: Global,
        plan: &Plan,
        small: &mut Workspace<SmallGain>,
        wide: &mut Workspace<Gain>,
        lists: &mut RunLists,
        masses: &mut [u128],
    ) -> Result<(), AllocError>
        requires setting { HoldsSetting self.now }
        requires planned { IsPlannedForRows self.now plan.now }
        requires ready { AreReadyForRows self.now small.old wide.old }
        requires count { length masses.old
            ≡ rows_of self.now.diagram.now.nodes self.now.decision }
        ensures masses { OnOk result (HasMassesIn self.now masses.new) }
        ensures again { OnOk result ((small.new ≡ small.old) × (wide.new ≡ wide.old)) }
        ensures len { length masses.new ≡ length masses.old }
    {
        plans_keep_scopes();
        let mut left = self.scope.difference(&plan.members());
        left.remove(self.decision);
        let factor = product_in(self.totals, &left);
        if fits_small(self.diagram, self.totals, plan) {
            self.run_rows(alloc, plan, factor, small, lists, masses)
        } else {
            self.run_rows(alloc, plan, factor, wide, lists, masses)
        }
    }

    /// The masses of the decision's rows in the part of its scope.
    fn masses(
        &self,
        alloc: Global,
        plan: &Plan,
        small: &mut Workspace<SmallGain>,
        wide: &mut Workspace<Gain>,
        lists: &mut RunLists,
    ) -> Result<Vec<u128>, AllocError>
        requires setting { HoldsSetting self.now }
        requires planned { IsPlannedForRows self.now plan.now }
        requires ready { AreReadyForRows self.now small.old wide.old }
        ensures masses { IfOk result (λ masses. HasMassesIn self.now masses.items) }
        ensures again { OnOk result ((small.new ≡ small.old) × (wide.new ≡ wide.old)) }
    {
        let mut masses = vec![in alloc; 0; self.diagram.rows(self.decision)]?;
        self.put_rows(alloc, plan, small, wide, lists, &mut masses)?;
        Ok(masses)
    }

    /// Runs the goal's plan in cells that hold all of its numbers, and adds what it sums to, times
    /// the factor, to the gains.
    fn run_goal<C: Number>(
        &self,
        alloc: Global,
        goal: usize,
        plan: &Plan,
        factor: u128,
        work: &mut Workspace<C>,
        lists: &mut RunLists,
        gains: &mut [i128],
    ) -> Result<(), AllocError>
        requires setting { HoldsSetting self.now }
        requires goal { IsGoalIn self.now goal }
        requires planned { IsPlannedForGoal self.now goal plan.now }
        requires factor { factor ≡ lacking_in_goal self.now goal }
        requires ready { IsReadyForGoal self.now goal work.old }
        requires fits { 2 * total_in self.now plan.now ≤ C.ring.most }
        requires room { HasRoomForGoalsIn self.now (goal ∷ []) gains.old }
        ensures adds { OnOk result (AddsGoalsIn self.now (goal ∷ []) gains.old gains.new) }
        ensures again { OnOk result (work.new ≡ work.old) }
        ensures len { length gains.new ≡ length gains.old }
    {
        plans_keep_scopes();
        let slot = run_plan(work, lists, plan, self.diagram, self.base);
        let table = LastTable {
            diagram: self.diagram,
            decision: self.decision,
            work,
            slot: &slot,
            factor,
        };
        add_gains(alloc, &table, gains)?;
        release(work);
        Ok(())
    }

    /// Adds what one goal gives to each gain: what the goal's plan sums to, in small cells where
    /// they surely hold its numbers, times the totals of the scope's nodes that the plan lacks.
    fn add_goal(
        &self,
        alloc: Global,
        goal: usize,
        plan: &Plan,
        small: &mut Workspace<SmallGain>,
        wide: &mut Workspace<Gain>,
        lists: &mut RunLists,
        gains: &mut [i128],
    ) -> Result<(), AllocError>
        requires setting { HoldsSetting self.now }
        requires goal { IsGoalIn self.now goal }
        requires planned { IsPlannedForGoal self.now goal plan.now }
        requires ready { AreReadyForGoal self.now goal small.old wide.old }
        requires room { HasRoomForGoalsIn self.now (goal ∷ []) gains.old }
        ensures adds { OnOk result (AddsGoalsIn self.now (goal ∷ []) gains.old gains.new) }
        ensures again { OnOk result ((small.new ≡ small.old) × (wide.new ≡ wide.old)) }
        ensures len { length gains.new ≡ length gains.old }
    {
        plans_keep_scopes();
        let left = self.scope.difference(&plan.members());
        let factor = product_in(self.totals, &left);
        if fits_small(self.diagram, self.totals, plan) {
            self.run_goal(alloc, goal, plan, factor, small, lists, gains)
        } else {
            self.run_goal(alloc, goal, plan, factor, wide, lists, gains)
        }
    }

    /// Adds what the decision's goals give to the gains: of several goals together, in this order
    /// for as long as that serves, and then of one after the other.
    fn add_goals(
        &self,
        alloc: Global,
        goals: &[usize],
        plans: &[Plan],
        order: &[usize],
        spaces: &mut Workspaces,
        gains: &mut [i128],
    ) -> Result<(), AllocError>
        requires setting { HoldsSetting self.now }
        requires goals { goals.now ≡ goals_in self.now }
        requires planned { AreGoalPlansIn self.now plans.now }
        requires order { ListsStepsOrNone plans.now order.now }
        requires ready { AreReadyForGoalsIn self.now spaces.old }
        requires none { HasGoalsIn self.now [] gains.old }
        ensures gains { OnOk result (HasGoalsIn self.now goals.now gains.new) }
        ensures again { OnOk result (spaces.new ≡ spaces.old) }
        ensures len { length gains.new ≡ length gains.old }
    {
        plans_keep_scopes();
        let cells = spaces.pair_cells;
        let (pairs, lists) = (&mut spaces.pairs, &mut spaces.lists);
        let added = add_together(alloc, self, goals, plans, order, cells, pairs, lists, gains)?;
        for place in added..goals.len() {
            let plan = &plans[place];
            let (small, wide) = (&mut spaces.small, &mut spaces.wide);
            let lists = &mut spaces.lists;
            self.add_goal(alloc, goals[place], plan, small, wide, lists, gains)?;
        }
        Ok(())
    }

    /// The gains of the decision's states in the part of its scope: what its goals give, added up.
    fn gains(
        &self,
        alloc: Global,
        plans: &[Plan],
        order: &[usize],
        spaces: &mut Workspaces,
    ) -> Result<Vec<i128>, AllocError>
        requires setting { HoldsSetting self.now }
        requires planned { AreGoalPlansIn self.now plans.now }
        requires order { ListsStepsOrNone plans.now order.now }
        requires ready { AreReadyForGoalsIn self.now spaces.old }
        ensures gains { IfOk result (λ gains. HasGoalsIn self.now (goals_in self.now) gains.items) }
        ensures again { OnOk result (spaces.new ≡ spaces.old) }
    {
        let rows = self.diagram.rows(self.decision);
        let mut gains = vec![in alloc; 0; rows * self.diagram.states(self.decision)]?;
        let goals = list_goals(alloc, plans)?;
        self.add_goals(alloc, &goals, plans, order, spaces, &mut gains)?;
        Ok(gains)
    }

    /// The gains of which `row_sums_by` tells, without the masses: it runs the plans of the goals
    /// alone, in workspaces with room for the largest of them, which are left as they were found.
    /// Several goals are summed together in this order of the plans' steps, such as a decision's
    /// plans have, and none without one; what the gains are does not depend on it.
    ///
    /// # Errors
    ///
    /// Only where memory runs out.
    pub fn row_gains(
        &self,
        alloc: Global,
        plans: &[Plan],
        order: &[usize],
        spaces: &mut Workspaces,
    ) -> Result<Vec<i128>, AllocError>
        requires setting { HoldsSetting self.now }
        requires planned { AreGoalPlansIn self.now plans.now }
        requires order { ListsStepsOrNone plans.now order.now }
        requires ready { AreReadyForGoalsIn self.now spaces.old }
        ensures gains { IfOk result (AreRowGainsIn self.now) }
        ensures again { OnOk result (spaces.new ≡ spaces.old) }
    {
        plans_sum_scopes();
        self.gains(alloc, plans, order, spaces)
    }

    /// The gains and the masses.
    pub(crate) fn row_sums(
        &self,
        alloc: Global,
        plans: &DecisionPlans,
        spaces: &mut Workspaces,
    ) -> Result<RowSums, AllocError>
        requires setting { HoldsSetting self.now }
        requires planned { ArePlansIn self.now plans.now }
        requires ready { AreReadyForDecisionIn self.now spaces.old }
        ensures sums { IfOk result (AreRowSumsIn self.now) }
        ensures room { IfOk result (KeepsRoomIn self.now) }
        ensures again { OnOk result (spaces.new ≡ spaces.old) }
    {
        plans_sum_scopes();
        let gains = self.gains(alloc, &plans.goals, &plans.joint_order, spaces)?;
        let (small, wide) = (&mut spaces.small, &mut spaces.wide);
        let masses = self.masses(alloc, &plans.rows, small, wide, &mut spaces.lists)?;
        Ok(RowSums { gains, masses })
    }
}

/// What `row_sums` tells of a decision, by plans that are made already, in workspaces with room for
/// the largest of them.
///
/// The plans, as `size_precheck::plan_decision` makes them, do not depend on the profile, so a
/// caller that asks for a decision's sums again and again keeps them. The workspaces are left as
/// they were found. It may be asked where each scope keeps the weight bound, and no other rule adds
/// up to more than its decision has states, as pure and uniform ones do.
///
/// # Errors
///
/// Only where memory runs out.
pub fn row_sums_by(
    alloc: Global,
    diagram: &Diagram,
    profile: &Profile,
    decision: usize,
    plans: &DecisionPlans,
    spaces: &mut Workspaces,
) -> Result<RowSums, AllocError>
    requires decision { IsDecision diagram.now.nodes decision }
    requires profile { IsProfile diagram.now.nodes profile.now }
    requires rules { HasSmallRules diagram.now.nodes profile.now decision }
    requires bound { KeepsScopedBounds diagram.now }
    requires planned { AreDecisionPlans diagram.now.nodes decision plans.now }
    requires ready { AreReadyForDecision diagram.now.nodes decision spaces.old }
    ensures sums { IfOk result (AreRowSums diagram.now.nodes profile.now decision) }
    ensures room { IfOk result (KeepsRowRoom diagram.now.nodes decision) }
    ensures again { OnOk result (spaces.new ≡ spaces.old) }
{
    let totals = list_totals(alloc, diagram, profile)?;
    let setting = Setting {
        diagram,
        base: profile,
        decision,
        totals: &totals,
        scope: decision_scope(diagram, decision),
    };
    setting.row_sums(alloc, plans, spaces)
}

/// The gains of which `row_sums_by` tells, without the masses: it runs the plans of the goals
/// alone.
///
/// # Errors
///
/// Only where memory runs out.
pub fn row_gains_by(
    alloc: Global,
    diagram: &Diagram,
    profile: &Profile,
    decision: usize,
    plans: &DecisionPlans,
    spaces: &mut Workspaces,
) -> Result<Vec<i128>, AllocError>
    requires decision { IsDecision diagram.now.nodes decision }
    requires profile { IsProfile diagram.now.nodes profile.now }
    requires rules { HasSmallRules diagram.now.nodes profile.now decision }
    requires bound { KeepsScopedBounds diagram.now }
    requires planned { AreDecisionPlans diagram.now.nodes decision plans.now }
    requires ready { AreReadyForDecision diagram.now.nodes decision spaces.old }
    ensures gains { IfOk result (AreRowGains diagram.now.nodes profile.now decision) }
    ensures again { OnOk result (spaces.new ≡ spaces.old) }
{
    let totals = list_totals(alloc, diagram, profile)?;
    let setting = Setting {
        diagram,
        base: profile,
        decision,
        totals: &totals,
        scope: decision_scope(diagram, decision),
    };
    setting.row_gains(alloc, &plans.goals, &plans.joint_order, spaces)
}

/// Workspaces with room for the plans of a decision: those that another run has left, where they
/// have it, and else new ones. It may be asked where no plan of the decision has more than
/// 4,194,304 cells.
///
/// # Errors
///
/// Only where memory runs out.
pub fn spaces_for(
    alloc: Global,
    diagram: &Diagram,
    decision: usize,
    plans: &DecisionPlans,
    left: Option<Workspaces>,
) -> Result<Workspaces, AllocError>
    requires decision { IsDecision diagram.now.nodes decision }
    requires planned { AreDecisionPlans diagram.now.nodes decision plans.now }
    requires room { HasRoomForDecision diagram.now.nodes decision MOST_PLAN_CELLS }
    requires left { AreLeft left }
    ensures { IfOk result (AreReadyForDecision diagram.now.nodes decision) }
{
    // A plan that is made again has as many cells.
    greedy_orders();
    let _count = diagram.count();
    let cells = most_cells(plans.rows.size().cells, &plans.goals) as usize;
    Workspaces::with_room(alloc, left, cells)
}

/// What the states of a decision gain in each row, and the rows' masses, with the profile as base:
/// the sums over the worlds of the part that the decision's scope makes. A decision's own rule
/// counts in neither.
///
/// It sums by variable elimination: one plan for the rows, and one for each utility of the
/// decision's agent that descends from the decision. It makes all of them before it runs the first,
/// and reserves two workspaces, of small and of wide cells, of as many cells as the largest has. In
/// a third, of pairs, it sums several of the utilities together where that is less work. It may be
/// asked where no such plan has more than 4,194,304 cells, each scope keeps the weight bound, and
/// no other rule adds up to more than its decision has states, as pure and uniform ones do.
///
/// # Errors
///
/// Only where memory runs out.
pub fn row_sums(
    alloc: Global,
    diagram: &Diagram,
    profile: &Profile,
    decision: usize,
) -> Result<RowSums, AllocError>
    requires decision { IsDecision diagram.now.nodes decision }
    requires profile { IsProfile diagram.now.nodes profile.now }
    requires rules { HasSmallRules diagram.now.nodes profile.now decision }
    requires bound { KeepsScopedBounds diagram.now }
    requires room { HasRoomForDecision diagram.now.nodes decision MOST_PLAN_CELLS }
    ensures { IfOk result (AreRowSums diagram.now.nodes profile.now decision) }
{
    let plans = plan_decision(alloc, diagram, decision)?;
    let mut spaces = spaces_for(alloc, diagram, decision, &plans, None)?;
    row_sums_by(alloc, diagram, profile, decision, &plans, &mut spaces)
}
