//! Goals of a decision that are summed together.
//!
//! The plans of a decision's goals share nearly all of their nodes, and each plan eliminates these
//! anew. Here one elimination sums several goals, over pairs of a mass and a gain: the pair of a
//! utility's value has the mass 1, so the gain of a product is the product of the weights times the
//! sum of the values. Where that has no room, takes longer or might not fit, each goal's own plan
//! is run instead.

ghost use Rattle.std.specs.Prelude.{◌≡◌, ◌+◌, ◌*◌, ◌<◌, ◌≤◌, ℕ, [], Contains, IfOk, OnOk, drop, length, map, take};
ghost use Rattle.joint_sums.specs.Joint.{AreGoals};
ghost use Rattle.size_precheck.specs.Decisions.{IsStepOf, ListsOnce, ListsStepsOrNone};
ghost use Rattle.rule_solver.specs.Rooms.{IsEmptyWithin};
ghost use Rattle.rule_solver.specs.Settings.{AreGoalPlansIn, HasGoalsIn, HasRoomForGoalsIn, HoldsSetting, IsJointIn, goals_in, AddsFirstGoalsIn};
ghost use Rattle.rule_solver.specs.Together.{FitsPairs, goal_in, FitsPairsOfFirst, IsBoundOrNone};

use crate::decision_sums::Setting;
use crate::reading::{LastTable, add_gains, list_scope};
use crate::totals::product_in;
use crate::widths::greatest_value;
use cell_rings::Both;
use eliminate::{Limits, RunLists, first_numbers_fit, release, sum_tables};
use factor_core::Workspace;
use maid_model::Diagram;
use node_sets::NodeSet;
use scope_sums::plans_keep_scopes;
use size_precheck::Plan;
use std::alloc::{AllocError, Global};

/// The greatest size of a pair that surely fits.
const MOST_SIZE: u128 = i128::MAX as u128;

/// What the joint sums of a decision's goals share.
#[derive(Drop)]
struct JointSums<'a> {
    /// The nodes whose own tables are multiplied: the chance and decision nodes of the scope, but
    /// the decision.
    ruled: Vec<usize>,
    /// Those of them that are summed out, in their order.
    steps: &'a [usize],
    /// The product of the ruled nodes' totals.
    total: u128,
}

/// The first n of the list.
fn before<T>(list: &[T], n: usize) -> &[T]
    requires { n ≤ length list.now }
    ensures { result.now ≡ take n list.now }
{
    list.split_at(n).0
}

/// The list without its first n.
fn behind<T>(list: &[T], n: usize) -> &[T]
    requires { n ≤ length list.now }
    ensures { result.now ≡ drop n list.now }
{
    list.split_at(n).1
}

/// The bound with one goal more, where it still fits.
fn with_goal(diagram: &Diagram, bound: u128, goal: usize) -> Option<u128>
    requires { goal < length diagram.now.nodes }
    ensures { IsBoundOrNone diagram.now.nodes bound goal result }
{
    let value = greatest_value(diagram, Some(goal)).checked_mul(2)?;
    bound.checked_mul(value).filter(|more| *more <= MOST_SIZE)
}

/// The number of the plan's utility, and 0 where it has none, which plans of goals never lack.
fn goal_in(plan: &Plan) -> usize
    ensures { result ≡ goal_in plan.now }
{
    plan.utility().unwrap_or(0)
}

/// The utilities of the plans: of the plans of a decision's goals its goals.
pub(crate) fn list_goals(alloc: Global, plans: &[Plan]) -> Result<Vec<usize>, AllocError>
    ensures { IfOk result (λ goals. goals.items ≡ map goal_in plans.now) }
{
    let mut goals = Vec::with_capacity(alloc, plans.len())?;
    for plan in plans {
        goals.push(goal_in(plan))?;
    }
    Ok(goals)
}

impl<'a> JointSums<'a> {
    /// What the joint sums of these goals share, all goals of the decision, which have these plans.
    /// Nodes are summed out in this order.
    fn new(
        alloc: Global,
        setting: &Setting,
        goals: &[usize],
        plans: &[Plan],
        order: &'a [usize],
    ) -> Result<JointSums<'a>, AllocError>
        requires setting { HoldsSetting setting.now }
        requires goals { goals.now ≡ goals_in setting.now }
        requires some { 0 < length goals.now }
        requires planned { AreGoalPlansIn setting.now plans.now }
        requires order { ListsOnce (IsStepOf plans.now) order.now }
        ensures { IfOk result (IsJointIn setting.now) }
    {
        let mut left_out = NodeSet::of(setting.decision);
        left_out.insert_all(goals);
        let ruled = setting.scope.difference(&left_out);
        Ok(JointSums {
            ruled: list_scope(alloc, setting.diagram, &ruled)?,
            steps: order,
            total: product_in(setting.totals, &ruled),
        })
    }

    /// How many of the goals, the first ones, surely fit into one sum.
    fn fitting(&self, diagram: &Diagram, goals: &[usize]) -> usize
        requires { (u : ℕ) → Contains goals.now u → u < length diagram.now.nodes }
        ensures few { result ≤ length goals.now }
        ensures fits { FitsPairsOfFirst diagram.now.nodes self.now.total goals.now result }
    {
        let mut bound = self.total;
        for (count, goal) in goals.iter().enumerate() {
            match with_goal(diagram, bound, *goal) {
                Some(more) => bound = more,
                None => return count,
            }
        }
        goals.len()
    }

    /// Adds what these goals give to each gain, in one elimination within the limits. Its tables
    /// stay in the workspace. Gives how many of the goals were added: all, or none where the limits
    /// are passed.
    fn sum_goals(
        &self,
        alloc: Global,
        setting: &Setting,
        goals: &[usize],
        limits: Limits,
        work: &mut Workspace<Both>,
        lists: &mut RunLists,
        gains: &mut [i128],
    ) -> Result<usize, AllocError>
        requires setting { HoldsSetting setting.now }
        requires joint { IsJointIn setting.now self.now }
        requires goals { AreGoals setting.now.diagram.now.nodes setting.now.decision goals.now }
        requires fits { FitsPairs setting.now.diagram.now.nodes self.now.total goals.now }
        requires ready { IsEmptyWithin limits.cells work.old }
        requires room { HasRoomForGoalsIn setting.now goals.now gains.old }
        ensures few { IfOk result (λ n. n ≤ length goals.now) }
        ensures adds { IfOk result (AddsFirstGoalsIn setting.now goals.now gains.old gains.new) }
        ensures space { OnOk result (length work.new.cells + work.new.spare ≡ limits.cells) }
        ensures len { length gains.new ≡ length gains.old }
    {
        plans_keep_scopes();
        first_numbers_fit();
        let mut nodes = Vec::from_slice(alloc, &self.ruled)?;
        nodes.extend_from_slice(goals)?;
        let slot = sum_tables(
            work,
            lists,
            setting.diagram,
            setting.base,
            &nodes,
            self.steps,
            limits,
        );
        match slot {
            Some(slot) => {
                let table = LastTable {
                    diagram: setting.diagram,
                    decision: setting.decision,
                    work,
                    slot: &slot,
                    factor: 1,
                };
                add_gains(alloc, &table, gains)?;
                Ok(goals.len())
            }
            None => Ok(0),
        }
    }

    /// Adds what the first of these goals give to each gain: as many as surely fit into one sum,
    /// where they are two or more and no fewer than half, and the sum has room. Gives how many they
    /// were.
    fn add_first(
        &self,
        alloc: Global,
        setting: &Setting,
        goals: &[usize],
        cells: usize,
        work: &mut Workspace<Both>,
        lists: &mut RunLists,
        gains: &mut [i128],
    ) -> Result<usize, AllocError>
        requires setting { HoldsSetting setting.now }
        requires joint { IsJointIn setting.now self.now }
        requires goals { AreGoals setting.now.diagram.now.nodes setting.now.decision goals.now }
        requires ready { IsEmptyWithin cells work.old }
        requires room { HasRoomForGoalsIn setting.now goals.now gains.old }
        ensures few { IfOk result (λ n. n ≤ length goals.now) }
        ensures adds { IfOk result (AddsFirstGoalsIn setting.now goals.now gains.old gains.new) }
        ensures again { OnOk result (work.new ≡ work.old) }
        ensures len { length gains.new ≡ length gains.old }
    {
        let count = self.fitting(setting.diagram, goals);
        if count < 2 || count < goals.len() - count {
            return Ok(0);
        }
        let limits = Limits {
            cells,
            work: u64::MAX,
        };
        let goals = before(goals, count);
        let added = self.sum_goals(alloc, setting, goals, limits, work, lists, gains)?;
        release(work);
        Ok(added)
    }
}

/// Adds what the decision's goals give to each gain, several of them together, for as long as that
/// serves: up to the first that are better summed one by one. Gives how many goals were added, the
/// first ones; none without an order.
pub(crate) fn add_together(
    alloc: Global,
    setting: &Setting,
    goals: &[usize],
    plans: &[Plan],
    order: &[usize],
    cells: usize,
    work: &mut Workspace<Both>,
    lists: &mut RunLists,
    gains: &mut [i128],
) -> Result<usize, AllocError>
    requires setting { HoldsSetting setting.now }
    requires goals { goals.now ≡ goals_in setting.now }
    requires planned { AreGoalPlansIn setting.now plans.now }
    requires order { ListsStepsOrNone plans.now order.now }
    requires ready { IsEmptyWithin cells work.old }
    requires none { HasGoalsIn setting.now [] gains.old }
    ensures few { IfOk result (λ n. n ≤ length goals.now) }
    ensures gains { IfOk result (λ n. HasGoalsIn setting.now (take n goals.now) gains.new) }
    ensures again { OnOk result (work.new ≡ work.old) }
    ensures len { length gains.new ≡ length gains.old }
{
    plans_keep_scopes();
    if goals.len() < 2 || order.is_empty() {
        return Ok(0);
    }
    let joint = JointSums::new(alloc, setting, goals, plans, order)?;
    let mut done = 0;
    'parts: while done < goals.len() {
        let rest = behind(goals, done);
        let added = joint.add_first(alloc, setting, rest, cells, work, lists, gains)?;
        if added == 0 {
            break;
        }
        done += added;
    }
    Ok(done)
}
