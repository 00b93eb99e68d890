//! Orders in which all goals of a decision may be summed together.
//!
//! What a sum gives does not depend on its order, so no clause says in which order the nodes come:
//! that serves speed alone.

ghost use Rattle.std.specs.Prelude.{◌≡◌, ◌↔◌, ℕ, ◌*◌, ◌<◌, length, min, IfOk};
ghost use Rattle.maid_model.specs.Nodes.{IsDecision};
ghost use Rattle.node_sets.specs.declared.sets.TheConstants.{MOST_NODES};
ghost use Rattle.node_sets.specs.Sets.{IsIn};
ghost use Rattle.size_precheck.specs.Decisions.{HaveNodesBelow, IsNodeOf, IsStepOf, ListsOnceOrNone, ListsStepsOrNone};
ghost use Rattle.size_precheck.specs.Families.{IsPlanner};
ghost use Rattle.size_precheck.specs.Joints.{HasPlaces, KeepsPlaces};
ghost use Rattle.size_precheck.specs.Sizes.{ArePlansOfGoals};

use crate::classes::{find_next, list_classes, take_node};
use crate::counts::{count_cells, count_members};
use crate::joints::{Known, counted_of};
use crate::planners::{Family, Planner};
use crate::plans::Plan;
use crate::simulation::eliminate;
use crate::starts::{list_narrowed, put_utility, utility_table};
use maid_model::Diagram;
use node_sets::NodeSet;
use std::alloc::{AllocError, Global};

/// Beside its cells, a step of a plan takes about as long as so much work.
const STEP_TIME: u64 = 256;

/// Beside its cells, a step of a joint sum takes about as long as so much work of a plan.
const JOINT_STEP_TIME: u64 = 448;

/// The work of a step of a joint sum comes to at least about so much, so that there need be no
/// order to tell that a sum takes too long.
const LEAST_STEP_WORK: u64 = 36;

/// A joint sum goes over cells of pairs, which take about so many times as long as those of a plan.
const PAIR_TIME: u64 = 8;

/// For no more cells of pairs than this is there ever room. Goals whose joint sum asks for more are
/// summed one by one, so more room would seldom be used.
pub const MOST_PAIR_CELLS: usize = 65_536;

/// For how many cells of pairs there is room where the largest plan has so many cells: for four
/// times as many, up to `MOST_PAIR_CELLS`.
pub fn pair_room(cells: usize) -> usize
    ensures { result ≡ min (4 * cells) MOST_PAIR_CELLS }
{
    cells.saturating_mul(4).min(MOST_PAIR_CELLS)
}

/// What a joint sum may come to.
#[derive(Clone, Copy)]
struct JointLimits {
    cells: u64,
    time: u64,
}

/// How long the plans take together, in steps of work.
fn time_of_plans(plans: &[Plan]) -> u64 {
    let mut time: u64 = 0;
    for plan in plans {
        let work = u64::try_from(plan.size().work).unwrap_or(u64::MAX);
        let steps = STEP_TIME.saturating_mul(plan.steps().len() as u64);
        time = time.saturating_add(work).saturating_add(steps);
    }
    time
}

/// How long a joint sum of so many steps and so much work takes, in a plan's steps of work. The
/// work of the last product is left out: it may go over several tables, but it gives one alone,
/// and most of the time is that of the steps.
fn time_of_joint(steps: usize, work: u64) -> u64 {
    let cells = PAIR_TIME.saturating_mul(work);
    JOINT_STEP_TIME
        .saturating_mul(steps as u64)
        .saturating_add(cells)
}

impl JointLimits {
    /// Whether a joint sum of so many steps, cells and so much work keeps them.
    fn allow(&self, steps: usize, cells: u64, work: u64) -> bool {
        cells <= self.cells && time_of_joint(steps, work) <= self.time
    }
}

/// How many cells the largest of the plans has.
fn largest_cells(plans: &[Plan]) -> usize {
    let mut largest: usize = 0;
    for plan in plans {
        let cells = usize::try_from(plan.size().cells).unwrap_or(usize::MAX);
        largest = largest.max(cells);
    }
    largest
}

/// The nodes that one of the plans eliminates.
fn all_steps(plans: &[Plan]) -> NodeSet
    requires { HaveNodesBelow MOST_NODES plans.now }
    ensures { (v : ℕ) → IsIn result v ↔ IsStepOf plans.now v }
{
    let mut steps = NodeSet::empty();
    for plan in plans {
        steps.insert_all(plan.steps());
    }
    steps
}

/// The nodes of the plans: those that one of them keeps or eliminates.
fn all_members(plans: &[Plan]) -> NodeSet
    ensures { (v : ℕ) → IsIn result v ↔ IsNodeOf plans.now v }
{
    let mut members = NodeSet::empty();
    for plan in plans {
        members = members.union(&plan.members());
    }
    members
}

/// How many cells the first tables of these nodes have together.
fn cells_of_tables(families: &[Family], nodes: &NodeSet) -> u64
    requires { (v : ℕ) → IsIn nodes.now v → v < length families.now }
{
    let mut cells: u64 = 0;
    let mut from = 0;
    'tables: while let Some(v) = nodes.first_from(from) {
        cells = cells.saturating_add(families[v].cells);
        from = v + 1;
    }
    cells
}

/// Puts the tables of the plans' utilities, and counts their cells.
fn put_goals(
    diagram: &Diagram,
    states: &[u64],
    known: &mut Known,
    waiting: &NodeSet,
    plans: &[Plan],
) -> u64
    requires states { length states.now ≡ MOST_NODES }
    requires places { HasPlaces (IsIn waiting.now) known.old }
    ensures { KeepsPlaces known.old known.new }
{
    let count = diagram.count();
    let mut cells: u64 = 0;
    for plan in plans {
        if let Some(u) = plan.utility() {
            if u < count {
                let table = utility_table(diagram, u);
                put_utility(states, known, waiting, &table);
                cells = cells.saturating_add(count_cells(states, &table.scope));
            }
        }
    }
    cells
}

/// The nodes that wait in the order in which they are eliminated, each time the first whose joined
/// set has fewest cells. There is no order, and it ends, as soon as what is counted passes the
/// limits.
fn order_all(
    alloc: Global,
    states: &[u64],
    known: &mut Known,
    waiting: &NodeSet,
    first_cells: u64,
    limits: &JointLimits,
) -> Result<Vec<usize>, AllocError>
    requires states { length states.now ≡ MOST_NODES }
    requires places { HasPlaces (IsIn waiting.now) known.old }
    ensures { IfOk result (λ order. ListsOnceOrNone (IsIn waiting.now) order.items) }
{
    let mut rest: NodeSet = *waiting;
    let count = count_members(waiting);
    let mut order = Vec::with_capacity(alloc, count)?;
    let mut classes = list_classes(alloc, known, &rest)?;
    let (mut cells, mut work) = (first_cells, 0);
    for _ in 0..count {
        match find_next(&classes) {
            Some(v) if v < states.len() && rest.holds(v) && limits.allow(count, cells, work) => {
                take_node(&mut classes, v, counted_of(known, v).cells);
                rest.remove(v);
                order.push(v)?;
                let made = eliminate(states, known, &mut classes, &rest, v)?;
                cells = cells.saturating_add(made.cells);
                work = work.saturating_add(made.work);
            }
            _ => break,
        }
    }
    // A node that waits stands in a class, so none is left where the limits are kept. A test tells
    // that without a proof.
    if rest.is_empty() && limits.allow(count, cells, work) {
        Ok(order)
    } else {
        Ok(Vec::new(alloc))
    }
}

/// An order in which the decision's goals may be summed together, greedy as that of a plan with the
/// tables of all goals: of the nodes that the goals' plans eliminate. It takes about as long as a
/// plan, and is made in the lists that are left of an earlier one, where there are some; it leaves
/// them to the next. It is empty where the sum would take longer than the plans, or have more cells
/// than there is room for beside the largest plan (`pair_room`).
pub fn joint_order(
    alloc: Global,
    diagram: &Diagram,
    planner: &Planner,
    left: &mut Option<Known>,
    decision: usize,
    goals: &[Plan],
) -> Result<Vec<usize>, AllocError>
    requires decision { IsDecision diagram.now.nodes decision }
    requires planner { IsPlanner diagram.now.nodes planner.now }
    requires goals { ArePlansOfGoals diagram.now.nodes decision goals.now }
    ensures { IfOk result (λ order. ListsStepsOrNone goals.now order.items) }
{
    let _count = diagram.count();
    let largest = largest_cells(goals);
    if goals.len() < 2 || largest > MOST_PAIR_CELLS {
        return Ok(Vec::new(alloc));
    }
    let limits = JointLimits {
        cells: pair_room(largest) as u64,
        time: time_of_plans(goals),
    };
    let states = planner.states.as_slice();
    let waiting = all_steps(goals);
    let members = all_members(goals);
    // What no plan eliminates is left to the last: the decision and its parents.
    let last = count_cells(states, &members.difference(&waiting));
    let mut ruled = members;
    ruled.remove(decision);
    let first = last.saturating_add(cells_of_tables(&planner.families, &ruled));
    let steps = count_members(&waiting);
    let least_work = LEAST_STEP_WORK.saturating_mul(steps as u64);
    if !limits.allow(steps, first, least_work) {
        return Ok(Vec::new(alloc));
    }
    let mut known = list_narrowed(alloc, planner, left.take(), &ruled, &waiting)?;
    let cells = put_goals(diagram, states, &mut known, &waiting, goals).saturating_add(first);
    let order = order_all(alloc, states, &mut known, &waiting, cells, &limits)?;
    *left = Some(known);
    Ok(order)
}
