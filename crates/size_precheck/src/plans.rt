//! Plans of elimination.

ghost use Rattle.std.specs.Prelude.{◌≡◌, ◌↔◌, ◌≤◌, ℕ, IfOk};
ghost use Rattle.maid_model.specs.declared.limits.TheConstants.{COUNT_END};
ghost use Rattle.maid_model.specs.Diagrams.{IsDiagram};
ghost use Rattle.node_sets.specs.Sets.{IsIn};
ghost use Rattle.size_precheck.specs.Families.{IsPlanner};
ghost use Rattle.size_precheck.specs.Joints.{IsRunOfPlan};
ghost use Rattle.size_precheck.specs.Sizes.{plan_of, CanBePlanned, IsMade, IsMember};

use crate::counts::{add, count_cells, multiply};
use crate::joints::Known;
use crate::planners::Planner;
use crate::simulation::{Run, eliminate_all};
use crate::sizes::Size;
use crate::starts::{plan_nodes, put_all_first, ruled_nodes, set_of};
use maid_model::Diagram;
use node_sets::NodeSet;
use std::alloc::{AllocError, Global};
use std::marker::Model;

/// A plan: which nodes are kept, whose rule is left out, which utility is summed, and in which
/// order the other nodes of the plan are eliminated.
#[derive(Debug, Drop)]
pub struct Plan {
    keep: Vec<usize>,
    without: Option<usize>,
    utility: Option<usize>,
    steps: Vec<usize>,
    size: Size,
    /// The kept nodes and the steps.
    members: NodeSet,
}

impl Model for Plan {
    ghost use Rattle.std.specs.Prelude.{◌↔◌, ◌⊎◌, ℕ, Contains};
    ghost use Rattle.node_sets.specs.Sets.{IsIn};
    ghost use Rattle.size_precheck.specs.Sizes.{SizedPlan};

    ghost Value = { SizedPlan };

    ghost view = { λ p.
        record {
          plan = record { keep = p.keep.items; without = p.without; utility = p.utility };
          steps = p.steps.items;
          size = p.size;
        } };

    ghost invariant = { λ p. (v : ℕ)
        → IsIn p.members v ↔ (Contains p.keep.items v ⊎ Contains p.steps.items v) };
}

impl Plan {
    /// The kept nodes, in the order in which they were asked for. It takes no memory.
    pub fn keep(&self) -> &[usize]
        ensures { result.now ≡ self.now.plan.keep }
    {
        &self.keep
    }

    /// The kept decision whose own rule is left out. It takes no memory.
    pub fn without(&self) -> Option<usize>
        ensures { result ≡ self.now.plan.without }
    {
        self.without
    }

    /// The utility. It takes no memory.
    pub fn utility(&self) -> Option<usize>
        ensures { result ≡ self.now.plan.utility }
    {
        self.utility
    }

    /// The nodes that are eliminated, in their order. It takes no memory.
    pub fn steps(&self) -> &[usize]
        ensures { result.now ≡ self.now.steps }
    {
        &self.steps
    }

    /// The nodes of the plan: those that it keeps, and those that it eliminates. It takes no
    /// memory.
    pub fn members(&self) -> NodeSet
        ensures { (v : ℕ) → IsIn result v ↔ IsMember self.now v }
    {
        self.members
    }

    /// How many cells its tables have together, and its work. It takes no memory.
    pub fn size(&self) -> Size
        ensures { result ≡ self.now.size }
    {
        self.size
    }

    /// A copy of the plan. It takes the memory of its two lists.
    pub(crate) fn copy(&self, alloc: Global) -> Result<Plan, AllocError>
        ensures { IfOk result (λ copy. copy ≡ self.now) }
    {
        Ok(Plan {
            keep: Vec::from_slice(alloc, &self.keep)?,
            without: self.without,
            utility: self.utility,
            steps: Vec::from_slice(alloc, &self.steps)?,
            size: self.size,
            members: self.members,
        })
    }
}

/// The steps of what is asked, with what its tables and the steps come to.
fn run_in(
    alloc: Global,
    diagram: &Diagram,
    planner: &Planner,
    left: Option<Known>,
    keep: &[usize],
    without: Option<usize>,
    utility: Option<usize>,
) -> Result<Run, AllocError>
    requires diagram { IsDiagram diagram.now }
    requires planner { IsPlanner diagram.now.nodes planner.now }
    requires asked { CanBePlanned diagram.now.nodes (plan_of keep.now without utility) }
    ensures run { IfOk result (IsRunOfPlan diagram.now.nodes (plan_of keep.now without utility)) }
    ensures few { IfOk result (λ run. run.cells ≤ COUNT_END) }
    ensures little { IfOk result (λ run. run.work ≤ COUNT_END) }
{
    let states = planner.states.as_slice();
    let nodes = plan_nodes(diagram, &planner.families, keep, utility);
    let kept = set_of(keep);
    let waiting = nodes.difference(&kept);
    let ruled = ruled_nodes(&nodes, without);
    let start = put_all_first(alloc, diagram, planner, left, &ruled, utility, &waiting)?;
    eliminate_all(alloc, states, start, waiting)
}

/// The plan of `plan_by`, made in the lists that are left of an earlier plan, where there are some;
/// it leaves them to the next one.
pub(crate) fn plan_in(
    alloc: Global,
    diagram: &Diagram,
    planner: &Planner,
    left: &mut Option<Known>,
    keep: Vec<usize>,
    without: Option<usize>,
    utility: Option<usize>,
) -> Result<Plan, AllocError>
    requires planner { IsPlanner diagram.now.nodes planner.now }
    requires asked { CanBePlanned diagram.now.nodes (plan_of keep.items without utility) }
    ensures { IfOk result (IsMade diagram.now.nodes (plan_of keep.items without utility)) }
{
    let _count = diagram.count();
    let lists = left.take();
    let run = run_in(alloc, diagram, planner, lists, &keep, without, utility)?;
    let states = planner.states.as_slice();
    let kept = set_of(&keep);
    let last = count_cells(states, &kept);
    let cells = add(run.cells, last);
    let work = add(run.work, multiply(last, run.live as u64));
    let mut members = kept;
    members.insert_all(&run.steps);
    *left = Some(run.left);
    Ok(Plan {
        keep,
        without,
        utility,
        steps: run.steps,
        size: Size {
            cells: cells as u128,
            work: work as u128,
        },
        members,
    })
}

/// The plan that `make_plan` makes of what is asked, by what all plans of the diagram share.
pub fn plan_by(
    alloc: Global,
    diagram: &Diagram,
    planner: &Planner,
    keep: &[usize],
    without: Option<usize>,
    utility: Option<usize>,
) -> Result<Plan, AllocError>
    requires planner { IsPlanner diagram.now.nodes planner.now }
    requires asked { CanBePlanned diagram.now.nodes (plan_of keep.now without utility) }
    ensures { IfOk result (IsMade diagram.now.nodes (plan_of keep.now without utility)) }
{
    let kept = Vec::from_slice(alloc, keep)?;
    plan_in(alloc, diagram, planner, &mut None, kept, without, utility)
}

/// The plan that keeps these nodes, leaves the rule of `without` out, and has that utility. Its
/// nodes are the kept ones and all from which a path of arcs leads to one of them or to the
/// utility; its tables are those of its nodes and of the utility. Each time that node is eliminated
/// whose joined set, all nodes of the tables that hold it, has fewest cells, and of several the
/// first in text (greedy elimination by weight: Koller and Friedman 2009).
///
/// The nodes that wait stand in classes of equal cells, and a step takes the first of the lowest.
/// It joins and counts the sets of the node's neighbours anew, and moves those of other cells than
/// before to the classes of these: at most as many steps of counting as the joined sets have pairs
/// of nodes, and for each move a look at eight classes more than nodes wait at most. It takes
/// memory for a few lists of as many entries as there are nodes. First it makes what all plans of a
/// diagram share; a caller that makes several plans makes that once, and each of them with
/// `plan_by`.
pub fn make_plan(
    alloc: Global,
    diagram: &Diagram,
    keep: &[usize],
    without: Option<usize>,
    utility: Option<usize>,
) -> Result<Plan, AllocError>
    requires { CanBePlanned diagram.now.nodes (plan_of keep.now without utility) }
    ensures { IfOk result (IsMade diagram.now.nodes (plan_of keep.now without utility)) }
{
    let planner = Planner::new(alloc, diagram)?;
    plan_by(alloc, diagram, &planner, keep, without, utility)
}
