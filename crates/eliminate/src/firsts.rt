//! The first tables of a plan.

ghost use Rattle.std.specs.Prelude.{◌≡◌, ◌↔◌, ℕ, ◌+◌, ◌*◌, ◌<◌, ◌≤◌, length, take, Contains, Some};
ghost use Rattle.maid_model.specs.Diagrams.{IsDiagram};
ghost use Rattle.maid_model.specs.Profiles.{IsProfile};
ghost use Rattle.node_sets.specs.declared.sets.TheConstants.{MOST_NODES};
ghost use Rattle.node_sets.specs.Sets.{IsIn};
ghost use Rattle.plan_sums.specs.Laws.{IsOrderOfPlan};
ghost use Rattle.size_precheck.specs.Sizes.{CanBePlanned};
ghost use Rattle.eliminate.specs.Results.{total_of};
ghost use Rattle.eliminate.specs.Steps.{HasOwnTable, HasSlotsForFirsts, HasSpareForFirsts, HasSpareForTable, ListsFirst, NumbersFitIn, PutsFirst};

use cell_rings::Cell;
use factor_core::{Slot, Workspace};
use maid_model::{Diagram, Profile};
use node_sets::NodeSet;
use size_precheck::Plan;

/// A diagram, and the profile that it is played with.
#[derive(Drop)]
pub struct Play<'a> {
    pub diagram: &'a Diagram,
    pub profile: &'a Profile,
}

/// The nodes whose own tables the plan has: those that it keeps or eliminates, but for the decision
/// left out.
fn ruled_nodes(plan: &Plan) -> NodeSet
    requires keep { (v : ℕ) → Contains plan.now.plan.keep v → v < MOST_NODES }
    requires steps { (v : ℕ) → Contains plan.now.steps v → v < MOST_NODES }
    requires without { (d : ℕ) → plan.now.plan.without ≡ Some d → d < MOST_NODES }
    ensures { (v : ℕ) → IsIn result v ↔ HasOwnTable plan.now v }
{
    let mut ruled = NodeSet::empty();
    ruled.insert_all(plan.keep());
    ruled.insert_all(plan.steps());
    if let Some(d) = plan.without() {
        ruled.remove(d);
    }
    ruled
}

/// Appends the first table of the node, and writes its slot behind the first `count`. Gives how
/// many there are now.
pub fn put_table<C: Cell>(
    work: &mut Workspace<C>,
    play: &Play,
    live: &mut [Slot],
    count: usize,
    node: usize,
) -> usize
    requires profile { IsProfile play.now.diagram.now.nodes play.now.profile.now }
    requires count { count < length live.old }
    requires node { node < length play.now.diagram.now.nodes }
    requires fit { NumbersFitIn C.ring.most play.now node }
    requires room { HasSpareForTable C.Cell play.now node work.old }
    ensures count { result ≡ count + 1 }
    ensures puts { PutsFirst C.Cell play.now work.old work.new count live.old result live.new node }
{
    live[count] = work.table(play.diagram, play.profile, node);
    count + 1
}

/// Appends the first tables of the plan, and lists their slots: those of its nodes in text order,
/// but for the decision left out, and that of its utility. Gives how many there are.
pub fn first_tables<C: Cell>(
    work: &mut Workspace<C>,
    plan: &Plan,
    play: &Play,
    live: &mut [Slot],
) -> usize
    requires asked { CanBePlanned play.now.diagram.now.nodes plan.now.plan }
    requires order { IsOrderOfPlan play.now.diagram.now.nodes plan.now.plan plan.now.steps }
    requires profile { IsProfile play.now.diagram.now.nodes play.now.profile.now }
    requires fits { 2 * total_of play.now plan.now.plan ≤ C.ring.most }
    requires room { HasSpareForFirsts C.Cell play.now plan.now.plan work.old }
    requires tables { HasSlotsForFirsts play.now plan.now.plan live.old }
    ensures diagram { IsDiagram play.now.diagram.now }
    ensures few { result ≤ length live.old }
    ensures lists { ListsFirst C.Cell play.now plan.now work.old work.new (take result live.new) }
{
    let _count = play.diagram.count();
    let ruled = ruled_nodes(plan);
    let mut count = 0;
    let mut next = 0;
    'tables: while let Some(v) = ruled.first_from(next) {
        count = put_table(work, play, live, count, v);
        next = v + 1;
    }
    match plan.utility() {
        Some(u) => put_table(work, play, live, count, u),
        None => count,
    }
}
