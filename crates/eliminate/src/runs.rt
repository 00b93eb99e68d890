//! Runs of plans.

ghost use Rattle.std.specs.Prelude.{◌≡◌, ◌+◌, ◌*◌, ◌<◌, ◌≤◌, [], length};
ghost use Rattle.maid_model.specs.declared.limits.TheConstants.{COUNT_END};
ghost use Rattle.maid_model.specs.Profiles.{IsProfile};
ghost use Rattle.node_sets.specs.declared.sets.TheConstants.{MOST_NODES};
ghost use Rattle.size_precheck.specs.Sizes.{CanBePlanned, IsMade};
ghost use Rattle.eliminate.specs.Results.{plan_total, SumsPlanIn};
ghost use Rattle.eliminate.specs.Places.{IsBlankFor, IsBoard, IsRanking, TellsHolders};
ghost use Rattle.eliminate.specs.Steps.{first_nodes, CanJoinLive, Joins};

use crate::firsts::{Play, first_tables};
use crate::lists::{RunLists, before};
use crate::places::{Order, Places, all_live, gather, gather_live, places_of, put_slot, set_order};
use cell_rings::Cell;
use factor_core::{Slot, Workspace};
use maid_model::{Diagram, Profile};
use node_sets::{MOST_NODES, NodeSet};
use size_precheck::Plan;

/// Ends all tables of the workspace: no cell is left, and there is as much room as after `reserve`.
/// It takes no memory.
pub fn release<C: Cell>(work: &mut Workspace<C>)
    ensures { work.new ≡ record { cells = []; spare = work.old.spare + length work.old.cells } }
{
    work.clear();
}

/// A step: the live slots that hold the node give way to their join with the node summed out.
pub fn eliminate<C: Cell>(
    work: &mut Workspace<C>,
    play: &Play,
    slots: &mut [Slot],
    at: &mut [NodeSet],
    order: &Order,
    joined: &mut [Slot],
    places: Places,
    node: usize,
) -> Places
    requires board { IsBoard order.now at.old slots.old places }
    requires made { places.made ≤ length slots.old }
    requires slots { length slots.old ≤ MOST_NODES }
    requires joined { length joined.old ≡ length slots.old }
    requires node { node < length at.old }
    requires held { TellsHolders at.old places slots.old node }
    requires join { CanJoinLive C.ring play.now work.old places slots.old node }
    ensures board { IsBoard order.now at.new slots.new result }
    ensures made { result.made ≤ length slots.old }
    ensures step { Joins C.ring play.now work.old work.new places slots.old result slots.new node }
{
    let held = places_of(at, &places, node);
    let count = gather(before(slots, places.made), &held, joined);
    let slot = work.join_out(play.diagram, before(joined, count), node);
    let left = Places {
        live: places.live.difference(&held),
        made: places.made,
    };
    put_slot(slots, at, order, left, joined, &slot)
}

/// The run of the plan with these lists to write its places and slots into. No step leaves more
/// slots than it found.
fn run_with<C: Cell>(
    work: &mut Workspace<C>,
    plan: &Plan,
    diagram: &Diagram,
    profile: &Profile,
    order: &Order,
    at: &mut [NodeSet],
    slots: &mut [Slot],
    joined: &mut [Slot],
) -> Slot
    requires nodes { length diagram.now.nodes ≤ length at.old }
    requires blank { IsBlankFor order.now.ranks.now order.now.count at.old }
    requires same { length at.old ≡ length order.now.ranks.now }
    requires ranking { IsRanking order.now.ranks.now plan.now.steps }
    requires count { order.now.count ≡ length plan.now.steps }
    requires tables { length (first_nodes diagram.now.nodes plan.now.plan) ≤ length slots.old }
    requires slots { length slots.old ≤ MOST_NODES }
    requires joined { length joined.old ≡ length slots.old }
    requires asked { CanBePlanned diagram.now.nodes plan.now.plan }
    requires made { IsMade diagram.now.nodes plan.now.plan plan.now }
    requires counted { plan.now.size.cells < COUNT_END }
    requires room { plan.now.size.cells ≤ work.old.spare }
    requires profile { IsProfile diagram.now.nodes profile.now }
    requires fits { 2 * plan_total diagram.now.nodes profile.now plan.now.plan ≤ C.ring.most }
    ensures { SumsPlanIn C.Cell diagram.now profile.now plan.now work.old work.new result }
{
    let play = Play { diagram, profile };
    let count = first_tables(work, plan, &play, slots);
    let mut places = all_live(slots, at, order, count);
    for node in plan.steps() {
        places = eliminate(work, &play, slots, at, order, joined, places, *node);
    }
    let count = gather_live(slots, &places, joined);
    work.product(diagram, before(joined, count))
}

/// The run of the plan with lists for any number of nodes, into which it first writes the order of
/// its steps.
fn run_in_order<C: Cell>(
    work: &mut Workspace<C>,
    plan: &Plan,
    diagram: &Diagram,
    profile: &Profile,
    at: &mut [NodeSet],
    ranks: &mut [usize],
    slots: &mut [Slot],
    joined: &mut [Slot],
) -> Slot
    requires at { length at.old ≡ MOST_NODES }
    requires ranks { length ranks.old ≡ MOST_NODES }
    requires slots { length slots.old ≡ MOST_NODES }
    requires joined { length joined.old ≡ MOST_NODES }
    requires asked { CanBePlanned diagram.now.nodes plan.now.plan }
    requires made { IsMade diagram.now.nodes plan.now.plan plan.now }
    requires counted { plan.now.size.cells < COUNT_END }
    requires room { plan.now.size.cells ≤ work.old.spare }
    requires profile { IsProfile diagram.now.nodes profile.now }
    requires fits { 2 * plan_total diagram.now.nodes profile.now plan.now.plan ≤ C.ring.most }
    ensures { SumsPlanIn C.Cell diagram.now profile.now plan.now work.old work.new result }
{
    let (at, _) = at.split_at_mut(diagram.count());
    let (ranks, _) = ranks.split_at_mut(diagram.count());
    set_order(ranks, at, plan.steps());
    let order = Order {
        ranks,
        count: plan.steps().len(),
    };
    run_with(work, plan, diagram, profile, &order, at, slots, joined)
}

/// Runs the plan: makes its first tables, eliminates its nodes in their order, and multiplies the
/// tables that are left (variable elimination: Zhang and Poole 1996). The slot is over the kept
/// nodes, the lowest slowest, and in each world its cell is the sum, over the states of the plan's
/// other nodes, of the product of the plan's tables. The plan's cells, of which the count has not
/// stopped, must be within the room that is left, and as many are appended. It multiplies and adds
/// cells about as often as the plan's work counts, sets the lists as far as there are nodes, and
/// takes no memory.
pub fn run_plan<C: Cell>(
    work: &mut Workspace<C>,
    lists: &mut RunLists,
    plan: &Plan,
    diagram: &Diagram,
    profile: &Profile,
) -> Slot
    requires asked { CanBePlanned diagram.now.nodes plan.now.plan }
    requires made { IsMade diagram.now.nodes plan.now.plan plan.now }
    requires counted { plan.now.size.cells < COUNT_END }
    requires room { plan.now.size.cells ≤ work.old.spare }
    requires profile { IsProfile diagram.now.nodes profile.now }
    requires fits { 2 * plan_total diagram.now.nodes profile.now plan.now.plan ≤ C.ring.most }
    ensures { SumsPlanIn C.Cell diagram.now profile.now plan.now work.old work.new result }
{
    run_in_order(
        work,
        plan,
        diagram,
        profile,
        lists.at.as_mut_slice(),
        lists.ranks.as_mut_slice(),
        lists.slots.as_mut_slice(),
        lists.joined.as_mut_slice(),
    )
}
