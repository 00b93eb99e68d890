//! Sums of tables of any nodes, within limits that the caller sets.

ghost use Rattle.std.specs.Prelude.{◌≡◌, ◌↔◌, ℕ, ◌<◌, ◌≤◌, All, length, None};
ghost use Rattle.maid_model.specs.declared.limits.TheConstants.{MOST_PLAN_CELLS};
ghost use Rattle.maid_model.specs.Profiles.{IsProfile};
ghost use Rattle.node_sets.specs.declared.sets.TheConstants.{MOST_NODES};
ghost use Rattle.node_sets.specs.Sets.{IsIn};
ghost use Rattle.factor_core.specs.Operations.{NumbersFit};
ghost use Rattle.eliminate.specs.Limits.{scopes_at, live_scopes, AreLiveTooMuch, CanMultiplyLive, IsFirstScope, ListsOrNone, MultipliesIfSome, SpendsProduct, SpendsStep};
ghost use Rattle.eliminate.specs.Places.{IsBlankFor, IsRanking, TellsHolders};
ghost use Rattle.eliminate.specs.Steps.{NumbersFitIn};
ghost use Rattle.eliminate.specs.Results.{Grows, FindTablesIn, NoneIffTooMuch, SumsFitIn, SumsIfSome};

use crate::counts::{Limits, count_cells, spend};
use crate::firsts::{Play, put_table};
use crate::lists::{RunLists, before};
use crate::places::{Order, Places, all_live, gather, gather_live, places_of, set_order};
use crate::runs::eliminate;
use cell_rings::Cell;
use factor_core::{Slot, Workspace, united_scope};
use maid_model::{Diagram, Kind, Profile};
use node_sets::{MOST_NODES, NodeSet};

/// The nodes of the node's first table: its parents, and itself unless it is a utility.
fn first_scope(diagram: &Diagram, node: usize) -> NodeSet
    requires { node < length diagram.now.nodes }
    ensures { IsFirstScope diagram.now.nodes node result }
{
    let mut scope = NodeSet::empty();
    scope.insert_all(diagram.parents(node));
    match diagram.kind(node) {
        Kind::Utility => {}
        Kind::Chance | Kind::Decision => {
            scope.insert(node);
        }
    }
    scope
}

/// Appends the first tables of the nodes, and lists their slots. Gives what is left of the limits,
/// where they are kept.
fn list_tables<C: Cell>(
    work: &mut Workspace<C>,
    play: &Play,
    nodes: &[usize],
    live: &mut [Slot],
    limits: Limits,
) -> Option<Limits>
    requires profile { IsProfile play.now.diagram.now.nodes play.now.profile.now }
    requires known { All (λ v. v < length play.now.diagram.now.nodes) nodes.now }
    requires numbers { All (NumbersFitIn C.ring.most play.now) nodes.now }
    requires small { limits.cells ≤ MOST_PLAN_CELLS }
    requires room { limits.cells ≤ work.old.spare }
    requires len { length nodes.now ≤ length live.old }
    ensures lists { ListsOrNone C.Cell play.now work.old work.new live.new nodes.now limits result }
    ensures grows { Grows C.ring play.now.diagram.now.nodes work.old work.new }
{
    let mut left = limits;
    let mut count = 0;
    for node in nodes {
        let cells = count_cells(play.diagram, &first_scope(play.diagram, *node));
        left = spend(left, cells, 0, 0)?;
        count = put_table(work, play, live, count, *node);
    }
    Some(left)
}

/// What is left of the limits after a step, which makes a table over the nodes of the live slots
/// that hold the node.
fn spend_on_step(
    diagram: &Diagram,
    slots: &[Slot],
    at: &[NodeSet],
    joined: &mut [Slot],
    places: &Places,
    node: usize,
    left: Limits,
) -> Option<Limits>
    requires within { (k : ℕ) → IsIn places.now.live k → k < places.now.made }
    requires made { places.now.made ≤ length slots.now }
    requires slots { length slots.now ≤ MOST_NODES }
    requires joined { length joined.old ≡ length slots.now }
    requires node { (node < length at.now) × (node < MOST_NODES) }
    requires held { TellsHolders at.now places.now slots.now node }
    ensures { SpendsStep diagram.now.nodes node (live_scopes places.now slots.now) left result }
{
    let held = places_of(at, places, node);
    let count = gather(before(slots, places.made), &held, joined);
    let scope = united_scope(before(joined, count));
    let mut rest = scope;
    rest.remove(node);
    spend(
        left,
        count_cells(diagram, &rest),
        count_cells(diagram, &scope),
        count,
    )
}

/// What is left of the limits after the product of the slots.
fn spend_on_product(diagram: &Diagram, slots: &[Slot], left: Limits) -> Option<Limits>
    ensures { SpendsProduct diagram.now.nodes (scopes_at slots.now) left result }
{
    let cells = count_cells(diagram, &united_scope(slots));
    spend(left, cells, cells, slots.len())
}

/// The product of the live slots, unless it asks for more than what is left of the limits.
fn multiply_live<C: Cell>(
    work: &mut Workspace<C>,
    diagram: &Diagram,
    slots: &[Slot],
    joined: &mut [Slot],
    places: &Places,
    left: Limits,
) -> Option<Slot>
    requires within { (k : ℕ) → IsIn places.now.live k → k < places.now.made }
    requires made { places.now.made ≤ length slots.now }
    requires slots { length slots.now ≤ MOST_NODES }
    requires joined { length joined.old ≡ length slots.now }
    requires product { CanMultiplyLive C.ring diagram.now work.old places.now slots.now }
    requires small { left.cells ≤ MOST_PLAN_CELLS }
    requires room { left.cells ≤ work.old.spare }
    ensures some { MultipliesIfSome C.ring diagram.now
        work.old work.new places.now slots.now result }
    ensures none { (result ≡ None) ↔ AreLiveTooMuch diagram.now places.now slots.now left }
    ensures grows { Grows C.ring diagram.now.nodes work.old work.new }
{
    let count = gather_live(slots, places, joined);
    let last = before(joined, count);
    spend_on_product(diagram, last, left)?;
    Some(work.product(diagram, last))
}

/// The sum with these lists to write its places and slots into.
fn sum_with<C: Cell>(
    work: &mut Workspace<C>,
    diagram: &Diagram,
    profile: &Profile,
    nodes: &[usize],
    steps: &[usize],
    limits: Limits,
    order: &Order,
    at: &mut [NodeSet],
    slots: &mut [Slot],
    joined: &mut [Slot],
) -> Option<Slot>
    requires at { length diagram.now.nodes ≤ length at.old }
    requires blank { IsBlankFor order.now.ranks.now order.now.count at.old }
    requires same { length at.old ≡ length order.now.ranks.now }
    requires ranking { IsRanking order.now.ranks.now steps.now }
    requires count { order.now.count ≡ length steps.now }
    requires tables { length nodes.now ≤ length slots.old }
    requires slots { length slots.old ≤ MOST_NODES }
    requires joined { length joined.old ≡ length slots.old }
    requires profile { IsProfile diagram.now.nodes profile.now }
    requires known { All (λ v. v < length diagram.now.nodes) nodes.now }
    requires numbers { All (NumbersFit C.ring.most diagram.now.nodes profile.now) nodes.now }
    requires steps { All (λ v. v < length diagram.now.nodes) steps.now }
    requires holds { FindTablesIn C.Cell diagram.now profile.now nodes.now steps.now }
    requires fits { SumsFitIn C.Cell diagram.now profile.now nodes.now steps.now }
    requires small { limits.cells ≤ MOST_PLAN_CELLS }
    requires room { limits.cells ≤ work.old.spare }
    ensures some { SumsIfSome C.Cell diagram.now profile.now nodes.now steps.now work.new result }
    ensures none { NoneIffTooMuch C.Cell diagram.now profile.now nodes.now steps.now limits result }
    ensures grows { Grows C.ring diagram.now.nodes work.old work.new }
{
    let _count = diagram.count();
    let play = Play { diagram, profile };
    let mut left = list_tables(work, &play, nodes, slots, limits)?;
    let mut places = all_live(slots, at, order, nodes.len());
    for node in steps {
        left = spend_on_step(diagram, slots, at, joined, &places, *node, left)?;
        places = eliminate(work, &play, slots, at, order, joined, places, *node);
    }
    multiply_live(work, diagram, slots, joined, &places, left)
}

/// The sum with lists for any number of nodes, into which it first writes the order of its steps.
fn sum_in_order<C: Cell>(
    work: &mut Workspace<C>,
    diagram: &Diagram,
    profile: &Profile,
    nodes: &[usize],
    steps: &[usize],
    limits: Limits,
    at: &mut [NodeSet],
    ranks: &mut [usize],
    slots: &mut [Slot],
    joined: &mut [Slot],
) -> Option<Slot>
    requires at { length at.old ≡ MOST_NODES }
    requires ranks { length ranks.old ≡ MOST_NODES }
    requires slots { length slots.old ≡ MOST_NODES }
    requires joined { length joined.old ≡ MOST_NODES }
    requires profile { IsProfile diagram.now.nodes profile.now }
    requires known { All (λ v. v < length diagram.now.nodes) nodes.now }
    requires few { length nodes.now ≤ MOST_NODES }
    requires numbers { All (NumbersFit C.ring.most diagram.now.nodes profile.now) nodes.now }
    requires steps { All (λ v. v < length diagram.now.nodes) steps.now }
    requires holds { FindTablesIn C.Cell diagram.now profile.now nodes.now steps.now }
    requires fits { SumsFitIn C.Cell diagram.now profile.now nodes.now steps.now }
    requires small { limits.cells ≤ MOST_PLAN_CELLS }
    requires room { limits.cells ≤ work.old.spare }
    ensures some { SumsIfSome C.Cell diagram.now profile.now nodes.now steps.now work.new result }
    ensures none { NoneIffTooMuch C.Cell diagram.now profile.now nodes.now steps.now limits result }
    ensures grows { Grows C.ring diagram.now.nodes work.old work.new }
{
    let (at, _) = at.split_at_mut(diagram.count());
    let (ranks, _) = ranks.split_at_mut(diagram.count());
    set_order(ranks, at, steps);
    let order = Order {
        ranks,
        count: steps.len(),
    };
    sum_with(
        work, diagram, profile, nodes, steps, limits, &order, at, slots, joined,
    )
}

/// Sums tables, where that keeps the limits: makes the first tables of these nodes, eliminates the
/// nodes of `steps` in their order, and multiplies the tables that are left. The slot is over the
/// nodes of these, the lowest slowest, and in each world its cell is their product. `None` where
/// the tables have more cells together than the limits allow, or ask for more work. It takes no
/// memory, and goes over no joined set before it knows that the limits allow that.
pub fn sum_tables<C: Cell>(
    work: &mut Workspace<C>,
    lists: &mut RunLists,
    diagram: &Diagram,
    profile: &Profile,
    nodes: &[usize],
    steps: &[usize],
    limits: Limits,
) -> Option<Slot>
    requires profile { IsProfile diagram.now.nodes profile.now }
    requires known { All (λ v. v < length diagram.now.nodes) nodes.now }
    requires few { length nodes.now ≤ MOST_NODES }
    requires numbers { All (NumbersFit C.ring.most diagram.now.nodes profile.now) nodes.now }
    requires steps { All (λ v. v < length diagram.now.nodes) steps.now }
    requires holds { FindTablesIn C.Cell diagram.now profile.now nodes.now steps.now }
    requires fits { SumsFitIn C.Cell diagram.now profile.now nodes.now steps.now }
    requires small { limits.cells ≤ MOST_PLAN_CELLS }
    requires room { limits.cells ≤ work.old.spare }
    ensures some { SumsIfSome C.Cell diagram.now profile.now nodes.now steps.now work.new result }
    ensures none { NoneIffTooMuch C.Cell diagram.now profile.now nodes.now steps.now limits result }
    ensures grows { Grows C.ring diagram.now.nodes work.old work.new }
{
    sum_in_order(
        work,
        diagram,
        profile,
        nodes,
        steps,
        limits,
        lists.at.as_mut_slice(),
        lists.ranks.as_mut_slice(),
        lists.slots.as_mut_slice(),
        lists.joined.as_mut_slice(),
    )
}
