//! What the last nodes of a walk add.

ghost use Rattle.std.specs.Prelude.{◌≡◌, ◌+◌, ◌*◌, ◌<◌, ◌≤◌, ◌++◌, [], ◌∷◌, Some, length, nat_abs, slice_index};
ghost use Rattle.maid_model.specs.Nodes.{counts_of};
ghost use Rattle.maid_model.specs.Diagrams.{greatest_number};
ghost use Rattle.maid_model.specs.Private.{MarksUtilities};
ghost use Rattle.maid_model.specs.Worlds.{IsWorld, world_of};
ghost use Rattle.tree_checker.specs.Settings.{HasRoomIn, HoldsWalkSetting, IsCellCount, ArePlacesIn, HasEnding, IsDownwardIn, IsLastIn, ending_of, GainsByEnding, GainsByLast, GainsByOne, HasRoomForLast, HasRoomToEnd, MassesByEnding, MassesByLast, MassesByOne};
ghost use Rattle.tree_checker.specs.Walks.{AreNodes, AreUtilities, IsDownward, IsEnding, MayBeBefore, ending, with_before, with_value, AddsMassAt, GainFits, last_nodes, last_two, places_further, AddsWeighedAt};

use crate::endings::{add_to_cell, add_world, place, set_state};
use crate::factors::factor;
use crate::settings::{Before, Last, Places, Setting};
use crate::strides::{cell_step, row_step};
use maid_model::{Diagram, Kind, World};
use node_sets::NodeSet;

/// The places of the worlds that differ from this one by having the last weighing node in its first
/// state.
fn places_at(setting: &Setting, last: &Last, world: &World) -> Places
    requires setting { HoldsWalkSetting setting.now }
    requires last { IsLastIn setting.now last.now }
    requires node { last.now.node < length setting.now.diagram.now.nodes }
    requires utility { last.now.utility < length setting.now.diagram.now.nodes }
    requires world { IsWorld (counts_of setting.now.diagram.now.nodes) world.now }
    ensures { ArePlacesIn setting.now last.now (world_of world.now) result }
{
    let diagram = setting.diagram;
    let state = world.states[last.node];
    Places {
        factor: world.row(diagram, last.node) * diagram.states(last.node),
        row: world.row(diagram, last.utility) - state * last.row_step,
        cell: place(diagram, setting.left_out, world) - state * last.cell_step,
    }
}

/// The places some states of a node further on.
fn further(places: Places, steps: Places, states: usize) -> Places
    requires factor { places.factor + states * steps.factor ≤ 65536 }
    requires row { places.row + states * steps.row ≤ 65536 }
    requires cell { places.cell + states * steps.cell ≤ 65536 }
    ensures { result ≡ places_further places steps states }
{
    Places {
        factor: places.factor + states * steps.factor,
        row: places.row + states * steps.row,
        cell: places.cell + states * steps.cell,
    }
}

/// Adds a world to the cell, with the utility's value in the row.
fn add_picked(
    values: &[i128],
    row: usize,
    cell: usize,
    product: u128,
    sum: i128,
    gains: &mut [i128],
    masses: &mut [u128],
)
    requires row { row < length values.now }
    requires gains { cell < length gains.old }
    requires masses { cell < length masses.old }
    requires sum { nat_abs (with_value sum values.now row) ≤ greatest_number }
    requires gain { GainFits gains.old cell product (with_value sum values.now row) }
    requires mass { slice_index masses.old cell + product ≤ greatest_number }
    ensures gains { AddsWeighedAt cell product (with_value sum values.now row) gains.old gains.new }
    ensures masses { AddsMassAt cell product masses.old masses.new }
    ensures gain_count { length gains.new ≡ length gains.old }
    ensures mass_count { length masses.new ≡ length masses.old }
{
    let more = sum + values[row];
    add_to_cell(cell, product, more, gains, masses);
}

/// Adds what the worlds have that the states of the last weighing node make in the world, which has
/// these places. From state to state the row and the cell are as far apart as the steps say, so
/// that only the clauses look at the world.
fn add_states(
    setting: &Setting,
    last: &Last,
    places: Places,
    world: &World,
    product: u128,
    utility: i128,
    gains: &mut [i128],
    masses: &mut [u128],
)
    requires setting { HoldsWalkSetting setting.now }
    requires last { IsLastIn setting.now last.now }
    requires order { IsDownwardIn setting.now (last_two last.now) }
    requires world { IsWorld (counts_of setting.now.diagram.now.nodes) world.now }
    requires places { ArePlacesIn setting.now last.now (world_of world.now) places }
    requires gains { IsCellCount setting.now (length gains.old) }
    requires masses { IsCellCount setting.now (length masses.old) }
    requires room { HasRoomIn setting.now (last_two last.now) product utility gains.old masses.old }
    ensures gains { GainsByOne setting.now last.now product utility world.now gains.old gains.new }
    ensures masses { MassesByOne setting.now last.now product world.now masses.old masses.new }
    ensures gain_count { length gains.new ≡ length gains.old }
    ensures mass_count { length masses.new ≡ length masses.old }
{
    let diagram = setting.diagram;
    let values = diagram.cells(last.utility);
    for s in 0..diagram.states(last.node) {
        let more = product * factor(setting.factors, last.node, places.factor + s);
        if more > 0 {
            add_picked(
                values,
                places.row + s * last.row_step,
                places.cell + s * last.cell_step,
                more,
                utility,
                gains,
                masses,
            );
        }
    }
}

/// Adds what the worlds have that the states of the last two weighing nodes make. Only at the first
/// state of the node before the last are the places looked for; from there on they are as far apart
/// as the steps say.
fn add_pairs(
    setting: &Setting,
    last: &Last,
    before: &Before,
    world: &mut World,
    product: u128,
    utility: i128,
    gains: &mut [i128],
    masses: &mut [u128],
)
    requires setting { HoldsWalkSetting setting.now }
    requires last { IsLastIn setting.now last.now }
    requires before { last.now.before ≡ Some before.now }
    requires order { IsDownwardIn setting.now (before.now.node ∷ last_two last.now) }
    requires world { IsWorld (counts_of setting.now.diagram.now.nodes) world.old }
    requires gains { IsCellCount setting.now (length gains.old) }
    requires masses { IsCellCount setting.now (length masses.old) }
    requires room { HasRoomForLast setting.now last.now product utility gains.old masses.old }
    ensures again { world.new ≡ world.old }
    ensures gains { GainsByLast setting.now last.now product utility world.old gains.old gains.new }
    ensures masses { MassesByLast setting.now last.now product world.old masses.old masses.new }
    ensures gain_count { length gains.new ≡ length gains.old }
    ensures mass_count { length masses.new ≡ length masses.old }
{
    let diagram = setting.diagram;
    let v = before.node;
    let states = diagram.states(v);
    let first = world.row(diagram, v) * states;
    let state = world.states[v];
    set_state(world, v, 0);
    let places = places_at(setting, last, world);
    for s in 0..states {
        let more = product * factor(setting.factors, v, first + s);
        if more > 0 {
            set_state(world, v, s);
            let there = further(places, before.steps, s);
            add_states(setting, last, there, world, more, utility, gains, masses);
        }
    }
    set_state(world, v, state);
}

/// Adds what the worlds have that the last weighing nodes make, one or two of them.
fn add_last(
    setting: &Setting,
    last: &Last,
    world: &mut World,
    product: u128,
    utility: i128,
    gains: &mut [i128],
    masses: &mut [u128],
)
    requires setting { HoldsWalkSetting setting.now }
    requires last { IsLastIn setting.now last.now }
    requires order { IsDownwardIn setting.now (last_nodes last.now) }
    requires world { IsWorld (counts_of setting.now.diagram.now.nodes) world.old }
    requires gains { IsCellCount setting.now (length gains.old) }
    requires masses { IsCellCount setting.now (length masses.old) }
    requires room { HasRoomForLast setting.now last.now product utility gains.old masses.old }
    ensures again { world.new ≡ world.old }
    ensures gains { GainsByLast setting.now last.now product utility world.old gains.old gains.new }
    ensures masses { MassesByLast setting.now last.now product world.old masses.old masses.new }
    ensures gain_count { length gains.new ≡ length gains.old }
    ensures mass_count { length masses.new ≡ length masses.old }
{
    match &last.before {
        Some(before) => add_pairs(
            setting, last, before, world, product, utility, gains, masses,
        ),
        None => {
            let places = places_at(setting, last, world);
            add_states(
                setting, last, places, world, product, utility, gains, masses,
            );
        }
    }
}

/// Adds what the worlds have that end as the setting says.
pub(crate) fn add_ending(
    setting: &Setting,
    world: &mut World,
    product: u128,
    utility: i128,
    gains: &mut [i128],
    masses: &mut [u128],
)
    requires setting { HoldsWalkSetting setting.now }
    requires ending { HasEnding setting.now }
    requires order { IsDownwardIn setting.now (ending_of setting.now) }
    requires world { IsWorld (counts_of setting.now.diagram.now.nodes) world.old }
    requires gains { IsCellCount setting.now (length gains.old) }
    requires masses { IsCellCount setting.now (length masses.old) }
    requires room { HasRoomToEnd setting.now product utility gains.old masses.old }
    ensures again { world.new ≡ world.old }
    ensures gains { GainsByEnding setting.now product utility world.old gains.old gains.new }
    ensures masses { MassesByEnding setting.now product world.old masses.old masses.new }
    ensures gain_count { length gains.new ≡ length gains.old }
    ensures mass_count { length masses.new ≡ length masses.old }
{
    match &setting.last {
        Some(last) => add_last(setting, last, world, product, utility, gains, masses),
        None => add_world(setting, world, product, utility, gains, masses),
    }
}

/// The nodes of the order but the last, where that weighs something.
fn split_before<'a>(
    diagram: &Diagram,
    left_out: usize,
    order: &'a [usize],
    last: usize,
    utility: usize,
) -> (&'a [usize], Option<Before>)
    requires decision { left_out ≤ length diagram.now.nodes }
    requires last { last < length diagram.now.nodes }
    requires utility { utility < length diagram.now.nodes }
    requires order { AreNodes diagram.now.nodes order.now }
    ensures whole { result.0.now ++ with_before result.1 [] ≡ order.now }
    ensures before { MayBeBefore diagram.now.nodes left_out last utility result.1 }
{
    if let [front @ .., v] = order {
        match diagram.kind(*v) {
            Kind::Utility => return (order, None),
            Kind::Chance | Kind::Decision => {
                let steps = Places {
                    factor: cell_step(diagram, last, *v),
                    row: row_step(diagram, utility, *v),
                    cell: cell_step(diagram, left_out, *v),
                };
                return (front, Some(Before { node: *v, steps }));
            }
        }
    }
    (order, None)
}

/// The nodes of the order that a walk goes down, and, where the tail is one marked utility, the
/// last weighing nodes with it.
pub(crate) fn split_last<'a>(
    diagram: &Diagram,
    marks: &NodeSet,
    left_out: usize,
    order: &'a [usize],
    tail: &[usize],
) -> (&'a [usize], Option<Last>)
    requires marks { MarksUtilities diagram.now.nodes marks.now }
    requires decision { left_out ≤ length diagram.now.nodes }
    requires order { IsDownward diagram.now.nodes (order.now ++ tail.now) }
    requires tail { AreUtilities diagram.now.nodes tail.now }
    ensures whole { result.0.now ++ ending result.1 tail.now ≡ order.now ++ tail.now }
    ensures ending { IsEnding diagram.now.nodes left_out marks.now result.1 tail.now }
{
    if let [front @ .., v] = order {
        if let [u] = tail {
            match diagram.kind(*v) {
                Kind::Utility => return (order, None),
                Kind::Chance | Kind::Decision => {
                    if !marks.holds(*u) {
                        return (order, None);
                    }
                    let (front, before) = split_before(diagram, left_out, front, *v, *u);
                    let last = Last {
                        node: *v,
                        utility: *u,
                        row_step: row_step(diagram, *u, *v),
                        cell_step: cell_step(diagram, left_out, *v),
                        before,
                    };
                    return (front, Some(last));
                }
            }
        }
    }
    (order, None)
}
