//! Sums over worlds by a walk down the nodes, parents first: products and sums are carried from
//! node to node.

ghost use Rattle.std.specs.Prelude.{◌≡◌, ◌*◌, ◌<◌, ◌≤◌, drop, IfOk, length, pos, replicate};
ghost use Rattle.maid_model.specs.Diagrams.{IsDiagram};
ghost use Rattle.maid_model.specs.Nodes.{counts_of};
ghost use Rattle.maid_model.specs.Private.{MarksUtilities};
ghost use Rattle.maid_model.specs.Profiles.{IsProfile};
ghost use Rattle.maid_model.specs.Worlds.{IsWorld, first_world};
ghost use Rattle.tree_checker.specs.Settings.{HoldsWalkSetting, IsCellCount, HasEnding, IsDownwardIn, GainsDown, HasRoomDown, MassesDown, walked};
ghost use Rattle.tree_checker.specs.Walks.{AreUtilities, IsDownward, HoldsCells, HoldsFactors, HasRoomWithout, ListsCells};
ghost use Rattle.diagram_graph.specs.Cycles.{IsNodeOrder, lists_in};
ghost use Rattle.diagram_graph.specs.Room.{cells_at};

use crate::endings::{set_state, value};
use crate::factors::{all_factors, factor};
use crate::lasts::{add_ending, split_last};
use crate::settings::Setting;
use diagram_graph::topological;
use maid_model::{Diagram, Kind, Profile, World};
use node_sets::NodeSet;
use std::alloc::{AllocError, Global};

/// Adds to each cell what the worlds with other states of the listed nodes and of those of the
/// ending have there: to `gains` the weights times the marked utilities, and to `masses` the
/// weights. It goes once through the states of a node for each choice of states of those before
/// that has some weight, and calls itself once for each node of the order at most. It takes no
/// memory.
fn walk(
    setting: &Setting,
    order: &[usize],
    world: &mut World,
    product: u128,
    utility: i128,
    gains: &mut [i128],
    masses: &mut [u128],
)
    requires setting { HoldsWalkSetting setting.now }
    requires ending { HasEnding setting.now }
    requires order { IsDownwardIn setting.now (walked setting.now order.now) }
    requires world { IsWorld (counts_of setting.now.diagram.now.nodes) world.old }
    requires gains { IsCellCount setting.now (length gains.old) }
    requires masses { IsCellCount setting.now (length masses.old) }
    requires room { HasRoomDown setting.now order.now product utility gains.old masses.old }
    ensures again { world.new ≡ world.old }
    ensures gains { GainsDown setting.now order.now product utility world.old gains.old gains.new }
    ensures masses { MassesDown setting.now order.now product world.old masses.old masses.new }
    ensures gain_count { length gains.new ≡ length gains.old }
    ensures mass_count { length masses.new ≡ length masses.old }
{
    match order {
        [] => add_ending(setting, world, product, utility, gains, masses),
        [v, rest @ ..] => {
            let diagram = setting.diagram;
            let states = diagram.states(*v);
            let row = world.row(diagram, *v);
            if let Kind::Utility = diagram.kind(*v) {
                let sum = utility + value(diagram, setting.marks, *v, row);
                walk(setting, rest, world, product, sum, gains, masses);
                return;
            }
            let before = world.states[*v];
            let first = row * states;
            for s in 0..states {
                let more = product * factor(setting.factors, *v, first + s);
                if more > 0 {
                    set_state(world, *v, s);
                    walk(setting, rest, world, more, utility, gains, masses);
                }
            }
            set_state(world, *v, before);
        }
    }
}

/// The gains and masses of the cells of one decision, each the sum over the worlds that pick the
/// cell.
#[derive(Drop)]
pub(crate) struct CellSums {
    /// For each cell the worlds' weights, without the decision's rule, times their marked
    /// utilities.
    pub gains: Vec<i128>,
    /// For each cell the worlds' weights alone.
    pub masses: Vec<u128>,
}

/// How many cells the decision has that is left out; 1 where none is.
fn cell_count(diagram: &Diagram, left_out: usize) -> usize
    requires { left_out ≤ length diagram.now.nodes }
    ensures cells { result
        ≡ cells_at diagram.now.nodes left_out }
    ensures diagram { IsDiagram diagram.now }
{
    if left_out == diagram.count() {
        return 1;
    }
    diagram.rows(left_out) * diagram.states(left_out)
}

/// How many nodes of the order stand before its tail of utilities.
fn weighed(diagram: &Diagram, order: &[usize]) -> usize
    requires { IsDownward diagram.now.nodes order.now }
    ensures within { result ≤ length order.now }
    ensures tail { AreUtilities diagram.now.nodes (drop result order.now) }
{
    let mut end = order.len();
    while end > 0 {
        match diagram.kind(order[end - 1]) {
            Kind::Utility => end -= 1,
            Kind::Chance | Kind::Decision => return end,
        }
    }
    end
}

/// Adds to the cells of the decision that is left out, each of which has nothing yet, the gains and
/// masses of all worlds of the diagram, with the nodes in this order and these factors of theirs.
/// It goes down the nodes once for each choice of states of those before, but for what has no
/// weight, and takes no memory.
pub(crate) fn add_worlds(
    diagram: &Diagram,
    profile: &Profile,
    marks: &NodeSet,
    left_out: usize,
    nodes: &[usize],
    factors: &[Vec<u128>],
    world: &mut World,
    gains: &mut [i128],
    masses: &mut [u128],
)
    requires profile { IsProfile diagram.now.nodes profile.now }
    requires marks { MarksUtilities diagram.now.nodes marks.now }
    requires decision { left_out ≤ length diagram.now.nodes }
    requires fits { HasRoomWithout diagram.now profile.now left_out }
    requires order { IsNodeOrder diagram.now.nodes nodes.now }
    requires factors { HoldsFactors diagram.now.nodes profile.now left_out (lists_in factors.now) }
    requires world { world.old ≡ first_world (length diagram.now.nodes) }
    requires known { IsWorld (counts_of diagram.now.nodes) world.old }
    requires gains { gains.old ≡ replicate (cells_at diagram.now.nodes left_out) (pos 0) }
    requires masses { masses.old ≡ replicate (cells_at diagram.now.nodes left_out) 0 }
    ensures again { world.new ≡ world.old }
    ensures cells { ListsCells diagram.now profile.now left_out marks.now gains.new masses.new }
{
    let _count = diagram.count();
    let (order, tail) = nodes.split_at(weighed(diagram, nodes));
    let (front, last) = split_last(diagram, marks, left_out, order, tail);
    let setting = Setting {
        diagram,
        profile,
        factors,
        marks,
        left_out,
        tail,
        last,
    };
    walk(&setting, front, world, 1, 0, gains, masses);
}

/// The gains and masses of the cells of the decision that is left out, over all worlds of the
/// diagram; where none is left out, the one cell has all worlds. It lists the factors of each node,
/// in as much memory as the tables and the rules take, and goes down the nodes once for each choice
/// of states of those before, but for what has no weight.
pub(crate) fn cells_over(
    alloc: Global,
    diagram: &Diagram,
    profile: &Profile,
    marks: &NodeSet,
    left_out: usize,
) -> Result<CellSums, AllocError>
    requires profile { IsProfile diagram.now.nodes profile.now }
    requires marks { MarksUtilities diagram.now.nodes marks.now }
    requires decision { left_out ≤ length diagram.now.nodes }
    requires fits { HasRoomWithout diagram.now profile.now left_out }
    ensures { IfOk result (HoldsCells diagram.now profile.now left_out marks.now) }
{
    let count = cell_count(diagram, left_out);
    let mut gains = vec![in alloc; 0; count]?;
    let mut masses = vec![in alloc; 0; count]?;
    let mut world = World::first(alloc, diagram)?;
    let factors = all_factors(alloc, diagram, profile, left_out)?;
    let nodes = topological(alloc, diagram)?;
    add_worlds(
        diagram,
        profile,
        marks,
        left_out,
        &nodes,
        &factors,
        &mut world,
        &mut gains,
        &mut masses,
    );
    Ok(CellSums { gains, masses })
}
