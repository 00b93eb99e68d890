//! What one world adds to a sum over worlds.

ghost use Rattle.std.specs.Prelude.{◌≡◌, ◌+◌, ◌*◌, ◌<◌, ◌≤◌, length, pos, ◌*ℤ◌, slice_index, slice_set};
ghost use Rattle.maid_model.specs.Diagrams.{IsDiagram, greatest_number};
ghost use Rattle.maid_model.specs.Nodes.{counts_of, rows_of};
ghost use Rattle.maid_model.specs.Private.{MarksUtilities};
ghost use Rattle.maid_model.specs.Tables.{cell_of};
ghost use Rattle.maid_model.specs.Worlds.{IsWorld, world_of};
ghost use Rattle.tree_checker.specs.Walks.{IsDownward, value_at, GainFits, gains_raised, masses_raised, HasRoomForUtilities, utility_in};
ghost use Rattle.tree_checker.specs.Settings.{AddsWorldGain, AddsWorldMass, HasRoomForWorld, HoldsWalkSetting, IsCellCount, IsDownwardIn};
ghost use Rattle.diagram_graph.specs.Room.{cells_at};

use crate::settings::Setting;
use maid_model::{Diagram, World};
use node_sets::NodeSet;

/// Gives the node another state.
pub(crate) fn set_state(world: &mut World, v: usize, state: usize)
    requires { v < length world.old }
    ensures { world.new ≡ slice_set world.old v state }
{
    world.states[v] = state;
}

/// The cell of that row, if the node is marked; 0 elsewhere.
pub(crate) fn value(diagram: &Diagram, marks: &NodeSet, v: usize, row: usize) -> i128
    requires node { v < length diagram.now.nodes }
    requires marks { MarksUtilities diagram.now.nodes marks.now }
    requires row { row < rows_of diagram.now.nodes v }
    ensures { result ≡ value_at diagram.now.nodes marks.now v row }
{
    let cells = diagram.cells(v);
    if !marks.holds(v) {
        return 0;
    }
    cells[row]
}

/// The cell that the world picks in the decision that is left out; 0 where none is.
pub(crate) fn place(diagram: &Diagram, left_out: usize, world: &World) -> usize
    requires decision { left_out ≤ length diagram.now.nodes }
    requires world { IsWorld (counts_of diagram.now.nodes) world.now }
    ensures place { result ≡ cell_of diagram.now.nodes left_out (world_of world.now) }
    ensures within { result
        < cells_at diagram.now.nodes left_out }
{
    if left_out == diagram.count() {
        return 0;
    }
    world.cell(diagram, left_out)
}

/// The utility so far and the marked cells that the world picks in the listed nodes.
fn utility_in(
    diagram: &Diagram,
    marks: &NodeSet,
    list: &[usize],
    world: &World,
    utility: i128,
) -> i128
    requires diagram { IsDiagram diagram.now }
    requires marks { MarksUtilities diagram.now.nodes marks.now }
    requires list { IsDownward diagram.now.nodes list.now }
    requires world { IsWorld (counts_of diagram.now.nodes) world.now }
    requires room { HasRoomForUtilities diagram.now.nodes list.now utility }
    ensures { result ≡ utility_in diagram.now.nodes marks.now list.now utility world.now }
{
    match list {
        [] => utility,
        [v, rest @ ..] => {
            let more = value(diagram, marks, *v, world.row(diagram, *v));
            utility_in(diagram, marks, rest, world, utility + more)
        }
    }
}

/// Adds the weight and gain to the cell.
pub(crate) fn add_to_cell(
    cell: usize,
    product: u128,
    utility: i128,
    gains: &mut [i128],
    masses: &mut [u128],
)
    requires gains { cell < length gains.old }
    requires masses { cell < length masses.old }
    requires gain { GainFits gains.old cell product utility }
    requires mass { slice_index masses.old cell + product ≤ greatest_number }
    ensures gains { gains.new ≡ gains_raised gains.old cell (pos product *ℤ utility) }
    ensures masses { masses.new ≡ masses_raised masses.old cell product }
{
    gains[cell] += product as i128 * utility;
    masses[cell] += product;
}

/// Adds what one world has to the cell that it picks, with the marked utilities of the setting's
/// tail.
pub(crate) fn add_world(
    setting: &Setting,
    world: &World,
    product: u128,
    utility: i128,
    gains: &mut [i128],
    masses: &mut [u128],
)
    requires setting { HoldsWalkSetting setting.now }
    requires tail { IsDownwardIn setting.now setting.now.tail.now }
    requires world { IsWorld (counts_of setting.now.diagram.now.nodes) world.now }
    requires gains { IsCellCount setting.now (length gains.old) }
    requires masses { IsCellCount setting.now (length masses.old) }
    requires room { HasRoomForWorld setting.now product utility gains.old masses.old }
    ensures gains { AddsWorldGain setting.now product utility world.now gains.old gains.new }
    ensures masses { AddsWorldMass setting.now product world.now masses.old masses.new }
    ensures gain_count { length gains.new ≡ length gains.old }
    ensures mass_count { length masses.new ≡ length masses.old }
{
    let diagram = setting.diagram;
    let sum = utility_in(diagram, setting.marks, setting.tail, world, utility);
    let cell = place(diagram, setting.left_out, world);
    add_to_cell(cell, product, sum, gains, masses);
}
