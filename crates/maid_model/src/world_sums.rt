//! The two sums over all worlds.

ghost use Rattle.std.specs.Prelude.{◌≡◌, ℕ, ◌+◌, ◌*◌, ◌<◌, ◌≤◌, length, pos, ◌+ℤ◌, nat_abs, slice_index, slice_index_or, slice_set};
ghost use Rattle.maid_model.specs.Nodes.{IsDecision, counts_of, rows_of};
ghost use Rattle.maid_model.specs.Private.{AddsMass, MarksUtilities, marked_gain, marked_utility};
ghost use Rattle.maid_model.specs.Diagrams.{greatest_number};
ghost use Rattle.maid_model.specs.Profiles.{IsProfile};
ghost use Rattle.maid_model.specs.Gains.{AreGainsAt, AreMassesAt, HasGainCells, gain_of, greatest_utility, mass};
ghost use Rattle.maid_model.specs.Worlds.{IsWorld, first_world, world_of};
ghost use Rattle.maid_model.specs.Bounds.{HasRoomForBase, HasRoomForWeight};

use crate::diagrams::Diagram;
use crate::profiles::Profile;
use crate::utilities::goals_of;
use crate::weights::{rule_places, world_weight};
use crate::worlds::World;
use node_sets::NodeSet;

/// The sum, over all worlds, of the world's weight under the profile times the agent's utilities.
/// It goes through all worlds, and in each through all arcs. The world comes as the first and is
/// the first again in the end. It takes no memory.
pub fn leaf_sum(diagram: &Diagram, profile: &Profile, agent: usize, world: &mut World) -> i128
    requires profile { IsProfile diagram.now.nodes profile.now }
    requires first { world.old ≡ first_world (length diagram.now.nodes) }
    requires fits { HasRoomForWeight diagram.now (mass diagram.now.nodes profile.now) }
    ensures sum { result ≡ gain_of diagram.now.nodes profile.now agent }
    ensures small { nat_abs result ≤ greatest_number }
    ensures again { world.new ≡ world.old }
{
    let places = rule_places(diagram, profile);
    let marks = diagram.utilities_of(agent);
    let nothing = diagram.count();
    let mut sum: i128 = 0;
    'worlds: loop {
        let weight = world_weight(diagram, profile, &places, nothing, world);
        sum += world_gain(diagram, &marks, weight, world);
        if !world.next(diagram) {
            return sum;
        }
    }
}

/// The two sums of the decision against the profile as its base: in `gains` the gain of each state
/// in each row, row by row and the state fastest, and in `masses` the mass of each row at the first
/// state. It goes through all worlds, and in each through all arcs. The world comes as the first
/// and is the first again in the end. It takes no memory.
pub fn base_sums(
    diagram: &Diagram,
    profile: &Profile,
    decision: usize,
    world: &mut World,
    gains: &mut [i128],
    masses: &mut [u128],
)
    requires decision { IsDecision diagram.now.nodes decision }
    requires profile { IsProfile diagram.now.nodes profile.now }
    requires first { world.old ≡ first_world (length diagram.now.nodes) }
    requires gains { HasGainCells diagram.now.nodes decision gains.old }
    requires masses { length masses.old ≡ rows_of diagram.now.nodes decision }
    requires fits { HasRoomForBase diagram.now profile.now decision }
    ensures gains { AreGainsAt diagram.now.nodes profile.now decision gains.new }
    ensures masses { AreMassesAt diagram.now.nodes profile.now decision masses.new }

    // The room that the bound leaves in them.
    ensures gains_small { (i : ℕ) → nat_abs (slice_index_or gains.new i (pos 0)) ≤ greatest_number }
    ensures masses_small { (row : ℕ) → HasRoomForWeight diagram.now (slice_index masses.new row) }
    ensures again { world.new ≡ world.old }
{
    let places = rule_places(diagram, profile);
    let marks = goals_of(diagram, decision);
    let states = diagram.states(decision);
    gains.fill(0);
    masses.fill(0);
    'worlds: loop {
        let weight = world_weight(diagram, profile, &places, decision, world);
        let gain = world_gain(diagram, &marks, weight, world);
        let row = world.row(diagram, decision);
        let state = world.states[decision];
        add_gain(gains, row * states + state, gain);
        add_mass(masses, state, row, weight);
        if !world.next(diagram) {
            return;
        }
    }
}

/// The sum of the marked utilities in the world.
fn marked_utility(diagram: &Diagram, marks: &NodeSet, world: &World) -> i128
    requires marks { MarksUtilities diagram.now.nodes marks.now }
    requires world { IsWorld (counts_of diagram.now.nodes) world.now }
    requires fits { greatest_utility diagram.now.nodes ≤ greatest_number }
    ensures sum { result ≡ marked_utility diagram.now.nodes marks.now (world_of world.now) }
    ensures within { nat_abs result ≤ greatest_utility diagram.now.nodes }
{
    let mut sum: i128 = 0;
    for v in 0..diagram.count() {
        if !marks.holds(v) {
            continue;
        }
        sum += diagram.cells(v)[world.row(diagram, v)];
    }
    sum
}

/// What a world of that weight adds to a sum of gains: its weight times its marked utilities.
fn world_gain(diagram: &Diagram, marks: &NodeSet, weight: u128, world: &World) -> i128
    requires marks { MarksUtilities diagram.now.nodes marks.now }
    requires world { IsWorld (counts_of diagram.now.nodes) world.now }
    requires utility { greatest_utility diagram.now.nodes ≤ greatest_number }
    requires weight { weight ≤ greatest_number }
    requires fits { weight * greatest_utility diagram.now.nodes ≤ greatest_number }
    ensures { result ≡ marked_gain diagram.now.nodes marks.now weight world.now }
{
    if weight == 0 {
        return 0;
    }
    weight as i128 * marked_utility(diagram, marks, world)
}

/// Adds the gain to its cell.
fn add_gain(gains: &mut [i128], cell: usize, gain: i128)
    requires cell { cell < length gains.old }
    requires fits { nat_abs (slice_index_or gains.old cell (pos 0) +ℤ gain) ≤ greatest_number }
    ensures { gains.new ≡ slice_set gains.old cell (slice_index_or gains.old cell (pos 0) +ℤ gain) }
{
    gains[cell] += gain;
}

/// Adds the weight to the row's mass, at the first state alone.
fn add_mass(masses: &mut [u128], state: usize, row: usize, weight: u128)
    requires row { row < length masses.old }
    requires fits { slice_index masses.old row + weight ≤ greatest_number }
    ensures { AddsMass state row weight masses.old masses.new }
{
    if state == 0 {
        masses[row] += weight;
    }
}
