//! The weight of a world, and the cells that it picks.

ghost use Rattle.std.specs.Prelude.{◌<◌, ◌≤◌, length};
ghost use Rattle.maid_model.specs.Nodes.{counts_of};
ghost use Rattle.maid_model.specs.Diagrams.{greatest_number};
ghost use Rattle.maid_model.specs.Profiles.{IsProfile};
ghost use Rattle.maid_model.specs.Private.{HasPlaces, IsFactor, IsWeight};
ghost use Rattle.maid_model.specs.Gains.{base_mass, base_total};
ghost use Rattle.maid_model.specs.Worlds.{IsWorld};

use crate::diagrams::{Diagram, Kind};
use crate::profiles::Profile;
use crate::worlds::World;
use node_sets::MOST_NODES;

/// At which place of the profile each decision's rule stands, so that no sum over worlds has to
/// search for it.
pub(crate) fn rule_places(diagram: &Diagram, profile: &Profile) -> [usize; MOST_NODES]
    requires { IsProfile diagram.now.nodes profile.now }
    ensures { HasPlaces diagram.now.nodes profile.now result }
{
    let mut places = [0; MOST_NODES];
    for v in 0..diagram.count() {
        if let Kind::Decision = diagram.kind(v) {
            places[v] = profile.place(v);
        }
    }
    places
}

/// The node's factor in the weight of a world: the chance cell or rule weight that the world picks,
/// and 1 at a utility and at the decision that is left out.
fn factor(
    diagram: &Diagram,
    profile: &Profile,
    places: &[usize],
    left_out: usize,
    v: usize,
    world: &World,
) -> u128
    requires node { v < length diagram.now.nodes }
    requires profile { IsProfile diagram.now.nodes profile.now }
    requires places { HasPlaces diagram.now.nodes profile.now places.now }
    requires world { IsWorld (counts_of diagram.now.nodes) world.now }
    ensures factor { IsFactor diagram.now.nodes profile.now left_out v world.now result }
    ensures within { result ≤ base_total diagram.now.nodes profile.now left_out v }
{
    let kind = diagram.kind(v);
    if v == left_out {
        return 1;
    }
    match kind {
        Kind::Utility => 1,
        Kind::Chance => diagram.cells(v)[world.cell(diagram, v)] as u128,
        Kind::Decision => profile.weight_at(places[v], world.cell(diagram, v)),
    }
}

/// The weight of the world under the profile, but for the rule of the decision that is left out.
pub(crate) fn world_weight(
    diagram: &Diagram,
    profile: &Profile,
    places: &[usize],
    left_out: usize,
    world: &World,
) -> u128
    requires profile { IsProfile diagram.now.nodes profile.now }
    requires places { HasPlaces diagram.now.nodes profile.now places.now }
    requires world { IsWorld (counts_of diagram.now.nodes) world.now }
    requires fits { base_mass diagram.now.nodes profile.now left_out ≤ greatest_number }
    ensures weight { IsWeight diagram.now.nodes profile.now left_out world.now result }
    ensures within { result ≤ base_mass diagram.now.nodes profile.now left_out }
{
    let mut weight: u128 = 1;
    for v in 0..diagram.count() {
        weight *= factor(diagram, profile, places, left_out, v, world);
        if weight == 0 {
            return 0;
        }
    }
    weight
}
