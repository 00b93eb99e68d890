//! What a report prints for each agent.

ghost use Rattle.std.specs.Prelude.{◌≡◌, ◌<◌, ◌≤◌, ◌↔◌, All, IfOk, IsTrue, length, nat_abs};
ghost use Rattle.maid_model.specs.Answers.{IsReduced};
ghost use Rattle.maid_model.specs.Diagrams.{greatest_number};
ghost use Rattle.maid_model.specs.Gains.{gain_of, mass};
ghost use Rattle.maid_model.specs.Profiles.{IsProfile};
ghost use Rattle.maid_model.specs.Scopes.{KeepsScopedBounds, utilities_for};
ghost use Rattle.maid_model.specs.Tables.{weight_total};
ghost use Rattle.part_laws.specs.ScopeLaws.{HasUnitRules};
ghost use Rattle.tree_checker.specs.Judged.{JudgesGains, AreWorth};
ghost use Rattle.maid_model.specs.Bounds.{HasRoomForWeight};

use crate::parts::ruled_part;
use crate::rows::is_fraction;
use crate::walks::cells_over;
use maid_model::{Diagram, Kind, Profile, Ratio, profile_has_rules};
use std::alloc::{AllocError, Global};

/// The utilities of the agent, in text order.
///
/// # Errors
///
/// Only where memory runs out.
pub fn utilities_of(
    alloc: Global,
    diagram: &Diagram,
    agent: usize,
) -> Result<Vec<usize>, AllocError>
    ensures { IfOk result (λ list. list.items ≡ utilities_for diagram.now.nodes agent) }
{
    let mut list = Vec::new(alloc);
    for v in 0..diagram.count() {
        if diagram.is_utility_of(agent, v) {
            list.push(v)?;
        }
    }
    Ok(list)
}

/// What each row of the node's table or rule adds up to; 1 at a utility.
fn total_of(diagram: &Diagram, profile: &Profile, v: usize) -> u128
    requires node { v < length diagram.now.nodes }
    requires profile { IsProfile diagram.now.nodes profile.now }
    ensures { result ≡ weight_total diagram.now.nodes profile.now v }
{
    // A profile has a rule for each decision.
    profile_has_rules();
    match diagram.kind(v) {
        Kind::Chance => diagram.weight_total(v),
        Kind::Decision => profile.rule(v).total,
        Kind::Utility => 1,
    }
}

/// The mass of the profile: the product of all tables' and rules' totals.
pub fn mass_of(diagram: &Diagram, profile: &Profile) -> u128
    requires profile { IsProfile diagram.now.nodes profile.now }
    requires fits { mass diagram.now.nodes profile.now ≤ greatest_number }
    ensures { result ≡ mass diagram.now.nodes profile.now }
{
    let mut mass = 1;
    for v in 0..diagram.count() {
        mass *= total_of(diagram, profile, v);
    }
    mass
}

/// The sum, over all worlds of the diagram, of the world's weight under the profile times the
/// agent's utilities. It lists the factors of each node, in as much memory as the tables and the
/// rules take, and goes down the nodes once for each choice of states of those before, but for what
/// has no weight.
///
/// # Errors
///
/// Only where memory runs out.
pub fn gain_over(
    alloc: Global,
    diagram: &Diagram,
    profile: &Profile,
    agent: usize,
) -> Result<i128, AllocError>
    requires profile { IsProfile diagram.now.nodes profile.now }
    requires fits { HasRoomForWeight diagram.now (mass diagram.now.nodes profile.now) }
    ensures sum { IfOk result (λ sum. sum ≡ gain_of diagram.now.nodes profile.now agent) }
    ensures small { IfOk result (λ sum. nat_abs sum ≤ greatest_number) }
{
    let marks = diagram.utilities_of(agent);
    let sums = cells_over(alloc, diagram, profile, &marks, diagram.count())?;
    Ok(sums.gains[0])
}

/// Whether the fraction is what the chosen rules are worth to the agent, by the worlds of the part
/// that the agent's utilities and their ancestors make, by one walk.
fn is_gain(
    alloc: Global,
    diagram: &Diagram,
    chosen: &Profile,
    agent: usize,
    gain: &Ratio,
) -> Result<bool, AllocError>
    requires agent { agent < diagram.now.agents }
    requires chosen { IsProfile diagram.now.nodes chosen.now }
    requires pure { HasUnitRules diagram.now.nodes chosen.now }
    requires bound { KeepsScopedBounds diagram.now }
    requires reduced { IsReduced gain.now }
    ensures { IfOk result (λ is. IsTrue is ↔ AreWorth diagram.now chosen.now agent gain.now) }
{
    let _count = diagram.count();
    let utilities = utilities_of(alloc, diagram, agent)?;
    let ruled = ruled_part(alloc, diagram, chosen, &utilities)?;
    let sum = gain_over(alloc, &ruled.part.diagram, &ruled.rules, agent)?;
    let mass = mass_of(&ruled.part.diagram, &ruled.rules);
    Ok(is_fraction(*gain, sum, mass * diagram.scale()))
}

/// The first agent for which something else is printed than what the chosen rules are worth to it.
pub(crate) fn first_wrong_gain(
    alloc: Global,
    diagram: &Diagram,
    chosen: &Profile,
    gains: &[Ratio],
) -> Result<Option<usize>, AllocError>
    requires chosen { IsProfile diagram.now.nodes chosen.now }
    requires pure { HasUnitRules diagram.now.nodes chosen.now }
    requires bound { KeepsScopedBounds diagram.now }
    requires count { length gains.now ≡ diagram.now.agents }
    requires reduced { All IsReduced gains.now }
    ensures { IfOk result (JudgesGains diagram.now chosen.now gains.now) }
{
    for (agent, gain) in gains.iter().enumerate() {
        if !is_gain(alloc, diagram, chosen, agent, gain)? {
            return Ok(Some(agent));
        }
    }
    Ok(None)
}
