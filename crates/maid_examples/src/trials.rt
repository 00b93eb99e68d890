//! The small diagrams and profiles as values, which meet their literals, and room for their sums.

ghost use Rattle.std.specs.Prelude.{◌≡◌, ◌∷◌, [], IfOk};
ghost use Rattle.maid_examples.specs.Samples.{plan, rule};
ghost use Rattle.maid_examples.specs.FollowerLeader.{sight_diagram};
ghost use Rattle.maid_examples.specs.CopySeen.{copied_diagram};
ghost use Rattle.maid_examples.specs.CopyAnswered.{trace_diagram};
ghost use Rattle.maid_examples.specs.EmptyThreat.{moves_diagram, threat};
ghost use Rattle.maid_examples.specs.Pennies.{pennies_diagram};
ghost use Rattle.maid_examples.specs.Team.{team_diagram, plan as team_rules};
ghost use Rattle.maid_examples.specs.Trial.{HasRoomForTrial};
ghost use Rattle.maid_examples.specs.Trip.{trip_diagram, plan as planned};
ghost use Rattle.maid_examples.specs.NodeBetween.{joined_diagram, parted_diagram, asks_much, asks_little};

use crate::{
    a_trip, copy_in_place, empty_threat, follower_and_leader, one_state_between, shared_result,
};
use maid_model::{Diagram, Kind, Profile, Rule, World, base_sums, leaf_sum};
use sample_diagrams::{chance, decision, sample_diagram, shared_utility, utility};
use std::alloc::{AllocError, Global};

pub(crate) fn sight(alloc: Global) -> Result<Diagram, AllocError>
    ensures { IfOk result (λ d. d ≡ sight_diagram) }
{
    let nodes = [
        decision(0, 2, &[]),
        decision(1, 2, &[0]),
        utility(0, &[0, 1], &[5, -1, 3, 0]),
        utility(1, &[0, 1], &[-2, 1, 5, 0]),
    ];
    sample_diagram(alloc, &nodes, 2, 0)
}

pub(crate) fn copied(alloc: Global) -> Result<Diagram, AllocError>
    ensures { IfOk result (λ d. d ≡ copied_diagram) }
{
    let nodes = [
        decision(0, 2, &[]),
        chance(2, &[0], &[1, 0, 0, 1]),
        decision(1, 2, &[1]),
        utility(0, &[0, 2], &[5, -1, 3, 0]),
        utility(1, &[0, 2], &[-2, 1, 5, 0]),
    ];
    sample_diagram(alloc, &nodes, 2, 0)
}

pub(crate) fn joined(alloc: Global) -> Result<Diagram, AllocError>
    ensures { IfOk result (λ d. d ≡ joined_diagram) }
{
    let nodes = [
        decision(0, 2, &[]),
        chance(2, &[0], &[1, 0, 0, 1]),
        decision(1, 2, &[]),
        utility(0, &[0, 2], &[5, -1, 3, 0]),
        utility(1, &[1, 2], &[-2, 1, 5, 0]),
    ];
    sample_diagram(alloc, &nodes, 2, 0)
}

pub(crate) fn parted(alloc: Global) -> Result<Diagram, AllocError>
    ensures { IfOk result (λ d. d ≡ parted_diagram) }
{
    let nodes = [
        decision(0, 2, &[]),
        chance(1, &[0], &[1, 1]),
        decision(1, 2, &[]),
        utility(0, &[0, 2], &[5, -1, 3, 0]),
        utility(1, &[1, 2], &[3, 1]),
    ];
    sample_diagram(alloc, &nodes, 2, 0)
}

fn moves(alloc: Global) -> Result<Diagram, AllocError>
    ensures { IfOk result (λ d. d ≡ moves_diagram) }
{
    let nodes = [
        decision(0, 2, &[]),
        decision(1, 2, &[0]),
        utility(0, &[0, 1], &[2, 0, 3, 1]),
        utility(1, &[0, 1], &[1, 0, 0, 1]),
    ];
    sample_diagram(alloc, &nodes, 2, 0)
}

pub(crate) fn coins(alloc: Global) -> Result<Diagram, AllocError>
    ensures { IfOk result (λ d. d ≡ pennies_diagram) }
{
    let nodes = [
        decision(0, 2, &[]),
        decision(1, 2, &[]),
        utility(0, &[0, 1], &[1, -1, -1, 1]),
        utility(1, &[0, 1], &[-1, 1, 1, -1]),
    ];
    sample_diagram(alloc, &nodes, 2, 0)
}

pub(crate) fn trace(alloc: Global) -> Result<Diagram, AllocError>
    ensures { IfOk result (λ d. d ≡ trace_diagram) }
{
    let nodes = [
        decision(0, 2, &[]),
        chance(2, &[0], &[1, 0, 0, 1]),
        decision(1, 2, &[1]),
        utility(0, &[0], &[1, 0]),
        utility(1, &[0, 2], &[1, 0, 0, 1]),
    ];
    sample_diagram(alloc, &nodes, 2, 0)
}

pub(crate) fn trip(alloc: Global) -> Result<Diagram, AllocError>
    ensures { IfOk result (λ d. d ≡ trip_diagram) }
{
    let nodes = [
        chance(2, &[], &[1, 3]),
        decision(0, 2, &[0]),
        utility(0, &[0, 1], &[5, 0, -1, 7]),
    ];
    sample_diagram(alloc, &nodes, 1, 0)
}

pub(crate) fn team(alloc: Global) -> Result<Diagram, AllocError>
    ensures { IfOk result (λ d. d ≡ team_diagram) }
{
    let nodes = [
        decision(0, 2, &[]),
        decision(1, 2, &[0]),
        shared_utility(0, &[1], &[0, 1], &[3, 0, 0, 2]),
        utility(1, &[1], &[0, 2]),
    ];
    sample_diagram(alloc, &nodes, 2, 0)
}

fn rule(alloc: Global, decision: usize, total: u128, weights: &[u128]) -> Result<Rule, AllocError>
    ensures { IfOk result (λ r. r ≡ rule decision total weights.now) }
{
    Ok(Rule {
        decision,
        total,
        weights: Vec::from_slice(alloc, weights)?,
    })
}

/// The pure rule of node 0 with the weights `leads`, and the rule of another decision.
fn profile_of(
    alloc: Global,
    leads: &[u128],
    decision: usize,
    total: u128,
    follows: &[u128],
) -> Result<Profile, AllocError>
    ensures { IfOk result (λ p. p ≡ rule 0 1 leads.now ∷ rule decision total follows.now ∷ []) }
{
    let mut rules = Vec::new(alloc);
    rules.push(rule(alloc, 0, 1, leads)?)?;
    rules.push(rule(alloc, decision, total, follows)?)?;
    Ok(Profile::from_rules(rules))
}

fn plan_in_sight(alloc: Global) -> Result<Profile, AllocError>
    ensures { IfOk result (λ p. p ≡ plan 1) }
{
    profile_of(alloc, &[0, 1], 1, 1, &[0, 1, 1, 0])
}

fn plan_by_copy(alloc: Global) -> Result<Profile, AllocError>
    ensures { IfOk result (λ p. p ≡ plan 2) }
{
    profile_of(alloc, &[0, 1], 2, 1, &[0, 1, 1, 0])
}

fn asks_much(alloc: Global) -> Result<Profile, AllocError>
    ensures { IfOk result (λ p. p ≡ asks_much) }
{
    profile_of(alloc, &[1, 0], 2, 2, &[1, 1])
}

fn asks_little(alloc: Global) -> Result<Profile, AllocError>
    ensures { IfOk result (λ p. p ≡ asks_little) }
{
    profile_of(alloc, &[0, 1], 2, 2, &[1, 1])
}

fn threat(alloc: Global) -> Result<Profile, AllocError>
    ensures { IfOk result (λ p. p ≡ threat) }
{
    profile_of(alloc, &[0, 1], 1, 1, &[0, 1, 0, 1])
}

fn team_rules(alloc: Global) -> Result<Profile, AllocError>
    ensures { IfOk result (λ p. p ≡ team_rules) }
{
    profile_of(alloc, &[1, 0], 1, 1, &[1, 0, 0, 1])
}

/// To stay in the rain and go in the sun.
fn outing(alloc: Global) -> Result<Profile, AllocError>
    ensures { IfOk result (λ p. p ≡ planned) }
{
    let mut rules = Vec::new(alloc);
    rules.push(rule(alloc, 1, 1, &[1, 0, 0, 1])?)?;
    Ok(Profile::from_rules(rules))
}

/// Whether N of the agent is this.
fn has_gain(
    alloc: Global,
    diagram: &Diagram,
    profile: &Profile,
    agent: usize,
    gain: i128,
) -> Result<bool, AllocError>
    requires { HasRoomForTrial (record { diagram = diagram.now; profile = profile.now }) }
{
    let mut world = World::first(alloc, diagram)?;
    Ok(leaf_sum(diagram, profile, agent, &mut world) == gain)
}

/// Whether the node is a decision whose sums are these: G, row by row and the state fastest, and R
/// of each row.
fn has_sums(
    alloc: Global,
    diagram: &Diagram,
    profile: &Profile,
    decision: usize,
    gains: &[i128],
    masses: &[u128],
) -> Result<bool, AllocError>
    requires { HasRoomForTrial (record { diagram = diagram.now; profile = profile.now }) }
{
    if decision >= diagram.count() || diagram.kind(decision) != Kind::Decision {
        return Ok(false);
    }
    let mut world = World::first(alloc, diagram)?;
    let rows = diagram.rows(decision);
    let mut of_rows = vec![in alloc; 0; rows]?;
    let mut of_states = vec![in alloc; 0; rows * diagram.states(decision)]?;
    base_sums(
        diagram,
        profile,
        decision,
        &mut world,
        &mut of_states,
        &mut of_rows,
    );
    Ok(of_states.as_slice() == gains && of_rows.as_slice() == masses)
}

/// A decision, its G, row by row and the state fastest, and R of each row.
pub(crate) type Sums<'a> = (usize, &'a [i128], &'a [u128]);

/// Whether the agents' N are these, from agent 0 on, and so the sums of each of these decisions.
fn has(
    alloc: Global,
    diagram: &Diagram,
    profile: &Profile,
    gains: &[i128],
    sums: &[Sums],
) -> Result<bool, AllocError>
    requires { HasRoomForTrial (record { diagram = diagram.now; profile = profile.now }) }
{
    for (agent, gain) in gains.iter().enumerate() {
        if !has_gain(alloc, diagram, profile, agent, *gain)? {
            return Ok(false);
        }
    }
    for (decision, gains, masses) in sums {
        if !has_sums(alloc, diagram, profile, *decision, gains, masses)? {
            return Ok(false);
        }
    }
    Ok(true)
}

// Each of these tells whether its diagram has these N and sums under its rules. The law before it
// says that they are a profile of the diagram.

pub(crate) fn sight_uniform_has(
    alloc: Global,
    gains: &[i128],
    sums: &[Sums],
) -> Result<bool, AllocError> {
    follower_and_leader();
    let diagram = sight(alloc)?;
    let profile = Profile::uniform(alloc, &diagram)?;
    has(alloc, &diagram, &profile, gains, sums)
}

pub(crate) fn sight_plan_has(
    alloc: Global,
    gains: &[i128],
    sums: &[Sums],
) -> Result<bool, AllocError> {
    follower_and_leader();
    let diagram = sight(alloc)?;
    let profile = plan_in_sight(alloc)?;
    has(alloc, &diagram, &profile, gains, sums)
}

pub(crate) fn copied_uniform_has(
    alloc: Global,
    gains: &[i128],
    sums: &[Sums],
) -> Result<bool, AllocError> {
    copy_in_place();
    let diagram = copied(alloc)?;
    let profile = Profile::uniform(alloc, &diagram)?;
    has(alloc, &diagram, &profile, gains, sums)
}

pub(crate) fn copied_plan_has(
    alloc: Global,
    gains: &[i128],
    sums: &[Sums],
) -> Result<bool, AllocError> {
    copy_in_place();
    let diagram = copied(alloc)?;
    let profile = plan_by_copy(alloc)?;
    has(alloc, &diagram, &profile, gains, sums)
}

pub(crate) fn joined_uniform_has(
    alloc: Global,
    gains: &[i128],
    sums: &[Sums],
) -> Result<bool, AllocError> {
    one_state_between();
    let diagram = joined(alloc)?;
    let profile = Profile::uniform(alloc, &diagram)?;
    has(alloc, &diagram, &profile, gains, sums)
}

pub(crate) fn joined_much_has(
    alloc: Global,
    gains: &[i128],
    sums: &[Sums],
) -> Result<bool, AllocError> {
    one_state_between();
    let diagram = joined(alloc)?;
    let profile = asks_much(alloc)?;
    has(alloc, &diagram, &profile, gains, sums)
}

pub(crate) fn joined_little_has(
    alloc: Global,
    gains: &[i128],
    sums: &[Sums],
) -> Result<bool, AllocError> {
    one_state_between();
    let diagram = joined(alloc)?;
    let profile = asks_little(alloc)?;
    has(alloc, &diagram, &profile, gains, sums)
}

pub(crate) fn parted_uniform_has(
    alloc: Global,
    gains: &[i128],
    sums: &[Sums],
) -> Result<bool, AllocError> {
    one_state_between();
    let diagram = parted(alloc)?;
    let profile = Profile::uniform(alloc, &diagram)?;
    has(alloc, &diagram, &profile, gains, sums)
}

pub(crate) fn parted_much_has(
    alloc: Global,
    gains: &[i128],
    sums: &[Sums],
) -> Result<bool, AllocError> {
    one_state_between();
    let diagram = parted(alloc)?;
    let profile = asks_much(alloc)?;
    has(alloc, &diagram, &profile, gains, sums)
}

pub(crate) fn parted_little_has(
    alloc: Global,
    gains: &[i128],
    sums: &[Sums],
) -> Result<bool, AllocError> {
    one_state_between();
    let diagram = parted(alloc)?;
    let profile = asks_little(alloc)?;
    has(alloc, &diagram, &profile, gains, sums)
}

pub(crate) fn threatened_has(
    alloc: Global,
    gains: &[i128],
    sums: &[Sums],
) -> Result<bool, AllocError> {
    empty_threat();
    let diagram = moves(alloc)?;
    let profile = threat(alloc)?;
    has(alloc, &diagram, &profile, gains, sums)
}

pub(crate) fn trip_uniform_has(
    alloc: Global,
    gains: &[i128],
    sums: &[Sums],
) -> Result<bool, AllocError> {
    a_trip();
    let diagram = trip(alloc)?;
    let profile = Profile::uniform(alloc, &diagram)?;
    has(alloc, &diagram, &profile, gains, sums)
}

pub(crate) fn trip_plan_has(
    alloc: Global,
    gains: &[i128],
    sums: &[Sums],
) -> Result<bool, AllocError> {
    a_trip();
    let diagram = trip(alloc)?;
    let profile = outing(alloc)?;
    has(alloc, &diagram, &profile, gains, sums)
}

pub(crate) fn team_uniform_has(
    alloc: Global,
    gains: &[i128],
    sums: &[Sums],
) -> Result<bool, AllocError> {
    shared_result();
    let diagram = team(alloc)?;
    let profile = Profile::uniform(alloc, &diagram)?;
    has(alloc, &diagram, &profile, gains, sums)
}

pub(crate) fn team_plan_has(
    alloc: Global,
    gains: &[i128],
    sums: &[Sums],
) -> Result<bool, AllocError> {
    shared_result();
    let diagram = team(alloc)?;
    let profile = team_rules(alloc)?;
    has(alloc, &diagram, &profile, gains, sums)
}
