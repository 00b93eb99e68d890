//! A whole diagram, updated round by round.

ghost use Rattle.std.specs.Prelude.{◌≡◌, ◌<◌, ℕ, IfOk, OnOk, length, slice_index};
ghost use Rattle.first_fault.specs.Answers.{Passes};
ghost use Rattle.maid_model.specs.Nodes.{agent_of, decisions_of};
ghost use Rattle.maid_model.specs.Scopes.{KeepsScopedBounds};
ghost use Rattle.maid_model.specs.Subgames.{OwnsAll};
ghost use Rattle.policy_update.specs.Faults.{HasTwoOwners, rounds_pass, update_fault, update_pass};
ghost use Rattle.policy_update.specs.Steps.{EndsAt, IsPlannedRun, IsProfileOf};
ghost use Rattle.reach_laws.specs.Updates.{start_profile};
ghost use Rattle.rule_solver.specs.Masses.{HasGains};
ghost use Rattle.rule_solver.specs.Rooms.{AreReady};
ghost use Rattle.policy_update.specs.Updated.{IsLocallyOptimal, IsUpdateOf, RoundsRaise};

use crate::UpdateFault;
use crate::keeping::Kept;
use crate::limits::{keep_bound, keep_one_owner, keep_sizes};
use crate::rounds::go_rounds;
use crate::starting::first_choices;
use maid_model::{Answer, Diagram, Profile, Ratio};
use reach_laws::{local_optimum, pure_profiles_listed, round_raises};
use rule_solver::{Workspaces, expected_along};
use size_precheck::RunPlans;
use std::alloc::{AllocError, Global};
use std::marker::Model;

/// An updated diagram: how many rounds raised, an answer for each decision in text order, each row
/// with its choice and without a worth, and each agent's expected utility under these choices.
#[derive(Debug, Drop)]
pub struct Updated {
    pub rounds: u64,
    pub answers: Vec<Answer>,
    pub gains: Vec<Ratio>,
}

impl Model for Updated {
    ghost use Rattle.policy_update.specs.Updated.{UpdatedView};

    ghost Value = { UpdatedView };

    ghost view = { λ u.
        record { rounds = u.rounds; answers = u.answers.items; gains = u.gains.items } };
}

/// Who owns the first decision.
fn owner(diagram: &Diagram, decisions: &[usize]) -> usize
    requires decisions { decisions.now ≡ decisions_of diagram.now.nodes }
    requires some { 0 < length decisions.now }
    ensures owner { result ≡ agent_of diagram.now.nodes (slice_index decisions.now 0) }
    ensures within { result < diagram.now.agents }
{
    diagram.agent_of(decisions[0])
}

/// What the rounds come to: how many raised before the first that did not, where one did not, and
/// what the choices are worth to each agent.
#[derive(Drop)]
struct End {
    raised: Option<u64>,
    gains: Vec<Ratio>,
}

/// Goes through so many rounds by the plans of the run, or to the first that does not raise, and
/// tells how many raised before that one.
fn go_planned(
    alloc: Global,
    diagram: &Diagram,
    decisions: &[usize],
    run: &RunPlans,
    profile: &mut Profile,
    answers: &mut [Answer],
    rounds: u64,
    spaces: &mut Workspaces,
) -> Result<Option<u64>, AllocError>
    requires decisions { decisions.now ≡ decisions_of diagram.now.nodes }
    requires owner { (agent : ℕ) × OwnsAll diagram.now.nodes agent }
    requires bound { KeepsScopedBounds diagram.now }
    requires run { IsPlannedRun diagram.now.nodes run.now }
    requires ready { AreReady run.now.size.cells spaces.old }
    requires plan { IsProfileOf diagram.now.nodes answers.old profile.old }
    requires start { profile.old ≡ start_profile diagram.now.nodes }
    ensures plan { OnOk result (IsProfileOf diagram.now.nodes answers.new profile.new) }
    ensures again { OnOk result (spaces.new ≡ spaces.old) }
    ensures settled { IfOk result (EndsAt diagram.now.nodes rounds profile.new) }
{
    pure_profiles_listed();
    let kept = Kept::new(alloc, diagram, decisions, profile, &run.decisions)?;
    go_rounds(alloc, diagram, profile, answers, rounds, &kept, spaces)
}

/// Goes through so many rounds, or to the first that does not raise, and tells what they come to.
/// The workspaces are reserved once.
fn go_to_end(
    alloc: Global,
    diagram: &Diagram,
    decisions: &[usize],
    run: &RunPlans,
    profile: &mut Profile,
    answers: &mut [Answer],
    rounds: u64,
) -> Result<End, AllocError>
    requires decisions { decisions.now ≡ decisions_of diagram.now.nodes }
    requires owner { (agent : ℕ) × OwnsAll diagram.now.nodes agent }
    requires bound { KeepsScopedBounds diagram.now }
    requires run { IsPlannedRun diagram.now.nodes run.now }
    requires plan { IsProfileOf diagram.now.nodes answers.old profile.old }
    requires start { profile.old ≡ start_profile diagram.now.nodes }
    ensures plan { OnOk result (IsProfileOf diagram.now.nodes answers.new profile.new) }
    ensures settled { IfOk result (λ end. EndsAt diagram.now.nodes rounds profile.new end.raised) }
    ensures gains { IfOk result (λ end.
        HasGains diagram.now profile.new diagram.now.agents end.gains.items) }
{
    pure_profiles_listed();
    let mut spaces = Workspaces::reserve(alloc, run.size.cells as usize)?;
    let raised = go_planned(
        alloc,
        diagram,
        decisions,
        run,
        profile,
        answers,
        rounds,
        &mut spaces,
    )?;
    let gains = expected_along(alloc, diagram, profile, &run.worths, &mut spaces)?;
    Ok(End { raised, gains })
}

/// The result of updating from the first states of all by the plans of the run, or the expected
/// utility after so many rounds, each of which raised.
fn update_within(
    alloc: Global,
    diagram: &Diagram,
    decisions: &[usize],
    run: &RunPlans,
    rounds: u64,
) -> Result<Updated, UpdateFault>
    requires decisions { decisions.now ≡ decisions_of diagram.now.nodes }
    requires owner { (agent : ℕ) × OwnsAll diagram.now.nodes agent }
    requires bound { KeepsScopedBounds diagram.now }
    requires run { IsPlannedRun diagram.now.nodes run.now }
    requires some { 0 < rounds }
    ensures rows { Passes update_fault (rounds_pass diagram.now rounds) result }
    ensures ok { IfOk result (IsUpdateOf diagram.now) }
{
    round_raises();
    let _count = diagram.count();
    let mut answers = first_choices(alloc, diagram, decisions)?;
    let mut profile = Profile::pure(alloc, diagram, &answers)?;
    let End { raised, gains } = go_to_end(
        alloc,
        diagram,
        decisions,
        run,
        &mut profile,
        &mut answers,
        rounds,
    )?;
    match raised {
        Some(raised) => Ok(Updated {
            rounds: raised,
            answers,
            gains,
        }),
        None => Err(UpdateFault::RoundsSpent {
            rounds,
            gain: gains[owner(diagram, decisions)],
        }),
    }
}

/// The result of single policy updating (Lauritzen and Nilsson 2001), for an agent that owns all
/// decisions, whether or not they rely on one another in a cycle.
///
/// It starts from the first state everywhere. A round goes through the decisions in text order:
/// against all other choices as they stand, each row of a decision keeps its choice where no state
/// has a greater gain, and else takes the first state of greatest gain. A round raises where it
/// changes a choice; the result is what stands before the first round that does not. No other rule
/// of any one decision is worth more to the agent.
///
/// All plans are made once and kept, with the decisions' scopes and the totals of all nodes, and
/// the workspaces are reserved once, with room for the most cells of a plan. The first round asks
/// `rule_solver::Setting::row_gains` for each decision, which runs the plans of the decision's
/// goals; later ones ask only for those in whose scope a choice changed since they were asked for.
/// A round takes memory for new rows only where a choice changes. At the end
/// `rule_solver::expected_along` runs the plan of each utility.
///
/// # Errors
///
/// The first of these that holds: `NotOneAgent` where two decisions have different owners,
/// `WeightBound` where a scope passes the weight bound, `TooLarge` where a plan has more than
/// 4,194,304 cells, or all plans together have more than 134,217,728 steps of work, each decision's
/// counted once, and `RoundsSpent` where each of the first `rounds` rounds raises. `NoMemory` may
/// come at any point.
pub fn update(alloc: Global, diagram: &Diagram, rounds: u64) -> Result<Updated, UpdateFault>
    requires { 0 < rounds }
    // A result where nothing refuses the diagram, and else the first refusal that applies.
    ensures rows { Passes update_fault (update_pass diagram.now rounds) result }
    ensures ok { IfOk result (IsUpdateOf diagram.now) }
    // No other rule of any one decision, pure or not, is worth more to its agent.
    ensures local { IfOk result (IsLocallyOptimal diagram.now) }
    // Each round that raises makes the agent's expected utility greater.
    ensures rises { (HasTwoOwners diagram.now.nodes → ⊥) → RoundsRaise diagram.now.nodes }
{
    round_raises();
    local_optimum();
    let _count = diagram.count();
    let decisions = diagram.decisions(alloc)?;
    keep_one_owner(diagram, &decisions)?;
    keep_bound(diagram)?;
    let run = keep_sizes(alloc, diagram, &decisions)?;
    update_within(alloc, diagram, &decisions, &run, rounds)
}
