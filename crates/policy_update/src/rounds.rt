//! Rounds: the decisions are improved one by one.

ghost use Rattle.std.specs.Prelude.{◌≡◌, ◌<◌, ℕ, IfOk, OnOk, length, slice_index};
ghost use Rattle.maid_laws.specs.Optimum.{IsPure};
ghost use Rattle.maid_model.specs.Answers.{FitsAnswer};
ghost use Rattle.maid_model.specs.Nodes.{decisions_of};
ghost use Rattle.maid_model.specs.Scopes.{KeepsScopedBounds};
ghost use Rattle.maid_model.specs.Subgames.{OwnsAll};
ghost use Rattle.reach_laws.specs.Updates.{IsUpdateRound, start_profile};
ghost use Rattle.policy_update.specs.Kept.{AreKept};
ghost use Rattle.policy_update.specs.Steps.{AreSettledBut, EndsAt, ImprovesOrKeeps, IsProfileOf, IsStepAt, TellsChange};

use crate::keeping::Kept;
use crate::rows::{improved_rows, keep_choices};
use maid_model::{Answer, Diagram, Profile, Row, Rule, profile_has_rules};
use node_sets::NodeSet;
use part_laws::{parts_decide, scopes_are_parts};
use reach_laws::pure_profiles_listed;
use rule_solver::{Setting, Workspaces};
use std::alloc::{AllocError, Global};

/// The rows of the answer at a place in text order, each improved with all other rules as they
/// stand; `None` where all keep their choices.
fn improvement(
    alloc: Global,
    diagram: &Diagram,
    profile: &Profile,
    answer: &Answer,
    place: usize,
    kept: &Kept,
    spaces: &mut Workspaces,
) -> Result<Option<Vec<Row>>, AllocError>
    requires bound { KeepsScopedBounds diagram.now }
    requires kept { AreKept diagram.now.nodes kept.now spaces.old }
    requires pure { IsPure diagram.now.nodes profile.now }
    requires fits { FitsAnswer diagram.now.nodes answer.now }
    requires place { place < length (decisions_of diagram.now.nodes) }
    requires here { answer.now.decision ≡ slice_index (decisions_of diagram.now.nodes) place }
    ensures rows { IfOk result (ImprovesOrKeeps diagram.now.nodes profile.now answer.now) }
    ensures again { OnOk result (spaces.new ≡ spaces.old) }
{
    // The part of the decision's scope has the whole's best states.
    scopes_are_parts();
    parts_decide();
    let states = diagram.states(answer.decision);
    let setting = Setting {
        diagram,
        base: profile,
        decision: answer.decision,
        totals: &kept.totals,
        scope: kept.scopes[place],
    };
    let plans = &kept.plans[place];
    let gains = setting.row_gains(alloc, &plans.goals, &plans.joint_order, spaces)?;
    if keep_choices(&gains, states, &answer.rows) {
        return Ok(None);
    }
    Ok(Some(improved_rows(alloc, &gains, states, &answer.rows)?))
}

/// Improves the decision at a place in text order, with all other rules as they stand, and tells
/// whether a row's choice changed.
fn improve(
    alloc: Global,
    diagram: &Diagram,
    profile: &mut Profile,
    answers: &mut [Answer],
    place: usize,
    kept: &Kept,
    spaces: &mut Workspaces,
) -> Result<bool, AllocError>
    requires bound { KeepsScopedBounds diagram.now }
    requires kept { AreKept diagram.now.nodes kept.now spaces.old }
    requires plan { IsProfileOf diagram.now.nodes answers.old profile.old }
    requires place { place < length answers.old }
    ensures plan { OnOk result (IsProfileOf diagram.now.nodes answers.new profile.new) }
    ensures again { OnOk result (spaces.new ≡ spaces.old) }
    ensures step { OnOk result (IsStepAt diagram.now.nodes place profile.old profile.new) }
    ensures changed { IfOk result (λ changed. TellsChange changed profile.old profile.new) }
{
    // Choices make pure rules, and a profile has a rule for each decision.
    pure_profiles_listed();
    profile_has_rules();
    let answer = &answers[place];
    let decision = answer.decision;
    let improved = improvement(alloc, diagram, profile, answer, place, kept, spaces)?;
    match improved {
        Some(rows) => {
            profile.put(Rule::pure(alloc, diagram, decision, &rows)?);
            answers[place] = Answer { decision, rows };
            Ok(true)
        }
        None => Ok(false),
    }
}

/// Improves the decision at a place in text order where it isn't settled: where it is, nothing that
/// its gains look at has changed since it was improved. Tells whether a row's choice changed; then
/// the decisions whose scope has this one are no longer settled.
fn settle(
    alloc: Global,
    diagram: &Diagram,
    profile: &mut Profile,
    answers: &mut [Answer],
    unsettled: &mut NodeSet,
    place: usize,
    kept: &Kept,
    spaces: &mut Workspaces,
) -> Result<bool, AllocError>
    requires bound { KeepsScopedBounds diagram.now }
    requires kept { AreKept diagram.now.nodes kept.now spaces.old }
    requires plan { IsProfileOf diagram.now.nodes answers.old profile.old }
    requires settled { AreSettledBut diagram.now.nodes profile.old unsettled.old }
    requires place { place < length answers.old }
    ensures plan { OnOk result (IsProfileOf diagram.now.nodes answers.new profile.new) }
    ensures settled { OnOk result (AreSettledBut diagram.now.nodes profile.new unsettled.new) }
    ensures again { OnOk result (spaces.new ≡ spaces.old) }
    ensures step { OnOk result (IsStepAt diagram.now.nodes place profile.old profile.new) }
    ensures changed { IfOk result (λ changed. TellsChange changed profile.old profile.new) }
{
    pure_profiles_listed();
    // Gains look at the rules of the scope alone.
    scopes_are_parts();
    parts_decide();
    let _count = diagram.count();
    let decision = kept.decisions[place];
    if !unsettled.holds(decision) {
        return Ok(false);
    }
    let changed = improve(alloc, diagram, profile, answers, place, kept, spaces)?;
    if changed {
        kept.add_affected(decision, unsettled);
    }
    unsettled.remove(decision);
    Ok(changed)
}

/// Goes through the decisions once, and tells whether the round raised.
fn go_round(
    alloc: Global,
    diagram: &Diagram,
    profile: &mut Profile,
    answers: &mut [Answer],
    unsettled: &mut NodeSet,
    kept: &Kept,
    spaces: &mut Workspaces,
) -> Result<bool, AllocError>
    requires bound { KeepsScopedBounds diagram.now }
    requires kept { AreKept diagram.now.nodes kept.now spaces.old }
    requires owner { (agent : ℕ) × OwnsAll diagram.now.nodes agent }
    requires plan { IsProfileOf diagram.now.nodes answers.old profile.old }
    requires settled { AreSettledBut diagram.now.nodes profile.old unsettled.old }
    ensures plan { OnOk result (IsProfileOf diagram.now.nodes answers.new profile.new) }
    ensures settled { OnOk result (AreSettledBut diagram.now.nodes profile.new unsettled.new) }
    ensures again { OnOk result (spaces.new ≡ spaces.old) }
    ensures round { OnOk result (IsUpdateRound diagram.now.nodes profile.old profile.new) }
    ensures raised { IfOk result (λ raised. TellsChange raised profile.old profile.new) }
{
    pure_profiles_listed();
    let _count = diagram.count();
    let mut raised = false;
    for place in 0..answers.len() {
        let changed = settle(
            alloc, diagram, profile, answers, unsettled, place, kept, spaces,
        )?;
        if changed {
            raised = true;
        }
    }
    Ok(raised)
}

/// Goes through so many rounds, or to the first that does not raise, and tells how many raised
/// before that one.
pub(crate) fn go_rounds(
    alloc: Global,
    diagram: &Diagram,
    profile: &mut Profile,
    answers: &mut [Answer],
    rounds: u64,
    kept: &Kept,
    spaces: &mut Workspaces,
) -> Result<Option<u64>, AllocError>
    requires bound { KeepsScopedBounds diagram.now }
    requires kept { AreKept diagram.now.nodes kept.now spaces.old }
    requires owner { (agent : ℕ) × OwnsAll diagram.now.nodes agent }
    requires plan { IsProfileOf diagram.now.nodes answers.old profile.old }
    requires start { profile.old ≡ start_profile diagram.now.nodes }
    ensures plan { OnOk result (IsProfileOf diagram.now.nodes answers.new profile.new) }
    ensures again { OnOk result (spaces.new ≡ spaces.old) }
    ensures settled { IfOk result (EndsAt diagram.now.nodes rounds profile.new) }
{
    let _count = diagram.count();
    let mut unsettled = NodeSet::empty();
    unsettled.insert_all(kept.decisions);
    for raised in 0..rounds {
        if !go_round(
            alloc,
            diagram,
            profile,
            answers,
            &mut unsettled,
            kept,
            spaces,
        )? {
            return Ok(Some(raised));
        }
    }
    Ok(None)
}
