//! Tests of `policy_update`: small diagrams, updated with ample memory.

ghost use Rattle.std.specs.Prelude.{◌≡◌, IfOk};
ghost use Rattle.form_tests.specs.Updating.{guessing, meeting, nothing, paid, pennies};

use maid_model::{Answer, Diagram, Ratio, Row};
use policy_update::{UpdateFault, Updated, update};
use sample_diagrams::{chance, decision, sample_diagram, utility};
use std::alloc::{AllocError, Global};
use std::test::Fail;

/// What the agent is paid that takes both decisions.
fn paid(climbs: bool) -> &'static [i128]
    ensures { result.now ≡ paid climbs }
{
    if climbs {
        &[0, 10, 0, 20]
    } else {
        &[10, 0, 0, 20]
    }
}

/// Two decisions of one agent that see nothing, and another agent that watches.
fn meeting(alloc: Global, climbs: bool) -> Result<Diagram, AllocError>
    ensures { IfOk result (λ d. d ≡ meeting climbs) }
{
    let nodes = [
        decision(0, 2, &[]),
        decision(0, 2, &[]),
        utility(0, &[0, 1], paid(climbs)),
        utility(1, &[0, 1], &[5, 0, 0, 7]),
    ];
    sample_diagram(alloc, &nodes, 2, 1)
}

/// Two agents with a decision each.
fn pennies(alloc: Global) -> Result<Diagram, AllocError>
    ensures { IfOk result (λ d. d ≡ pennies) }
{
    let nodes = [
        decision(0, 2, &[]),
        decision(1, 2, &[]),
        utility(0, &[0, 1], &[1, 0, 0, 1]),
        utility(1, &[0, 1], &[0, 1, 1, 0]),
    ];
    sample_diagram(alloc, &nodes, 2, 0)
}

/// A guess at a coin that is seen.
fn guessing(alloc: Global) -> Result<Diagram, AllocError>
    ensures { IfOk result (λ d. d ≡ guessing) }
{
    let nodes = [
        chance(2, &[], &[1, 1]),
        decision(0, 2, &[0]),
        utility(0, &[0, 1], &[1, 0, 0, 1]),
    ];
    sample_diagram(alloc, &nodes, 1, 0)
}

/// A diagram without nodes.
fn nothing(alloc: Global) -> Result<Diagram, AllocError>
    ensures { IfOk result (λ d. d ≡ nothing) }
{
    sample_diagram(alloc, &[], 1, 0)
}

/// A row with this choice.
fn row(choice: usize) -> Row {
    Row {
        choice,
        worth: None,
    }
}

/// Whether the answers are of these decisions, and have these rows.
fn are_answered(answers: &[Answer], want: &[(usize, &[Row])]) -> bool {
    let mut same = answers.len() == want.len();
    for (answer, (decision, rows)) in answers.iter().zip(want) {
        same = same && answer.decision == *decision && answer.rows.as_slice() == *rows;
    }
    same
}

/// Whether so many rounds raised, and these are the answers and the gains.
fn is_updated(
    updated: &Updated,
    rounds: u64,
    answers: &[(usize, &[Row])],
    gains: &[Ratio],
) -> bool {
    updated.rounds == rounds
        && are_answered(&updated.answers, answers)
        && updated.gains.as_slice() == gains
}

// Where neither decision gains alone, updating stays at the first states, though the second ones
// are worth 2.
#[test]
fn a_local_optimum(rt: HostRuntime) -> Result<(), Fail> {
    let alloc = rt.alloc();
    let updated = update(alloc, &meeting(alloc, false)?, 10)?;
    let gains = [Ratio { num: 1, den: 1 }, Ratio { num: 1, den: 2 }];
    assert!(rt; is_updated(&updated, 0, &[(0, &[row(0)]), (1, &[row(0)])], &gains));
    Ok(())
}

// The second decision moves in the first round, and the first one in the second.
#[test]
fn two_rounds(rt: HostRuntime) -> Result<(), Fail> {
    let alloc = rt.alloc();
    let updated = update(alloc, &meeting(alloc, true)?, 3)?;
    let gains = [Ratio { num: 2, den: 1 }, Ratio { num: 7, den: 10 }];
    assert!(rt; is_updated(&updated, 2, &[(0, &[row(1)]), (1, &[row(1)])], &gains));
    Ok(())
}

/// Whether the allowed rounds were spent, and the gain had come to this.
fn is_spent_at(updated: Result<Updated, UpdateFault>, allowed: u64, worth: i128) -> bool {
    match updated {
        Err(UpdateFault::RoundsSpent { rounds, gain }) => {
            rounds == allowed && gain == Ratio { num: worth, den: 1 }
        }
        _ => false,
    }
}

// After one round the pair is worth 1, and after two 2; that a third would not raise does not
// matter.
#[test]
fn rounds_are_spent(rt: HostRuntime) -> Result<(), Fail> {
    let alloc = rt.alloc();
    let diagram = meeting(alloc, true)?;
    assert!(rt; is_spent_at(update(alloc, &diagram, 1), 1, 1));
    assert!(rt; is_spent_at(update(alloc, &diagram, 2), 2, 2));
    Ok(())
}

// A row that sees the coin takes its side.
#[test]
fn rows_take_the_coins_side(rt: HostRuntime) -> Result<(), Fail> {
    let alloc = rt.alloc();
    let updated = update(alloc, &guessing(alloc)?, 10)?;
    let gains = [Ratio { num: 1, den: 1 }];
    assert!(rt; is_updated(&updated, 1, &[(1, &[row(0), row(1)])], &gains));
    Ok(())
}

// Nothing is decided without decisions.
#[test]
fn nothing_is_decided(rt: HostRuntime) -> Result<(), Fail> {
    let alloc = rt.alloc();
    let updated = update(alloc, &nothing(alloc)?, 1)?;
    assert!(rt; is_updated(&updated, 0, &[], &[Ratio { num: 0, den: 1 }]));
    Ok(())
}

/// Why the game is not updated, if it isn't.
fn fault(alloc: Global) -> Result<Option<UpdateFault>, AllocError> {
    Ok(update(alloc, &pennies(alloc)?, 10).err())
}

// Two agents are one too many.
#[test]
fn two_agents_are_refused(rt: HostRuntime) -> Result<(), Fail> {
    assert!(rt; matches!(fault(rt.alloc())?, Some(UpdateFault::NotOneAgent)));
    Ok(())
}
