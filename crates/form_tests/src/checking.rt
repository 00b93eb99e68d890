//! Tests of `tree_checker`: reports of a small diagram, checked with ample memory.

ghost use Rattle.std.specs.Prelude.{◌≡◌, ◌<◌, ◌≤◌, IfOk, IfSome, IsTrue};
ghost use Rattle.maid_model.specs.declared.limits.TheConstants.{MOST_LEAVES};
ghost use Rattle.maid_model.specs.Answers.{IsReduced};
ghost use Rattle.maid_model.specs.Bounds.{world_count};
ghost use Rattle.maid_model.specs.Scopes.{KeepsScopedBounds};
ghost use Rattle.form_tests.specs.Checking.{reply_diagram, reply_report};

use crate::samples::reply_diagram;
use maid_model::{Answer, Diagram, MOST_LEAVES, Ratio, Row, Solved};
use std::alloc::{AllocError, Global};
use std::test::Fail;
use tree_checker::{Cause, Verdict, check, leaves};
use weight_scale::{BoundPlace, bound};

/// Whether the diagram may be checked.
fn can_check(diagram: &Diagram) -> bool
    ensures bound { IsTrue result → KeepsScopedBounds diagram.now }
    ensures leaves { IsTrue result → world_count diagram.now.nodes ≤ MOST_LEAVES }
{
    match bound(diagram) {
        BoundPlace::Within => leaves(diagram) <= MOST_LEAVES,
        BoundPlace::Node(_) | BoundPlace::Utilities => false,
    }
}

fn whole(num: i128) -> Ratio
    ensures { IsReduced result }
{
    Ratio { num, den: 1 }
}

/// A row that is worth a whole number, or is marked as never reached.
fn row(choice: usize, worth: Option<i128>) -> Row
    ensures choice { result.choice ≡ choice }
    ensures reduced { IfSome result.worth IsReduced }
{
    let worth = match worth {
        Some(num) => Some(whole(num)),
        None => None,
    };
    Row { choice, worth }
}

fn answer(alloc: Global, decision: usize, rows: &[Row]) -> Result<Answer, AllocError>
    ensures { IfOk result (λ a. a ≡ record { decision = decision; rows = rows.now }) }
{
    Ok(Answer {
        decision,
        rows: Vec::from_slice(alloc, rows)?,
    })
}

/// The report with these rows of the reply, this row of the plan, and this gain.
fn report(
    alloc: Global,
    first: Row,
    second: Row,
    plan: Row,
    gain: Ratio,
) -> Result<Solved, AllocError>
    ensures { IfOk result (λ s. s ≡ reply_report first second plan gain) }
{
    let mut answers = Vec::new(alloc);
    answers.push(answer(alloc, 1, &[first, second])?)?;
    answers.push(answer(alloc, 0, &[plan])?)?;
    Ok(Solved {
        order: Vec::from_slice(alloc, &[1, 0])?,
        answers,
        gains: Vec::from_slice(alloc, &[gain])?,
    })
}

/// The verdict on a report of the diagram.
fn verdict(
    alloc: Global,
    diagram: &Diagram,
    first: Row,
    second: Row,
    plan: Row,
    gain: Ratio,
) -> Result<Verdict, AllocError>
    requires diagram { diagram.now ≡ reply_diagram }
    requires bound { KeepsScopedBounds diagram.now }
    requires leaves { world_count diagram.now.nodes ≤ MOST_LEAVES }
    requires first { first.choice < 2 }
    requires second { second.choice < 2 }
    requires plan { plan.choice < 2 }
    requires first_worth { IfSome first.worth IsReduced }
    requires second_worth { IfSome second.worth IsReduced }
    requires plan_worth { IfSome plan.worth IsReduced }
    requires gain { IsReduced gain }
{
    check(alloc, diagram, &report(alloc, first, second, plan, gain)?)
}

/// The verdict on the report with these rows of the reply and of the plan, each a choice and what
/// it is worth, and this gain; none where the diagram may not be checked, or has no such choice.
fn verdict_on(
    alloc: Global,
    [first, second, plan]: [(usize, Option<i128>); 3],
    gain: i128,
) -> Result<Option<Verdict>, AllocError> {
    let diagram = reply_diagram(alloc)?;
    let has_choices = first.0 < 2 && second.0 < 2 && plan.0 < 2;
    if !has_choices || !can_check(&diagram) {
        return Ok(None);
    }
    let first = row(first.0, first.1);
    let second = row(second.0, second.1);
    let plan = row(plan.0, plan.1);
    Ok(Some(verdict(alloc, &diagram, first, second, plan, whole(gain))?))
}

#[test]
fn every_pair_is_a_leaf(rt: HostRuntime) -> Result<(), Fail> {
    let diagram = reply_diagram(rt.alloc())?;
    assert_eq!(rt; leaves(&diagram), 4);
    Ok(())
}

/// The verdict that the line fails for the cause.
fn rejected(line: usize, cause: Cause) -> Verdict {
    Verdict::Rejected { line, cause }
}

// The lines are: the head, the order, the reply with its two rows, the plan with its row, and the
// agent. The reply is worth 4 and 3 at its best, and the plan 4.
#[test]
fn the_first_line_that_fails_is_named(rt: HostRuntime) -> Result<(), Fail> {
    let right = [(1, Some(4)), (0, Some(3)), (0, Some(4))];
    let worth = [(1, Some(5)), (0, Some(3)), (0, Some(4))];
    let choice = [(1, Some(4)), (1, Some(2)), (0, Some(4))];
    let never = [(1, Some(4)), (0, Some(3)), (0, None)];
    let reports = [
        (right, 4, Verdict::Accepted),
        (worth, 4, rejected(4, Cause::Worth)),
        (choice, 4, rejected(5, Cause::Choice)),
        (never, 5, rejected(7, Cause::Never)),
        (right, 3, rejected(8, Cause::Gain)),
    ];
    for (rows, gain, want) in reports {
        assert_eq!(rt; verdict_on(rt.alloc(), rows, gain)?, Some(want));
    }
    Ok(())
}
