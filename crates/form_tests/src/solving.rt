//! Tests of `rule_solver`: a small diagram solved with ample memory.

ghost use Rattle.std.specs.Prelude.{IfOk, IsTrue};
ghost use Rattle.maid_model.specs.declared.limits.TheConstants.{MOST_PLAN_CELLS};
ghost use Rattle.maid_model.specs.Scopes.{KeepsScopedBounds};
ghost use Rattle.rule_solver.specs.Rooms.{HasRoomForRun};

use crate::samples::reply_diagram;
use maid_model::{Answer, Diagram, MOST_PLAN_CELLS, Profile, Ratio, Row};
use relevance_graph::find_relevance;
use rule_solver::{
    RowSums, SolveFault, measured_plans_have_room, row_sums, row_sums_by, solve, spaces_for,
};
use size_precheck::{Planner, measure, plan_decision_by};
use std::alloc::{AllocError, Global};
use std::test::Fail;
use weight_scale::{BoundPlace, bound};

/// A row that is worth a whole number.
fn row(choice: usize, worth: i128) -> Row {
    Row {
        choice,
        worth: Some(Ratio { num: worth, den: 1 }),
    }
}

/// Whether the reply is answered first, with these rows, and then the plan.
fn are_answered(answers: &[Answer], replies: &[Row], plan: &[Row]) -> bool {
    match answers {
        [first, second] => first.rows.as_slice() == replies && second.rows.as_slice() == plan,
        _ => false,
    }
}

/// Whether the reply and the plan are solved in this order, with the best rows, and gain 4.
fn is_solved(alloc: Global) -> Result<bool, SolveFault> {
    let solved = solve(alloc, &reply_diagram(alloc)?)?;
    let gain = Ratio { num: 4, den: 1 };
    Ok(
        solved.order.as_slice() == [1, 0].as_slice()
            && are_answered(&solved.answers, &[row(1, 4), row(0, 3)], &[row(0, 4)])
            && solved.gains.as_slice() == [gain].as_slice(),
    )
}

// The reply is best for each plan, and the plan against these replies: 4 for the first and 3 for
// the second.
#[test]
fn a_plan_relies_on_the_reply(rt: HostRuntime) -> Result<(), Fail> {
    assert!(rt; is_solved(rt.alloc())?);
    Ok(())
}

/// Whether the diagram keeps the weight bound, and its run the limit of cells.
fn has_room(alloc: Global, diagram: &Diagram) -> Result<bool, AllocError>
    ensures bound { IfOk result (λ is. IsTrue is → KeepsScopedBounds diagram.now) }
    ensures room { IfOk result (λ is. IsTrue is → HasRoomForRun diagram.now.nodes MOST_PLAN_CELLS) }
{
    measured_plans_have_room();
    match bound(diagram) {
        BoundPlace::Within => {}
        BoundPlace::Node(_) | BoundPlace::Utilities => return Ok(false),
    }
    let relevance = find_relevance(alloc, diagram)?;
    match relevance.order() {
        Ok(order) => {
            let size = measure(alloc, diagram, order)?;
            Ok(size.cells <= MOST_PLAN_CELLS as u128)
        }
        Err(_) => Ok(false),
    }
}

/// Whether these are the reply's sums against an even choice of plans: what the pairs pay, and a
/// plan's mass in each row.
fn are_of_reply(sums: &RowSums) -> bool {
    sums.gains.as_slice() == [1, 4, 3, 2].as_slice() && sums.masses.as_slice() == [1, 1].as_slice()
}

/// Whether the diagram has room, and the reply's sums are as told.
fn is_summed(alloc: Global) -> Result<bool, AllocError> {
    let diagram = reply_diagram(alloc)?;
    if !has_room(alloc, &diagram)? {
        return Ok(false);
    }
    let profile = Profile::uniform(alloc, &diagram)?;
    let sums = row_sums(alloc, &diagram, &profile, 1)?;
    Ok(are_of_reply(&sums))
}

/// Whether they come twice, one time after the other, by plans that are made once, in workspaces
/// that these have left.
fn is_summed_again(alloc: Global) -> Result<bool, AllocError> {
    let diagram = reply_diagram(alloc)?;
    if !has_room(alloc, &diagram)? {
        return Ok(false);
    }
    let profile = Profile::uniform(alloc, &diagram)?;
    let planner = Planner::new(alloc, &diagram)?;
    let plans = plan_decision_by(alloc, &diagram, &planner, 1)?;
    let mut spaces = spaces_for(alloc, &diagram, 1, &plans, None)?;
    let first = row_sums_by(alloc, &diagram, &profile, 1, &plans, &mut spaces)?;
    let mut spaces = spaces_for(alloc, &diagram, 1, &plans, Some(spaces))?;
    let second = row_sums_by(alloc, &diagram, &profile, 1, &plans, &mut spaces)?;
    Ok(are_of_reply(&first) && are_of_reply(&second))
}

// With an even choice of plans the reply gains in each row what the pair pays, and each row has the
// mass of one plan.
#[test]
fn a_reply_gains_what_the_pairs_pay(rt: HostRuntime) -> Result<(), Fail> {
    assert!(rt; is_summed(rt.alloc())?);
    assert!(rt; is_summed_again(rt.alloc())?);
    Ok(())
}
