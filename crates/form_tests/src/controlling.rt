//! Tests of `control_incentive`: a choice that sees the day, and an outcome that follows it.

ghost use Rattle.std.specs.Prelude.{◌≡◌, [], IfOk};
ghost use Rattle.form_tests.specs.Controlling.{example};

use control_incentive::{ControlLine, Controlled, control};
use maid_model::{Diagram, Ratio};
use rule_solver::{SolveFault, solve};
use sample_diagrams::{chance, decision, sample_diagram, utility};
use std::alloc::{AllocError, Global};
use std::test::Fail;

/// The day, a choice that sees it, an outcome that follows the choice, and what the two are worth.
fn diagram(alloc: Global) -> Result<Diagram, AllocError>
    ensures { IfOk result (λ d. d ≡ example) }
{
    let nodes = [
        chance(2, &[], &[1, 1]),
        decision(0, 2, &[0]),
        chance(2, &[1], &[1, 0, 0, 1]),
        utility(0, &[0, 2], &[3, 0, 0, 1]),
    ];
    sample_diagram(alloc, &nodes, 1, 0)
}

/// The lines of control of the diagram.
fn lines(alloc: Global) -> Result<Vec<ControlLine>, SolveFault> {
    let diagram = diagram(alloc)?;
    let solved = solve(alloc, &diagram)?;
    Ok(control(alloc, &diagram, &solved, 0)?)
}

/// Whether the line is of the day: the choice responds to it, and control of it is worth 1.
fn is_day(line: &ControlLine) -> bool {
    let worth = match line.found {
        Controlled::Value(ratio) => ratio == Ratio { num: 1, den: 1 },
        _ => false,
    };
    worth && line.node == 0 && line.response && !line.instrumental
}

/// Whether the line is of the outcome: the choice works through it, and as a decision it would make
/// a cycle with it.
fn is_outcome(line: &ControlLine) -> bool {
    let cycle = match &line.found {
        Controlled::Cycle(list) => list.as_slice() == [1, 2].as_slice(),
        _ => false,
    };
    cycle && line.node == 2 && !line.response && line.instrumental
}

// The choice answers the day: on average 2, and 3 where the agent picks the day too. The outcome
// serves the choice; as a decision it would see the choice and not the day, so that each of the two
// would rely on the other.
#[test]
fn a_day_and_an_outcome(rt: HostRuntime) -> Result<(), Fail> {
    let lines = lines(rt.alloc())?;
    assert_eq!(rt; lines.len(), 2);
    assert!(rt; is_day(&lines[0]));
    assert!(rt; is_outcome(&lines[1]));
    Ok(())
}
