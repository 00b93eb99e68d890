//! Tests of `threshold`: small diagrams, and how far a probability of theirs may move.

ghost use Rattle.std.specs.Prelude.{◌≡◌, [], IfOk};
ghost use Rattle.form_tests.specs.Moving.{bet, oil, steer, signal_weights};

use maid_model::{Diagram, Ratio};
use relevance_graph::find_relevance;
use rule_solver::{SolveFault, solve_by_relevance};
use sample_diagrams::{chance, decision, sample_diagram, utility};
use std::alloc::{AllocError, Global};
use std::test::Fail;
use threshold::{Interval, SpanFault, span};

/// Whether to test a well, the oil, what the test shows, whether to drill after it, the cost of the
/// test, and the pay.
fn oil(alloc: Global) -> Result<Diagram, AllocError>
    ensures { IfOk result (λ d. d ≡ oil) }
{
    let shown = [
        18, 9, 3, 10, 10, 10, 9, 12, 9, 10, 10, 10, 3, 12, 15, 10, 10, 10,
    ];
    let nodes = [
        decision(0, 2, &[]),
        chance(3, &[], &[5, 3, 2]),
        chance(3, &[1, 0], &shown),
        decision(0, 2, &[0, 2]),
        utility(0, &[0], &[-10, 0]),
        utility(0, &[1, 3], &[-70, 0, 50, 0, 200, 0]),
    ];
    sample_diagram(alloc, &nodes, 1, 0)
}

fn signal_weights(even: bool) -> &'static [i128]
    ensures { result.now ≡ signal_weights even }
{
    if even { &[1, 1] } else { &[0, 1] }
}

/// A decision that sees a signal: 3 for the first state in the one case, 1 for the second in the
/// other.
fn steer(alloc: Global, even: bool) -> Result<Diagram, AllocError>
    ensures { IfOk result (λ d. d ≡ steer even) }
{
    let nodes = [
        chance(2, &[], signal_weights(even)),
        decision(0, 2, &[0]),
        utility(0, &[0, 1], &[3, 0, 0, 1]),
    ];
    sample_diagram(alloc, &nodes, 1, 0)
}

/// A decision that sees nothing: 1 for sure, or 2 in the one case or the other. To an echo of the
/// signal nobody listens.
fn bet(alloc: Global) -> Result<Diagram, AllocError>
    ensures { IfOk result (λ d. d ≡ bet) }
{
    let nodes = [
        chance(2, &[], &[1, 1]),
        decision(0, 3, &[]),
        utility(0, &[0, 1], &[1, 2, 0, 1, 0, 2]),
        chance(2, &[0], &[1, 2, 2, 1]),
    ];
    sample_diagram(alloc, &nodes, 1, 0)
}

fn interval(now: (i128, u128), low: (i128, u128), high: (i128, u128)) -> Interval {
    Interval {
        now: Ratio {
            num: now.0,
            den: now.1,
        },
        low: Ratio {
            num: low.0,
            den: low.1,
        },
        high: Ratio {
            num: high.0,
            den: high.1,
        },
    }
}

/// How far the probability of a dry well may move.
fn dry(alloc: Global) -> Result<Result<Interval, SpanFault>, SolveFault> {
    let diagram = oil(alloc)?;
    let relevance = find_relevance(alloc, &diagram)?;
    let solved = solve_by_relevance(alloc, &diagram, &relevance)?;
    Ok(span(alloc, &diagram, &relevance, &solved, 1, 0, 0))
}

// Below 27/59 not testing is better, since testing is worth 83 - 121q and not testing 110 - 180q;
// above 11/18 drilling without a test is worth less than nought.
#[test]
fn a_well_may_be_dry(rt: HostRuntime) -> Result<(), Fail> {
    let want = interval((1, 2), (27, 59), (11, 18));
    assert_eq!(rt; dry(rt.alloc())?, Ok(want));
    Ok(())
}

/// How far the signal's two probabilities may move.
fn signals(alloc: Global, even: bool) -> Result<[Result<Interval, SpanFault>; 2], SolveFault> {
    let diagram = steer(alloc, even)?;
    let relevance = find_relevance(alloc, &diagram)?;
    let solved = solve_by_relevance(alloc, &diagram, &relevance)?;
    let first = span(alloc, &diagram, &relevance, &solved, 0, 0, 0);
    let second = span(alloc, &diagram, &relevance, &solved, 0, 1, 0);
    Ok([first, second])
}

// Where the decision sees the signal its choices hold at any probability, also where a row is never
// reached. A first state without weight has none with which to share.
#[test]
fn a_signal_may_move_freely(rt: HostRuntime) -> Result<(), Fail> {
    let alloc = rt.alloc();
    let freely = interval((1, 2), (0, 1), (1, 1));
    assert_eq!(rt; signals(alloc, true)?, [Ok(freely), Ok(freely)]);
    let from_nought = interval((0, 1), (0, 1), (1, 1));
    assert_eq!(rt;
        signals(alloc, false)?,
        [Ok(from_nought), Err(SpanFault::NoOthers)]
    );
    Ok(())
}

/// How far the first probability of the bet's signal and the second of its echo may move.
fn bets(alloc: Global) -> Result<[Result<Interval, SpanFault>; 2], SolveFault> {
    let diagram = bet(alloc)?;
    let relevance = find_relevance(alloc, &diagram)?;
    let solved = solve_by_relevance(alloc, &diagram, &relevance)?;
    let first = span(alloc, &diagram, &relevance, &solved, 0, 0, 0);
    let echo = span(alloc, &diagram, &relevance, &solved, 3, 1, 1);
    Ok([first, echo])
}

// The sure state is best only where the two others are worth the same. What nobody looks at may be
// anything.
#[test]
fn a_bet_may_not_move(rt: HostRuntime) -> Result<(), Fail> {
    let first = interval((1, 2), (1, 2), (1, 2));
    let echo = interval((1, 3), (0, 1), (1, 1));
    assert_eq!(rt; bets(rt.alloc())?, [Ok(first), Ok(echo)]);
    Ok(())
}
