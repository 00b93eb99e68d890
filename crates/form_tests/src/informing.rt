//! Tests of `info_value`: a guess at one of two coins, and what it is worth to see.

ghost use Rattle.std.specs.Prelude.{◌≡◌, [], IfOk};
ghost use Rattle.form_tests.specs.Informing.{guessing, seen_by};

use info_value::{Found, InfoLine, info};
use maid_model::{Diagram, Ratio};
use rule_solver::{SolveFault, solve};
use sample_diagrams::{chance, decision, sample_diagram, utility};
use std::alloc::{AllocError, Global};
use std::test::Fail;

fn seen_by(told: bool) -> &'static [usize]
    ensures { result.now ≡ seen_by told }
{
    if told { &[0, 2] } else { &[0] }
}

/// Two coins, whether they fell alike, and a guess at the second coin that sees the first and may
/// be told of both.
fn diagram(alloc: Global, told: bool) -> Result<Diagram, AllocError>
    ensures { IfOk result (λ d. d ≡ guessing told) }
{
    let nodes = [
        chance(2, &[], &[1, 1]),
        chance(2, &[], &[1, 1]),
        chance(2, &[0, 1], &[1, 0, 0, 1, 0, 1, 1, 0]),
        decision(0, 2, seen_by(told)),
        utility(0, &[1, 3], &[1, 0, 0, 1]),
    ];
    sample_diagram(alloc, &nodes, 1, 0)
}

/// The worth that a line tells, as numerator and denominator, and 0 over 0 where it says
/// `Worthless`.
fn worth(line: &InfoLine) -> Option<(i128, u128)> {
    match line.found {
        Found::Value(Ratio { num, den }) => Some((num, den)),
        Found::Worthless => Some((0, 0)),
        _ => None,
    }
}

/// Whether the line is of the arc from the node to the guess, and says whether that is there and
/// what it is worth.
fn says(line: &InfoLine, from: usize, (has, value): (bool, (i128, u128))) -> bool {
    line.from == from && line.to == 3 && line.has == has && worth(line) == Some(value)
}

/// Whether the lines are those of the first three nodes, and say this of them.
fn say(lines: &[InfoLine], want: [(bool, (i128, u128)); 3]) -> bool {
    match lines {
        [first, second, third] => {
            says(first, 0, want[0]) && says(second, 1, want[1]) && says(third, 2, want[2])
        }
        _ => false,
    }
}

/// Whether this is said of a guess that may be told of both coins.
fn is_said(alloc: Global, told: bool, want: [(bool, (i128, u128)); 3]) -> Result<bool, SolveFault> {
    let diagram = diagram(alloc, told)?;
    let solved = solve(alloc, &diagram)?;
    let lines = info(alloc, &diagram, &solved, 0)?;
    Ok(say(&lines, want))
}

// Told of both the guess is always right, and else half of the time. The second coin itself tells
// all there is to know.
#[test]
fn what_a_guess_needs(rt: HostRuntime) -> Result<(), Fail> {
    let alloc = rt.alloc();
    let told = [(true, (1, 2)), (false, (0, 1)), (true, (1, 2))];
    assert!(rt; is_said(alloc, true, told)?);
    let untold = [(true, (0, 0)), (false, (1, 2)), (false, (1, 2))];
    assert!(rt; is_said(alloc, false, untold)?);
    Ok(())
}
