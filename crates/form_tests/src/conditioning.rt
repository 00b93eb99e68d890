//! Tests of `evidence`: a coin, a node that never has one of its states, and a bet on a coin.

ghost use Rattle.std.specs.Prelude.{◌≡◌, IfOk};
ghost use Rattle.form_tests.specs.Conditioning.{bet, certain, coin};

use evidence::{Conditioned, GivenFault, given};
use maid_model::{Diagram, Kind, Ratio};
use sample_diagrams::{chance, decision, sample_diagram, utility};
use std::alloc::{AllocError, Global};
use std::test::Fail;

fn coin(alloc: Global) -> Result<Diagram, AllocError>
    ensures { IfOk result (λ d. d ≡ coin) }
{
    let nodes = [chance(2, &[], &[1, 1]), utility(0, &[0], &[50, -125])];
    sample_diagram(alloc, &nodes, 1, 2)
}

fn certain(alloc: Global) -> Result<Diagram, AllocError>
    ensures { IfOk result (λ d. d ≡ certain) }
{
    let nodes = [chance(2, &[], &[1, 0])];
    sample_diagram(alloc, &nodes, 0, 0)
}

fn bet(alloc: Global) -> Result<Diagram, AllocError>
    ensures { IfOk result (λ d. d ≡ bet) }
{
    let nodes = [
        chance(2, &[], &[1, 3]),
        decision(0, 2, &[]),
        chance(2, &[1], &[1, 0, 0, 1]),
        utility(0, &[0, 1], &[4, 0, 1, 2]),
    ];
    sample_diagram(alloc, &nodes, 1, 0)
}

/// The diagram where the node has the state, or `NoMemory` where it is no chance node or has no
/// such state.
fn ask(
    alloc: Global,
    diagram: &Diagram,
    node: usize,
    state: usize,
) -> Result<Conditioned, GivenFault> {
    if node < diagram.count() {
        match diagram.kind(node) {
            Kind::Chance if state < diagram.states(node) => {
                return given(alloc, diagram, node, state);
            }
            _ => {}
        }
    }
    Err(GivenFault::NoMemory)
}

fn fraction(num: i128, den: u128) -> Ratio {
    Ratio { num, den }
}

/// Whether heads are worth a half.
fn heads_pay(alloc: Global) -> Result<bool, GivenFault> {
    let heads = ask(alloc, &coin(alloc)?, 0, 0)?;
    Ok(heads.gains.as_slice() == [fraction(1, 2)].as_slice())
}

/// Whether tails cost five quarters, the coin as it is three eighths, and nothing is decided.
fn tails_cost(alloc: Global) -> Result<bool, GivenFault> {
    let tails = ask(alloc, &coin(alloc)?, 0, 1)?;
    Ok(
        tails.gains.as_slice() == [fraction(-5, 4)].as_slice()
            && tails.solved.gains.as_slice() == [fraction(-3, 8)].as_slice()
            && tails.solved.order.is_empty(),
    )
}

// Each side alone is worth what it pays, and not the half of both.
#[test]
fn a_coin_is_worth_its_side(rt: HostRuntime) -> Result<(), Fail> {
    let alloc = rt.alloc();
    assert!(rt; heads_pay(alloc)?);
    assert!(rt; tails_cost(alloc)?);
    Ok(())
}

/// Whether nothing is worth anything in the one state that the node may have.
fn is_worthless(alloc: Global) -> Result<bool, GivenFault> {
    let sure = ask(alloc, &certain(alloc)?, 0, 0)?;
    Ok(sure.gains.is_empty())
}

/// Why the node never has its other state.
fn fault_of_never(alloc: Global) -> Result<Option<GivenFault>, AllocError> {
    Ok(ask(alloc, &certain(alloc)?, 0, 1).err())
}

// There is no agent, so nothing is worth anything, but the first state is possible and the second
// is not.
#[test]
fn what_never_is_is_impossible(rt: HostRuntime) -> Result<(), Fail> {
    let alloc = rt.alloc();
    assert!(rt; is_worthless(alloc)?);
    assert!(rt; matches!(fault_of_never(alloc)?, Some(GivenFault::Impossible)));
    Ok(())
}

/// Whether the bet sees the coin, is worth 2 at its second side, and 5/2 in all.
fn sees_the_coin(alloc: Global) -> Result<bool, GivenFault> {
    let second = ask(alloc, &bet(alloc)?, 0, 1)?;
    let sees = second.diagram.count() > 1 && second.diagram.parents(1) == [0].as_slice();
    Ok(
        sees && second.gains.as_slice() == [fraction(2, 1)].as_slice()
            && second.solved.gains.as_slice() == [fraction(5, 2)].as_slice()
            && second.solved.order.as_slice() == [1].as_slice(),
    )
}

/// Why the bet can't see what repeats it.
fn fault_of_below(alloc: Global) -> Result<Option<GivenFault>, AllocError> {
    Ok(ask(alloc, &bet(alloc)?, 2, 0).err())
}

// The bet sees the coin: it takes 4 at its first side and 2 at its second, 5/2 in all. What
// repeats the bet lies below it.
#[test]
fn a_bet_that_sees_the_coin(rt: HostRuntime) -> Result<(), Fail> {
    let alloc = rt.alloc();
    assert!(rt; sees_the_coin(alloc)?);
    assert!(rt; matches!(fault_of_below(alloc)?, Some(GivenFault::BelowDecision)));
    Ok(())
}
