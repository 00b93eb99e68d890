//! Tests of `pure_search`: small games, searched with ample memory.

ghost use Rattle.std.specs.Prelude.{◌≡◌, IfOk};
ghost use Rattle.form_tests.specs.Searching.{blind, coin, first_pays, prize, second_pays, seen_in, sight, two_movers};

use maid_model::{Answer, Diagram, GREATEST_NUMBER, Ratio};
use pure_search::{PureFault, first_pure};
use sample_diagrams::{chance, decision, sample_diagram, utility};
use std::alloc::{AllocError, Global};
use std::test::Fail;

fn seen_in(game: usize) -> &'static [usize]
    ensures { result.now ≡ seen_in game }
{
    match game {
        1 => &[0],
        _ => &[],
    }
}

fn first_pays(game: usize) -> &'static [i128]
    ensures { result.now ≡ first_pays game }
{
    match game {
        0 => &[1, -1, -1, 1],
        1 => &[2, 0, 3, 1],
        _ => &[1, 0, 0, 4],
    }
}

fn second_pays(game: usize) -> &'static [i128]
    ensures { result.now ≡ second_pays game }
{
    match game {
        0 => &[-1, 1, 1, -1],
        1 => &[1, 0, 0, 1],
        _ => &[2, 0, 0, 3],
    }
}

/// Matching pennies, a leader and a follower, or a meeting at one of two places.
fn two_movers(alloc: Global, game: usize) -> Result<Diagram, AllocError>
    ensures { IfOk result (λ d. d ≡ two_movers game) }
{
    let nodes = [
        decision(0, 2, &[]),
        decision(1, 2, seen_in(game)),
        utility(0, &[0, 1], first_pays(game)),
        utility(1, &[0, 1], second_pays(game)),
    ];
    sample_diagram(alloc, &nodes, 2, 0)
}

/// An agent that decides twice, and does not see its first decision.
fn blind(alloc: Global) -> Result<Diagram, AllocError>
    ensures { IfOk result (λ d. d ≡ blind) }
{
    let nodes = [
        decision(0, 2, &[]),
        decision(0, 2, &[]),
        utility(0, &[0, 1], &[1, 0, 0, 2]),
    ];
    sample_diagram(alloc, &nodes, 1, 0)
}

/// A decision that sees a chance node of 17 states.
fn sight(alloc: Global) -> Result<Diagram, AllocError>
    ensures { IfOk result (λ d. d ≡ sight) }
{
    let nodes = [
        chance(17, &[], &[1; 17]),
        decision(0, 2, &[0]),
        utility(0, &[0, 1], &[0; 34]),
    ];
    sample_diagram(alloc, &nodes, 1, 0)
}

fn prize(heavy: bool) -> i128
    ensures { result ≡ prize heavy }
{
    if heavy { GREATEST_NUMBER as i128 } else { 1 }
}

/// A utility over a coin, which may be too great for the weight bound.
fn coin(alloc: Global, heavy: bool) -> Result<Diagram, AllocError>
    ensures { IfOk result (λ d. d ≡ coin heavy) }
{
    let pays = [prize(heavy), 0];
    let nodes = [chance(2, &[], &[1, 1]), utility(0, &[0], &pays)];
    sample_diagram(alloc, &nodes, 1, 0)
}

/// All choices, decision by decision and row by row.
fn choices(alloc: Global, answers: &[Answer]) -> Result<Vec<usize>, AllocError> {
    let mut list = Vec::new(alloc);
    for answer in answers {
        for row in &answer.rows {
            list.push(row.choice)?;
        }
    }
    Ok(list)
}

fn whole(num: i128) -> Ratio {
    Ratio { num, den: 1 }
}

/// Whether the first equilibrium makes these choices, decision by decision and row by row, and
/// gains this.
fn is_found(
    alloc: Global,
    diagram: &Diagram,
    want: &[usize],
    gains: &[Ratio],
) -> Result<bool, PureFault> {
    let found = first_pure(alloc, diagram)?;
    let chosen = choices(alloc, &found.answers)?;
    Ok(chosen.as_slice() == want && found.gains.as_slice() == gains)
}

/// Why no equilibrium is found, if none is.
fn fault(alloc: Global, diagram: &Diagram) -> Option<PureFault> {
    first_pure(alloc, diagram).err()
}

#[test]
fn pennies_have_no_equilibrium(rt: HostRuntime) -> Result<(), Fail> {
    let alloc = rt.alloc();
    let none = fault(alloc, &two_movers(alloc, 0)?);
    assert_eq!(rt; none, Some(PureFault::NoPure { profiles: 4 }));
    Ok(())
}

// The follower's threat to match the leader keeps the leader at a.
#[test]
fn a_threat_keeps_the_leader(rt: HostRuntime) -> Result<(), Fail> {
    let alloc = rt.alloc();
    let led = [whole(2), whole(1)];
    assert!(rt; is_found(alloc, &two_movers(alloc, 1)?, &[0, 0, 1], &led)?);
    Ok(())
}

// At the meeting the first place is worse for both.
#[test]
fn the_first_meeting_is_found(rt: HostRuntime) -> Result<(), Fail> {
    let alloc = rt.alloc();
    let met = [whole(1), whole(2)];
    assert!(rt; is_found(alloc, &two_movers(alloc, 2)?, &[0, 0], &met)?);
    Ok(())
}

// Both decisions change at a time.
#[test]
fn one_agent(rt: HostRuntime) -> Result<(), Fail> {
    let alloc = rt.alloc();
    assert!(rt; is_found(alloc, &blind(alloc)?, &[1, 1], &[whole(2)])?);
    Ok(())
}

/// Whether nothing is answered at the coin, and it is worth its half.
fn is_half(alloc: Global) -> Result<bool, PureFault> {
    let found = first_pure(alloc, &coin(alloc, false)?)?;
    let half = Ratio { num: 1, den: 2 };
    Ok(found.answers.is_empty() && found.gains.as_slice() == [half].as_slice())
}

#[test]
fn nobody_decides(rt: HostRuntime) -> Result<(), Fail> {
    assert!(rt; is_half(rt.alloc())?);
    Ok(())
}

#[test]
fn a_sight_of_seventeen_states_is_too_large(rt: HostRuntime) -> Result<(), Fail> {
    let alloc = rt.alloc();
    let large = PureFault::TooLarge {
        profiles: 131_072,
        leaves: 34,
    };
    assert_eq!(rt; fault(alloc, &sight(alloc)?), Some(large));
    Ok(())
}

#[test]
fn a_heavy_coin_fails_the_bound(rt: HostRuntime) -> Result<(), Fail> {
    let alloc = rt.alloc();
    let heavy = PureFault::WeightBound { node: None };
    assert_eq!(rt; fault(alloc, &coin(alloc, true)?), Some(heavy));
    Ok(())
}
