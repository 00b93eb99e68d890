//! The sums over all worlds, the worlds and the reliance that the code finds on the small diagrams:
//! what was worked out by hand.

ghost use Rattle.maid_model.specs.Profiles.{HasRule};

use crate::trials::{
    coins, copied, copied_plan_has, copied_uniform_has, joined, joined_little_has, joined_much_has,
    joined_uniform_has, parted, parted_little_has, parted_much_has, parted_uniform_has, sight,
    sight_plan_has, sight_uniform_has, team, team_plan_has, team_uniform_has, threatened_has,
    trace, trip, trip_plan_has, trip_uniform_has,
};
use maid_model::{Diagram, Profile, World};
use relevance_graph::find_relevance;
use std::alloc::{AllocError, Global};
use std::test::Fail;

/// Whether each of these decisions relies on those beside it, and this is the order of solving, or
/// else the relevance cycle.
fn is_found(
    alloc: Global,
    diagram: Diagram,
    reliance: &[(usize, &[usize])],
    order: Result<&[usize], &[usize]>,
) -> Result<bool, AllocError> {
    let found = find_relevance(alloc, &diagram)?;
    for (decision, on) in reliance {
        if *decision >= diagram.count() || found.relied_on(*decision) != *on {
            return Ok(false);
        }
    }
    Ok(found.order() == order)
}

/// Whether the diagram's worlds are these, in their order.
fn has_worlds(alloc: Global, diagram: &Diagram, worlds: &[&[usize]]) -> Result<bool, AllocError> {
    let mut world = World::first(alloc, diagram)?;
    let mut more = true;
    for states in worlds {
        if !more || world.states.as_slice() != *states {
            return Ok(false);
        }
        more = world.next(diagram);
    }
    Ok(!more)
}

/// Whether the decision's rule has these weights.
fn has_weights(profile: &Profile, decision: usize, weights: &[u128]) -> bool
    requires { HasRule profile.now decision }
{
    profile.rule(decision).weights.as_slice() == weights
}

#[test]
fn sums_in_sight(rt: HostRuntime) -> Result<(), Fail> {
    let alloc = rt.alloc();
    // In sight of the leader, uniform rules: leader 5 - 1 + 3 + 0, follower -2 + 1 + 5 + 0.
    assert!(rt;
        sight_uniform_has(
            alloc,
            &[7, 4],
            &[(1, &[-2, 1, 5, 0], &[1, 1]), (0, &[4, 3], &[2])]
        )?
    );

    // The leader asks little, and the follower takes where little is asked: 3 and 5.
    assert!(rt;
        sight_plan_has(
            alloc,
            &[3, 5],
            &[(1, &[0, 0, 5, 0], &[0, 1]), (0, &[-1, 3], &[1])]
        )?
    );
    Ok(())
}

#[test]
fn sums_by_copy(rt: HostRuntime) -> Result<(), Fail> {
    let alloc = rt.alloc();
    // The follower sees a copy of the choice in its place: the sums are those of `sums_in_sight`.
    assert!(rt;
        copied_uniform_has(
            alloc,
            &[7, 4],
            &[(2, &[-2, 1, 5, 0], &[1, 1]), (0, &[4, 3], &[2])]
        )?
    );

    // The plan of `sums_in_sight`, by the copy.
    assert!(rt; copied_plan_has(alloc, &[3, 5], &[(0, &[-1, 3], &[1])])?);
    Ok(())
}

#[test]
fn sums_through_two_states(rt: HostRuntime) -> Result<(), Fail> {
    let alloc = rt.alloc();
    // The follower sees nothing and is paid by the copy: one row, summed over what the leader asks.
    assert!(rt; joined_uniform_has(alloc, &[7, 4], &[(2, &[3, 1], &[2])])?);

    // Against a leader who asks much the follower leaves.
    assert!(rt; joined_much_has(alloc, &[], &[(2, &[-2, 1], &[1])])?);

    // Against a leader who asks little the follower takes.
    assert!(rt; joined_little_has(alloc, &[], &[(2, &[5, 0], &[1])])?);
    Ok(())
}

#[test]
fn sums_through_one_state(rt: HostRuntime) -> Result<(), Fail> {
    let alloc = rt.alloc();
    // One state in the copy's place: what the leader asks is nothing to the follower.
    assert!(rt; parted_uniform_has(alloc, &[7, 8], &[(2, &[6, 2], &[2])])?);

    // Where much is asked, take is worth 3 and leave 1.
    assert!(rt; parted_much_has(alloc, &[], &[(2, &[3, 1], &[1])])?);

    // Where little is asked, the same.
    assert!(rt; parted_little_has(alloc, &[], &[(2, &[3, 1], &[1])])?);
    Ok(())
}

// The leader goes right, since the follower goes right whatever it sees: each gets 1.
#[test]
fn sums_of_the_threat(rt: HostRuntime) -> Result<(), Fail> {
    assert!(rt; threatened_has(rt.alloc(), &[1, 1], &[])?);
    Ok(())
}

#[test]
fn sums_of_the_trip(rt: HostRuntime) -> Result<(), Fail> {
    let alloc = rt.alloc();
    // Rain at 1 and sun at 3, and the agent stays or goes alike: 5 + 0 + 3 * (-1) + 3 * 7.
    assert!(rt; trip_uniform_has(alloc, &[23], &[(1, &[5, 0, -3, 21], &[1, 3])])?);

    // To stay in the rain and go in the sun: 5 + 3 * 7.
    assert!(rt; trip_plan_has(alloc, &[26], &[])?);
    Ok(())
}

#[test]
fn sums_of_the_team(rt: HostRuntime) -> Result<(), Fail> {
    let alloc = rt.alloc();
    // The shared result counts in full for each: 3 + 2, and the follower's wish 2 + 2 beside it.
    assert!(rt; team_uniform_has(alloc, &[5, 9], &[(1, &[3, 2, 0, 4], &[1, 1])])?);

    // The leader takes the first state and the follower what it sees: 3 for each.
    assert!(rt; team_plan_has(alloc, &[3, 3], &[(0, &[3, 2], &[1])])?);
    Ok(())
}

/// Whether the weather's weights add up to this, and the uniform rule of the trip's decision has
/// these.
fn is_weighed(alloc: Global, total: u128, weights: &[u128]) -> Result<bool, AllocError> {
    let diagram = trip(alloc)?;
    let profile = Profile::uniform(alloc, &diagram)?;
    Ok(diagram.weight_total(0) == total && has_weights(&profile, 1, weights))
}

// The weather's weights add up to 4, and the uniform rule has 1 everywhere.
#[test]
fn weights_of_the_trip(rt: HostRuntime) -> Result<(), Fail> {
    assert!(rt; is_weighed(rt.alloc(), 4, &[1, 1, 1, 1])?);
    Ok(())
}

// The last node goes fastest, and a utility stays at state 0.
#[test]
fn worlds_of_the_trip(rt: HostRuntime) -> Result<(), Fail> {
    let alloc = rt.alloc();
    let worlds: [&[usize]; 4] = [&[0, 0, 0], &[0, 1, 0], &[1, 0, 0], &[1, 1, 0]];
    assert!(rt; has_worlds(alloc, &trip(alloc)?, &worlds)?);
    Ok(())
}

// After the last of the worlds there is none.
#[test]
fn worlds_of_sight(rt: HostRuntime) -> Result<(), Fail> {
    let alloc = rt.alloc();
    let worlds: [&[usize]; 4] = [&[0, 0, 0, 0], &[0, 1, 0, 0], &[1, 0, 0, 0], &[1, 1, 0, 0]];
    assert!(rt; has_worlds(alloc, &sight(alloc)?, &worlds)?);
    Ok(())
}

// The leader relies on the follower, who sees it and relies on nobody.
#[test]
fn reliance_in_sight(rt: HostRuntime) -> Result<(), Fail> {
    let alloc = rt.alloc();
    assert!(rt; is_found(alloc, sight(alloc)?, &[(0, &[1]), (1, &[])], Ok(&[1, 0]))?);
    Ok(())
}

// Behind the copy each relies on the other.
#[test]
fn reliance_by_copy(rt: HostRuntime) -> Result<(), Fail> {
    let alloc = rt.alloc();
    assert!(rt; is_found(alloc, copied(alloc)?, &[(0, &[2]), (2, &[0])], Err(&[0, 2]))?);
    Ok(())
}

// Through two states each relies on the other.
#[test]
fn reliance_through_two_states(rt: HostRuntime) -> Result<(), Fail> {
    let alloc = rt.alloc();
    assert!(rt; is_found(alloc, joined(alloc)?, &[(0, &[2]), (2, &[0])], Err(&[0, 2]))?);
    Ok(())
}

// Through one state the follower relies on nobody.
#[test]
fn reliance_through_one_state(rt: HostRuntime) -> Result<(), Fail> {
    let alloc = rt.alloc();
    assert!(rt; is_found(alloc, parted(alloc)?, &[(0, &[2]), (2, &[])], Ok(&[2, 0]))?);
    Ok(())
}

// Two who choose unseen of each other.
#[test]
fn cycle_of_pennies(rt: HostRuntime) -> Result<(), Fail> {
    let alloc = rt.alloc();
    assert!(rt; is_found(alloc, coins(alloc)?, &[(0, &[1]), (1, &[0])], Err(&[0, 1]))?);
    Ok(())
}

// A leader who cares for its own choice alone, and a follower who sees a copy of it.
#[test]
fn order_by_copy(rt: HostRuntime) -> Result<(), Fail> {
    let alloc = rt.alloc();
    assert!(rt; is_found(alloc, trace(alloc)?, &[(0, &[]), (2, &[0])], Ok(&[0, 2]))?);
    Ok(())
}

// The follower of the team sees the leader and relies on nobody.
#[test]
fn order_of_the_team(rt: HostRuntime) -> Result<(), Fail> {
    let alloc = rt.alloc();
    assert!(rt; is_found(alloc, team(alloc)?, &[(0, &[1]), (1, &[])], Ok(&[1, 0]))?);
    Ok(())
}
