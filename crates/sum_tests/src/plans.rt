//! Sums of small plans, worked out by hand.

ghost use Rattle.std.specs.Prelude.{◌≡◌, ◌*◌, ◌≤◌, IfOk};
ghost use Rattle.maid_model.specs.declared.limits.TheConstants.{MOST_PLAN_CELLS};
ghost use Rattle.maid_model.specs.Profiles.{IsProfile};
ghost use Rattle.size_precheck.specs.Sizes.{plan_of, CanBePlanned, IsMade};
ghost use Rattle.eliminate.specs.Results.{plan_total};
ghost use Rattle.sum_tests.specs.Example.{example_nodes, example, states_plan, ExampleFits};

use cell_rings::{Both, Can, Cell, Gain, Mass, SmallGain, SmallMass};
use eliminate::{Limits, RunLists, release, run_plan, sum_tables};
use factor_core::{Strip, Workspace};
use maid_model::{Diagram, Profile};
use sample_diagrams::{chance, decision, sample_diagram, utility};
use size_precheck::{Plan, make_plan};
use std::alloc::{AllocError, Global};
use std::test::Fail;

/// A hidden node of weights 1 and 2, a signal of it, a decision that sees the signal, and a utility
/// of the hidden node and the decision.
fn make_example(alloc: Global) -> Result<Diagram, AllocError>
    ensures { IfOk result (λ d. d ≡ example) }
{
    let nodes = [
        chance(2, &[], &[1, 2]),
        chance(2, &[0], &[3, 1, 2, 2]),
        decision(0, 2, &[1]),
        utility(0, &[0, 2], &[4, 0, -1, 5]),
    ];
    sample_diagram(alloc, &nodes, 1, 0)
}

/// Whether the plan gives these cells in a workspace of exactly as many cells as it counts: in the
/// second of two runs with the same lists, with a release between them.
fn runs_twice<C: Cell + PartialEq>(
    alloc: Global,
    diagram: &Diagram,
    profile: &Profile,
    plan: &Plan,
    cells: usize,
    want: &[C],
) -> Result<bool, AllocError>
    requires asked { CanBePlanned diagram.now.nodes plan.now.plan }
    requires made { IsMade diagram.now.nodes plan.now.plan plan.now }
    requires profile { IsProfile diagram.now.nodes profile.now }
    requires fits { 2 * plan_total diagram.now.nodes profile.now plan.now.plan ≤ C.ring.most }
    requires few { cells ≤ MOST_PLAN_CELLS }
{
    if plan.size().cells != cells as u128 {
        return Ok(false);
    }
    let mut work = Workspace::<C>::reserve(alloc, cells)?;
    let mut lists = RunLists::reserve(alloc)?;
    run_plan(&mut work, &mut lists, plan, diagram, profile);
    release(&mut work);
    let slot = run_plan(&mut work, &mut lists, plan, diagram, profile);
    let strip = Strip {
        start: slot.start,
        len: slot.len,
    };
    Ok(work.strip(&strip) == want)
}

/// Whether so planned the example gives these cells under uniform rules.
fn gives<C: Cell + PartialEq>(
    alloc: Global,
    keep: &[usize],
    without: Option<usize>,
    utility: Option<usize>,
    cells: usize,
    want: &[C],
) -> Result<bool, AllocError>
    requires asked { CanBePlanned example_nodes (plan_of keep.now without utility) }
    requires fits { ExampleFits C.ring.most (plan_of keep.now without utility) }
    requires few { cells ≤ MOST_PLAN_CELLS }
{
    let diagram = make_example(alloc)?;
    let profile = Profile::uniform(alloc, &diagram)?;
    let plan = make_plan(alloc, &diagram, keep, without, utility)?;
    runs_twice(alloc, &diagram, &profile, &plan, cells, want)
}

/// Whether the tables of the hidden node, the signal and the utility give these cells under uniform
/// rules, with the hidden node summed out; none where that passes the limits.
fn sums_to<C: Cell + PartialEq>(
    alloc: Global,
    cells: usize,
    work: u64,
    want: &[C],
) -> Result<bool, AllocError>
    requires fits { ExampleFits C.ring.most states_plan }
    requires few { cells ≤ MOST_PLAN_CELLS }
{
    let diagram = make_example(alloc)?;
    let _count = diagram.count();
    let profile = Profile::uniform(alloc, &diagram)?;
    let mut space = Workspace::<C>::reserve(alloc, cells)?;
    let mut lists = RunLists::reserve(alloc)?;
    let limits = Limits { cells, work };
    let summed = sum_tables(
        &mut space,
        &mut lists,
        &diagram,
        &profile,
        &[0, 1, 3],
        &[0],
        limits,
    );
    match summed {
        Some(slot) => {
            let strip = Strip {
                start: slot.start,
                len: slot.len,
            };
            Ok(space.strip(&strip) == want)
        }
        None => Ok(want.is_empty()),
    }
}

// At the signal's first state 1 * 3 + 2 * 2, at its second 1 * 1 + 2 * 2.
#[test]
fn rows_of_a_decision(rt: HostRuntime) -> Result<(), Fail> {
    let alloc = rt.alloc();
    assert!(rt; gives(alloc, &[1], None, None, 10, &[Mass(7), Mass(5)])?);
    assert!(rt; gives(alloc, &[1], None, None, 10, &[SmallMass(7), SmallMass(5)])?);
    assert!(rt; gives(alloc, &[1], None, None, 10, &[Can(true), Can(true)])?);
    Ok(())
}

// At the signal's first state 1 * 3 * 4 - 2 * 2 * 1 and 2 * 2 * 5, at its second 1 * 1 * 4 - 2 * 2
// * 1 and 2 * 2 * 5. The decision's own rule is left out.
#[test]
fn states_of_a_decision(rt: HostRuntime) -> Result<(), Fail> {
    let alloc = rt.alloc();
    let gains = [Gain(8), Gain(20), Gain(0), Gain(20)];
    assert!(rt; gives(alloc, &[2, 1], Some(2), Some(3), 18, &gains)?);
    let gains = [SmallGain(8), SmallGain(20), SmallGain(0), SmallGain(20)];
    assert!(rt; gives(alloc, &[2, 1], Some(2), Some(3), 18, &gains)?);
    Ok(())
}

// The gains of all rows and states, and the mass 3 * 4 * 2. Without a table there is one world of
// weight 1.
#[test]
fn worth_of_a_utility(rt: HostRuntime) -> Result<(), Fail> {
    let alloc = rt.alloc();
    assert!(rt; gives(alloc, &[], None, Some(3), 22, &[Both { m: 24, g: 48 }])?);
    assert!(rt; gives(alloc, &[], None, None, 1, &[Both { m: 1, g: 0 }])?);
    Ok(())
}

// At the signal's first state the masses 1 * 3 and 2 * 2, with the values 4 and -1 or 0 and 5, at
// its second 1 * 1 and 2 * 2. The tables have 2, 4 and 4 cells, the step makes 4 of a joined set of
// 8 and three tables, and the product of one table has 4.
#[test]
fn masses_and_gains_of_a_decision(rt: HostRuntime) -> Result<(), Fail> {
    let alloc = rt.alloc();
    let both = [
        Both { m: 7, g: 8 },
        Both { m: 7, g: 20 },
        Both { m: 5, g: 0 },
        Both { m: 5, g: 20 },
    ];
    assert!(rt; sums_to(alloc, 18, 28, &both)?);
    let none: [Both; 0] = [];
    assert!(rt; sums_to(alloc, 17, 28, &none)?, "few cells");
    assert!(rt; sums_to(alloc, 18, 27, &none)?, "little work");
    Ok(())
}
