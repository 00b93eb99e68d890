//! Sizes of small plans, counted by hand.

ghost use Rattle.std.specs.Prelude.{◌≡◌, IfOk};
ghost use Rattle.sum_tests.specs.Planning.{blind_diagram, seeing_diagram, sighted_diagram, square_diagram, star_diagram, thrice_paid, twice_paid};

use maid_model::Diagram;
use sample_diagrams::{chance, decision, sample_diagram, utility};
use size_precheck::{
    Plan, Planner, Size, keep_edited, make_plan, measure, plan_by, plan_decision, plan_run_by,
    plan_worths,
};
use std::alloc::{AllocError, Global};
use std::test::Fail;

/// A square of four chance nodes, and a utility over two of its corners.
fn square(alloc: Global) -> Result<Diagram, AllocError>
    ensures { IfOk result (λ d. d ≡ square_diagram) }
{
    let nodes = [
        chance(2, &[], &[1, 1]),
        chance(2, &[0], &[1, 1, 1, 1]),
        chance(2, &[1], &[1, 1, 1, 1]),
        chance(2, &[0], &[1, 1, 1, 1]),
        utility(0, &[2, 3], &[1, 1, 1, 1]),
    ];
    sample_diagram(alloc, &nodes, 1, 0)
}

/// The square with a second utility like the first.
fn twice_paid(alloc: Global) -> Result<Diagram, AllocError>
    ensures { IfOk result (λ d. d ≡ twice_paid) }
{
    let nodes = [
        chance(2, &[], &[1, 1]),
        chance(2, &[0], &[1, 1, 1, 1]),
        chance(2, &[1], &[1, 1, 1, 1]),
        chance(2, &[0], &[1, 1, 1, 1]),
        utility(0, &[2, 3], &[1, 1, 1, 1]),
        utility(0, &[2, 3], &[1, 1, 1, 1]),
    ];
    sample_diagram(alloc, &nodes, 1, 0)
}

/// A chance node, a decision that sees it, and a utility over both.
fn sighted(alloc: Global) -> Result<Diagram, AllocError>
    ensures { IfOk result (λ d. d ≡ sighted_diagram) }
{
    let nodes = [
        chance(2, &[], &[1, 1]),
        decision(0, 2, &[0]),
        utility(0, &[0, 1], &[1, 1, 1, 1]),
    ];
    sample_diagram(alloc, &nodes, 1, 0)
}

/// A chance node that no decision sees, a decision, a utility over both, and one over the chance
/// node alone.
fn blind(alloc: Global) -> Result<Diagram, AllocError>
    ensures { IfOk result (λ d. d ≡ blind_diagram) }
{
    let nodes = [
        chance(2, &[], &[1, 1]),
        decision(0, 2, &[]),
        utility(0, &[0, 1], &[1, 1, 1, 1]),
        utility(0, &[0], &[1, 1]),
    ];
    sample_diagram(alloc, &nodes, 1, 0)
}

/// The same where the decision sees the chance node.
fn seeing(alloc: Global) -> Result<Diagram, AllocError>
    ensures { IfOk result (λ d. d ≡ seeing_diagram) }
{
    let nodes = [
        chance(2, &[], &[1, 1]),
        decision(0, 2, &[0]),
        utility(0, &[0, 1], &[1, 1, 1, 1]),
        utility(0, &[0], &[1, 1]),
    ];
    sample_diagram(alloc, &nodes, 1, 0)
}

/// A decision of 16 states that 15 others see.
fn star(alloc: Global) -> Result<Diagram, AllocError>
    ensures { IfOk result (λ d. d ≡ star_diagram) }
{
    let mut nodes = Vec::new(alloc);
    nodes.push(decision(0, 16, &[]))?;
    for _ in 0..15u8 {
        nodes.push(decision(0, 16, &[0]))?;
    }
    sample_diagram(alloc, nodes.as_slice(), 1, 0)
}

/// Whether the plan keeps these nodes, eliminates those in this order, and is of this size.
fn is_plan(plan: &Plan, keep: &[usize], steps: &[usize], size: Size) -> bool {
    plan.keep() == keep && plan.steps() == steps && plan.size() == size
}

/// Whether the worth of the square's utility is planned as counted.
fn plans_worth(alloc: Global) -> Result<bool, AllocError> {
    let plan = make_plan(alloc, &square(alloc)?, &[], None, Some(4))?;
    let size = Size {
        cells: 30,
        work: 51,
    };
    let of_worth = plan.without() == None && plan.utility() == Some(4);
    Ok(of_worth && is_plan(&plan, &[], &[0, 1, 2, 3], size))
}

/// Whether the plan that keeps the paying corners is as counted.
fn plans_corners(alloc: Global) -> Result<bool, AllocError> {
    let plan = make_plan(alloc, &square(alloc)?, &[3, 2], None, None)?;
    let size = Size {
        cells: 26,
        work: 44,
    };
    Ok(is_plan(&plan, &[3, 2], &[0, 1], size))
}

// The first joined sets have eight cells each. G goes first, with three tables, and makes H and B;
// then H, with two, makes A and B; A, whose set has four cells now, makes B, and B the last cell.
#[test]
fn plans_of_a_square(rt: HostRuntime) -> Result<(), Fail> {
    let alloc = rt.alloc();
    assert!(rt; plans_worth(alloc)?);
    assert!(rt; plans_corners(alloc)?);
    Ok(())
}

/// Whether the square's plans are as counted where what they share is made once.
fn plans_by_one(alloc: Global) -> Result<bool, AllocError> {
    let diagram = square(alloc)?;
    let planner = Planner::new(alloc, &diagram)?;
    let worth = plan_by(alloc, &diagram, &planner, &[], None, Some(4))?;
    let corners = plan_by(alloc, &diagram, &planner, &[3, 2], None, None)?;
    Ok(worth.steps() == [0, 1, 2, 3].as_slice() && corners.steps() == [0, 1].as_slice())
}

/// The size of the run of the decision that sees, by what its plans share.
fn run_by_one(alloc: Global) -> Result<Size, AllocError> {
    let diagram = sighted(alloc)?;
    let planner = Planner::new(alloc, &diagram)?;
    Ok(plan_run_by(alloc, &diagram, &planner, &[1])?.size)
}

#[test]
fn plans_that_share(rt: HostRuntime) -> Result<(), Fail> {
    let alloc = rt.alloc();
    let size = Size {
        cells: 14,
        work: 25,
    };
    assert!(rt; plans_by_one(alloc)?);
    assert_eq!(rt; run_by_one(alloc)?, size);
    Ok(())
}

/// Whether the plan of this utility's worth eliminates those nodes, and is of this size.
fn is_worth(plan: Option<&Plan>, utility: usize, steps: &[usize], size: Size) -> bool {
    match plan {
        Some(plan) => plan.utility() == Some(utility) && is_plan(plan, &[], steps, size),
        None => false,
    }
}

/// Whether the worths are planned as counted where the decision sees the chance node, by the plans
/// where it doesn't.
fn keeps_worths(alloc: Global) -> Result<bool, AllocError> {
    let before = plan_worths(alloc, &blind(alloc)?)?;
    let kept = keep_edited(alloc, &seeing(alloc)?, &before, 1)?;
    let both = Size {
        cells: 14,
        work: 15,
    };
    let alone = Size { cells: 6, work: 5 };
    let plans = kept.worths.as_slice();
    Ok(is_worth(plans.first(), 2, &[0, 1], both) && is_worth(plans.last(), 3, &[0], alone))
}

// The first utility's plan has the decision's new rule, of four cells in place of two; the second
// is that of before: two tables of two cells, one that the node makes, and the last cell.
#[test]
fn worths_beside_an_edit(rt: HostRuntime) -> Result<(), Fail> {
    assert!(rt; keeps_worths(rt.alloc())?);
    Ok(())
}

/// Two chance nodes, a decision that sees nothing, and three utilities over the second chance node
/// and the decision.
fn thrice_paid(alloc: Global) -> Result<Diagram, AllocError>
    ensures { IfOk result (λ d. d ≡ thrice_paid) }
{
    let nodes = [
        chance(2, &[], &[1, 1]),
        chance(2, &[0], &[1, 1, 1, 1]),
        decision(0, 2, &[]),
        utility(0, &[1, 2], &[1, 1, 1, 1]),
        utility(0, &[1, 2], &[1, 1, 1, 1]),
        utility(0, &[1, 2], &[1, 1, 1, 1]),
    ];
    sample_diagram(alloc, &nodes, 1, 0)
}

/// Whether three goals are summed together in this order, and one goal alone is not.
fn orders_joint_sums(alloc: Global) -> Result<bool, AllocError> {
    let three = plan_decision(alloc, &thrice_paid(alloc)?, 2)?;
    let one = plan_decision(alloc, &sighted(alloc)?, 1)?;
    Ok(three.joint_order.as_slice() == [0, 1].as_slice() && one.joint_order.is_empty())
}

// The first joined set of the first node has four cells, that of the second eight.
#[test]
fn orders_of_joint_sums(rt: HostRuntime) -> Result<(), Fail> {
    assert!(rt; orders_joint_sums(rt.alloc())?);
    Ok(())
}

/// The sizes of the runs of the square that pays twice, and of the decision that sees.
fn sizes(alloc: Global) -> Result<[Size; 2], AllocError> {
    let paid = measure(alloc, &twice_paid(alloc)?, &[])?;
    let sighted = measure(alloc, &sighted(alloc)?, &[1])?;
    Ok([paid, sighted])
}

// A second utility like the first has the same plan again. In the other diagram the row's plan has
// 4 cells and work 2, that of the states 10 and 8, and that of the worth 14 and 15.
#[test]
fn sizes_of_runs(rt: HostRuntime) -> Result<(), Fail> {
    let paid = Size {
        cells: 30,
        work: 102,
    };
    let sighted = Size {
        cells: 14,
        work: 25,
    };
    assert_eq!(rt; sizes(rt.alloc())?, [paid, sighted]);
    Ok(())
}

/// The plan of the star that keeps all but the node in the middle.
fn plan_of_points(alloc: Global) -> Result<Plan, AllocError> {
    let keep = [1, 2, 3, 4, 5, 6, 7, 8, 9, 10, 11, 12, 13, 14, 15];
    make_plan(alloc, &star(alloc)?, &keep, None, None)
}

// The joined set of the node in the middle has 2^64 cells, and what it makes 2^60.
#[test]
fn counts_stop(rt: HostRuntime) -> Result<(), Fail> {
    let plan = plan_of_points(rt.alloc())?;
    let end = 1_000_000_000_000_000_000;
    let size = Size {
        cells: end,
        work: end,
    };
    assert_eq!(rt; plan.steps(), [0].as_slice());
    assert_eq!(rt; plan.size(), size);
    Ok(())
}
