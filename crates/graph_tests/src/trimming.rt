//! Tests of `requisite_trim`: small diagrams, and the arcs that go when they are trimmed.

ghost use Rattle.std.specs.Prelude.{◌≡◌, IfOk};
ghost use Rattle.graph_tests.specs.Trimming.{example, states_if, weights_if, values_if, agent_if};

use maid_model::Diagram;
use requisite_trim::{requisite, trim};
use sample_diagrams::{chance, decision, sample_diagram, utility};
use std::alloc::{AllocError, Global};
use std::test::Fail;

fn states(one: bool) -> usize
    ensures { result ≡ states_if one }
{
    if one { 1 } else { 2 }
}

fn weights(one: bool) -> &'static [i128]
    ensures { result.now ≡ weights_if one }
{
    if one { &[1] } else { &[1, 1] }
}

fn values(forced: bool) -> &'static [i128]
    ensures { result.now ≡ values_if forced }
{
    if forced { &[0, 2] } else { &[0, 3, 2, 1] }
}

fn agent(rival: bool) -> usize
    ensures { result ≡ agent_if rival }
{
    if rival { 1 } else { 0 }
}

/// A chance node, two decisions that see it, the second of which sees the first too, and a utility
/// over both.
fn diagram(alloc: Global, sure: bool, forced: bool, rival: bool) -> Result<Diagram, AllocError>
    ensures { IfOk result (λ d. d ≡ example sure forced rival) }
{
    let nodes = [
        chance(states(sure), &[], weights(sure)),
        decision(0, 2, &[0]),
        decision(agent(rival), states(forced), &[0, 1]),
        utility(0, &[1, 2], values(forced)),
    ];
    sample_diagram(alloc, &nodes, 2, 0)
}

/// Whether trimming removes these arcs in this order, and no node, and then no more.
fn is_trimmed(
    alloc: Global,
    whole: &Diagram,
    removed: &[(usize, usize)],
) -> Result<bool, AllocError> {
    let trimmed = trim(alloc, whole)?;
    let again = trim(alloc, &trimmed.diagram)?;
    Ok(
        trimmed.removed.as_slice() == removed
            && trimmed.diagram.count() == whole.count()
            && again.removed.is_empty(),
    )
}

// The first decision needs the chance node only as long as the second one tells of it. An arc from
// a node of one state goes at once; an arc into a decision of one state may stay. A rival to whom
// nothing is worth anything needs nothing.
#[test]
fn trims_anew_after_each_arc(rt: HostRuntime) -> Result<(), Fail> {
    let rows: [(bool, bool, bool, &[(usize, usize)]); 4] = [
        (false, false, false, &[(0, 2), (0, 1)]),
        (true, false, false, &[(0, 1), (0, 2)]),
        (false, true, false, &[(0, 1), (0, 2)]),
        (false, false, true, &[(0, 2), (0, 1), (1, 2)]),
    ];
    for (sure, forced, rival, removed) in rows {
        let whole = diagram(rt.alloc(), sure, forced, rival)?;
        assert!(rt; is_trimmed(rt.alloc(), &whole, removed)?);
    }
    Ok(())
}

#[test]
fn some_arcs_are_requisite(rt: HostRuntime) -> Result<(), Fail> {
    let whole = diagram(rt.alloc(), false, false, false)?;
    let are = [
        requisite(&whole, 0, 1),
        requisite(&whole, 0, 2),
        requisite(&whole, 1, 2),
    ];
    assert_eq!(rt; are, [true, false, true]);
    Ok(())
}
