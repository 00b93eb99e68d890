//! Tests of `relevance_graph`: small diagrams, and who relies on whom in them.

ghost use Rattle.std.specs.Prelude.{◌≡◌, IfOk};
ghost use Rattle.graph_tests.specs.Reliance.{pair_diagram, seen_if as seen_in};

use diagram_graph::topological;
use maid_model::Diagram;
use relevance_graph::find_relevance;
use sample_diagrams::{decision, sample_diagram, utility};
use std::alloc::{AllocError, Global};
use std::test::Fail;

fn seen_if(sees: bool) -> &'static [usize]
    ensures { result.now ≡ seen_in sees }
{
    if sees { &[0] } else { &[] }
}

/// Two choices of one agent, which pay where they agree. The second sees the first or does not.
fn pair(alloc: Global, sees: bool) -> Result<Diagram, AllocError>
    ensures { IfOk result (λ d. d ≡ pair_diagram sees) }
{
    let nodes = [
        decision(0, 2, &[]),
        decision(0, 2, seen_if(sees)),
        utility(0, &[0, 1], &[1, 0, 0, 1]),
    ];
    sample_diagram(alloc, &nodes, 1, 0)
}

/// Whether the first choice relies on the second and the second on the first as told, and what
/// order or cycle that leaves.
fn is_found(
    alloc: Global,
    sees: bool,
    relies: [bool; 2],
    order: Result<&[usize], &[usize]>,
) -> Result<bool, AllocError> {
    let diagram = pair(alloc, sees)?;
    let found = find_relevance(alloc, &diagram)?;
    let on_the_utility = found.relies(0, 2);
    let between = [found.relies(0, 1), found.relies(1, 0)];
    Ok(!on_the_utility && between == relies && found.order() == order)
}

#[test]
fn choices_rely_on_what_they_do_not_see(rt: HostRuntime) -> Result<(), Fail> {
    let alloc = rt.alloc();
    assert!(rt; is_found(alloc, false, [true, true], Err(&[0, 1]))?);
    assert!(rt; is_found(alloc, true, [true, false], Ok(&[1, 0]))?);
    Ok(())
}

#[test]
fn parents_come_first(rt: HostRuntime) -> Result<(), Fail> {
    let alloc = rt.alloc();
    let diagram = pair(alloc, true)?;
    let order = topological(alloc, &diagram)?;
    assert_eq!(rt; order.as_slice(), [0, 1, 2].as_slice());
    Ok(())
}
