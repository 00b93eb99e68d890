//! Tests of `diagram_graph`: a small diagram, and what the calls make of it.

ghost use Rattle.std.specs.Prelude.{◌≡◌, IfOk};
ghost use Rattle.graph_tests.specs.Edits.{example, answer_of, answers};

use diagram_graph::{
    AddFault, MakeFault, RemoveFault, add_arc, add_arc_in, decide_at, fix_others, lose_arc,
    make_decision, part, remove_arc, remove_arc_in,
};
use maid_model::{Answer, Diagram, Kind, Row, Solved};
use sample_diagrams::{chance, decision, sample_diagram, utility};
use std::alloc::{AllocError, Global};
use std::test::Fail;

/// Two chance nodes, a decision over both, a rival's decision over the second, and a utility over
/// the first decision.
fn diagram(alloc: Global) -> Result<Diagram, AllocError>
    ensures { IfOk result (λ d. d ≡ example) }
{
    let nodes = [
        chance(2, &[], &[1, 1]),
        chance(2, &[], &[1, 3]),
        decision(0, 2, &[0, 1]),
        decision(1, 2, &[1]),
        utility(0, &[2], &[0, 5]),
    ];
    sample_diagram(alloc, &nodes, 2, 0)
}

/// Whether the diagram without the first node's arc has the decision see the second node alone, and
/// the part that leads to the utility has that node, the decision and the utility.
fn is_cut(alloc: Global) -> Result<bool, RemoveFault> {
    let whole = diagram(alloc)?;
    let less = remove_arc(alloc, &whole, 0, 2)?;
    let below = part(alloc, &less, &[4])?;
    let left = &below.diagram;
    Ok(
        less.parents(2) == [1].as_slice()
            && below.nodes.as_slice() == [1, 2, 4].as_slice()
            && left.count() == 3
            && left.cells(0) == [1, 3].as_slice()
            && left.parents(1) == [0].as_slice()
            && left.parents(2) == [1].as_slice(),
    )
}

#[test]
fn removes_an_arc_and_takes_a_part(rt: HostRuntime) -> Result<(), Fail> {
    assert!(rt; is_cut(rt.alloc())?);
    Ok(())
}

/// Whether the arc from the first node is gone once it is taken out of the diagram, and the other
/// one is there.
fn is_lost(alloc: Global) -> Result<bool, AllocError> {
    let whole = diagram(alloc)?;
    let less = lose_arc(alloc, whole, 0, 2)?;
    Ok(less.count() == 5 && less.parents(2) == [1].as_slice())
}

#[test]
fn takes_an_arc_out(rt: HostRuntime) -> Result<(), Fail> {
    assert!(rt; is_lost(rt.alloc())?);
    Ok(())
}

#[test]
fn an_absent_arc_is_not_removed(rt: HostRuntime) -> Result<(), Fail> {
    let alloc = rt.alloc();
    let absent = remove_arc(alloc, &diagram(alloc)?, 3, 2);
    assert!(rt; matches!(absent, Err(RemoveFault::NotPresent)));
    Ok(())
}

/// Why the arcs from its first parent and from itself can't be added to the first decision, if they
/// can't.
fn faults(alloc: Global) -> Result<[Option<AddFault>; 2], AllocError> {
    let whole = diagram(alloc)?;
    Ok([
        add_arc(alloc, &whole, 0, 2).err(),
        add_arc(alloc, &whole, 2, 2).err(),
    ])
}

#[test]
fn an_arc_can_not_be_added(rt: HostRuntime) -> Result<(), Fail> {
    let want = [Some(AddFault::Present), Some(AddFault::WouldCycle)];
    assert_eq!(rt; faults(rt.alloc())?, want);
    Ok(())
}

/// Whether the first decision sees the rival's choice too once the arc is added.
fn is_added(alloc: Global) -> Result<bool, AddFault> {
    let whole = diagram(alloc)?;
    let more = add_arc(alloc, &whole, 3, 2)?;
    Ok(more.parents(2) == [0, 1, 3].as_slice())
}

/// Whether the second chance node becomes a decision of the rival.
fn is_given(alloc: Global) -> Result<bool, MakeFault> {
    let whole = diagram(alloc)?;
    let made = make_decision(alloc, &whole, 1, 1)?;
    Ok(made.kind(1) == Kind::Decision && made.agent_of(1) == 1 && made.cells(1).is_empty())
}

/// Whether it does so in the diagram itself, and is a chance node with its table again where it is
/// put back.
fn is_lent(alloc: Global) -> Result<bool, MakeFault> {
    let mut whole = diagram(alloc)?;
    let _count = whole.count();
    let lent = decide_at(alloc, &mut whole, 1, 1)?;
    let is_decided = whole.kind(1) == Kind::Decision && whole.agent_of(1) == 1;
    whole.exchange(1, lent);
    Ok(is_decided && whole.kind(1) == Kind::Chance && whole.cells(1) == [1, 3].as_slice())
}

#[test]
fn adds_an_arc_and_gives_control(rt: HostRuntime) -> Result<(), Fail> {
    let alloc = rt.alloc();
    assert!(rt; is_added(alloc)?);
    assert!(rt; is_given(alloc)?);
    assert!(rt; is_lent(alloc)?);
    Ok(())
}

/// What the sets of arcs tell of the arcs from the chance nodes into the two decisions: each but
/// the last as a parent and as a child.
fn told_arcs(diagram: &Diagram) -> [bool; 7] {
    let arcs = diagram.arcs();
    [
        arcs.parents(2).holds(0),
        arcs.children(0).holds(2),
        arcs.parents(3).holds(0),
        arcs.children(0).holds(3),
        arcs.parents(3).holds(1),
        arcs.children(1).holds(3),
        arcs.children(1).holds(2),
    ]
}

/// What they tell of the diagram, of that in which the first decision doesn't see the first node,
/// and of that in which the rival sees it.
const WHOLE: [bool; 7] = [true, true, false, false, true, true, true];

const HIDDEN: [bool; 7] = [false, false, false, false, true, true, true];

const SHOWN: [bool; 7] = [true, true, true, true, true, true, true];

/// Whether the first decision loses the first node in the diagram itself, and sees it again where
/// it is put back.
fn is_hidden(alloc: Global) -> Result<bool, AllocError> {
    let mut whole = diagram(alloc)?;
    let _count = whole.count();
    let is_whole = told_arcs(&whole) == WHOLE;
    let seeing = remove_arc_in(alloc, &mut whole, 0, 2)?;
    let is_hidden = told_arcs(&whole) == HIDDEN && whole.parents(2) == [1].as_slice();
    whole.exchange(2, seeing);
    let is_back = told_arcs(&whole) == WHOLE && whole.parents(2) == [0, 1].as_slice();
    Ok(is_whole && is_hidden && is_back)
}

/// Whether the rival's decision sees the first node too in the diagram itself, and no more where it
/// is put back.
fn is_shown(alloc: Global) -> Result<bool, AllocError> {
    let mut whole = diagram(alloc)?;
    let _count = whole.count();
    let blind = add_arc_in(alloc, &mut whole, 0, 3)?;
    let is_shown = told_arcs(&whole) == SHOWN && whole.parents(3) == [1, 0].as_slice();
    whole.exchange(3, blind);
    let is_back = told_arcs(&whole) == WHOLE && whole.parents(3) == [1].as_slice();
    Ok(is_shown && is_back)
}

#[test]
fn edits_arcs_and_puts_them_back(rt: HostRuntime) -> Result<(), Fail> {
    let alloc = rt.alloc();
    assert!(rt; is_hidden(alloc)?);
    assert!(rt; is_shown(alloc)?);
    Ok(())
}

fn answer(alloc: Global, decision: usize, choices: &[usize]) -> Result<Answer, AllocError>
    ensures { IfOk result (λ a. a ≡ answer_of decision choices.now) }
{
    let mut rows = Vec::new(alloc);
    for choice in choices {
        rows.push(Row {
            choice: *choice,
            worth: None,
        })?;
    }
    Ok(Answer { decision, rows })
}

/// The first decision takes its first state, and the rival's its second one, then its first.
fn solved(alloc: Global) -> Result<Solved, AllocError>
    ensures { IfOk result (λ s. s.answers ≡ answers) }
{
    let mut answers = Vec::new(alloc);
    answers.push(answer(alloc, 3, &[1, 0])?)?;
    answers.push(answer(alloc, 2, &[0, 0, 0, 0])?)?;
    Ok(Solved {
        order: Vec::new(alloc),
        answers,
        gains: Vec::new(alloc),
    })
}

/// Whether the rival's decision becomes a chance node that tells its rule, and the first one stays
/// a decision.
fn is_fixed(alloc: Global) -> Result<bool, AllocError> {
    let whole = diagram(alloc)?;
    let solved = solved(alloc)?;
    let alone = fix_others(alloc, &whole, 0, &solved)?;
    Ok(
        alone.kind(2) == Kind::Decision
            && alone.kind(3) == Kind::Chance
            && alone.cells(3) == [0, 1, 1, 0].as_slice()
            && alone.parents(3) == [1].as_slice(),
    )
}

#[test]
fn fixes_the_rivals_decision(rt: HostRuntime) -> Result<(), Fail> {
    assert!(rt; is_fixed(rt.alloc())?);
    Ok(())
}
