//! Tests of `net_build`: small texts, built and refused.

ghost use Rattle.std.specs.Prelude.{IfOk};
ghost use Rattle.maid_model.specs.Names.{NamesFit};

use maid_model::{Diagram, Kind};
use net_build::{BuildFault, Names, build};
use net_lexer::lex;
use net_parser::parse;
use std::alloc::Global;
use std::test::Fail;

const STEER: &str =
    "node X { states = (\"p\" \"q\"); } decision D { states = (\"l\" \"r\"); } utility U { } potential (X) { data = (1 1); } potential (D | X) { } potential (U | X D) { data = (3 0 0 1); }";

const COIN: &str =
    "node C { states = (\"a\" \"b\"); state_values = (-infinity 0 infinity); } utility U { agent = \"A\"; } potential (C) { data = (1 1); } potential (U | C) { data = (0.5 -1.25); }";

const THIRDS: &str =
    "potential (B | A) { data = ((0.3 0.7) (0.333333 0.666667) (1 0)); } node A { states = (\"x\" \"y\" \"z\"); } node B { states = (\"u\" \"v\"); } potential (A) { data = (0.333333 0.333333 0.333333); }";

// The diagram that the text stands for, and its names.
pub(crate) fn built(alloc: Global, text: &str) -> Result<(Diagram, Names), Fail>
    ensures { IfOk result (λ built. NamesFit built.0 built.1) }
{
    let text = text.as_bytes();
    let tokens = lex(alloc, text)?;
    let syntax = parse(alloc, text, &tokens)?;
    Ok(build(alloc, text, &tokens, &syntax)?)
}

// The text's fault and its place.
fn fault_of(alloc: Global, text: &str) -> Result<String, Fail> {
    let text = text.as_bytes();
    let tokens = lex(alloc, text)?;
    let syntax = parse(alloc, text, &tokens)?;
    match build(alloc, text, &tokens, &syntax) {
        Ok(_) => Err("it has a diagram".into()),
        Err(BuildFault::NoMemory) => Err("no memory".into()),
        Err(BuildFault::Fault { at, kind }) => Ok(format!(in alloc; "{kind:?} at {at}")?),
    }
}

// Whether the text has that fault.
fn has_fault(alloc: Global, text: &str, fault: &str) -> Result<bool, Fail> {
    let found = fault_of(alloc, text)?;
    Ok(found.as_str() == fault)
}

// Whether the node has these parents and cells.
fn has_node(diagram: &Diagram, v: usize, parents: &[usize], cells: &[i128]) -> bool {
    if v >= diagram.count() {
        return false;
    }
    let node = diagram.node(v);
    node.parents.as_slice() == parents && node.cells.as_slice() == cells
}

// Whether they are the diagram of `STEER` and its names.
fn is_steer(diagram: &Diagram, names: &Names) -> bool
    requires { NamesFit diagram.now names.now }
{
    diagram.count() == 3
        && diagram.node(1).kind == Kind::Decision
        && has_node(diagram, 2, &[0, 1], &[3, 0, 0, 1])
        && names.name(0) == b"X".as_slice()
        && names.find_agent(b"agent") == Some(0)
}

// Whether they are the diagram of `COIN` and its names.
fn is_coin(diagram: &Diagram, names: &Names) -> bool {
    diagram.count() == 2
        && diagram.decimals() == 2
        && has_node(diagram, 1, &[0], &[50, -125])
        && names.find_agent(b"A") == Some(0)
}

// Whether it is the diagram of `THIRDS`.
fn is_thirds(diagram: &Diagram) -> bool {
    let cells = [300_000, 700_000, 333_333, 666_667, 1_000_000, 0];
    diagram.count() == 2
        && has_node(diagram, 0, &[], &[1, 1, 1])
        && has_node(diagram, 1, &[0], &cells)
}

#[test]
fn a_decision_has_its_place(rt: HostRuntime) -> Result<(), Fail> {
    let (diagram, names) = built(rt.alloc(), STEER)?;
    assert!(rt; is_steer(&diagram, &names));
    Ok(())
}

#[test]
fn values_have_their_decimals(rt: HostRuntime) -> Result<(), Fail> {
    let (diagram, names) = built(rt.alloc(), COIN)?;
    assert!(rt; is_coin(&diagram, &names));
    Ok(())
}

#[test]
fn rows_are_in_proportion(rt: HostRuntime) -> Result<(), Fail> {
    let (diagram, _) = built(rt.alloc(), THIRDS)?;
    assert!(rt; is_thirds(&diagram));
    Ok(())
}

// Each row has a text, and its fault.
const FAULTS: &[(&str, &str)] = &[
    (
        "node A { states = (\"x\" \"y\"); } potential (A) { data = (0 0); }",
        "ZeroRow at 55",
    ),
    (
        "node A { states = (\"x\" \"y\"); } potential (A) { data = (1 1 1); }",
        "WrongCount { want: 2, got: 3 } at 47",
    ),
    (
        "utility U { } potential (U) { data = (1e38); }",
        "NumberTooLong at 38",
    ),
    (
        "utility U { } utility V { } utility W { } potential (V) { data = (8e37); } potential (U) { data = (7e37); } potential (W) { data = (0.5); }",
        "WideValue at 66",
    ),
    (
        "node A { states = (\"x\"); } node B { states = (\"x\"); } potential (A | B) { data = (1); } potential (B | A) { data = (1); }",
        "GraphCycle { list: [0, 1] } at 5",
    ),
    (
        "node A { states = (\"a\"); } node A { states = (\"a\"); }",
        "DoubleName at 32",
    ),
    (
        "decision D { states = (\"a\"); states = 5; }",
        "DoubleAttribute at 29",
    ),
];

#[test]
fn texts_have_their_fault(rt: HostRuntime) -> Result<(), Fail> {
    for &(text, fault) in FAULTS {
        assert!(rt; has_fault(rt.alloc(), text, fault)?, "{text}");
    }
    Ok(())
}
