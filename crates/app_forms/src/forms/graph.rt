//! `graph F`: who relies on whom.

ghost use Rattle.std.specs.Prelude.{◌<◌, All, IfOk, IfErr, length};
ghost use Rattle.maid_model.specs.Names.{NamesFit};
ghost use Rattle.relevance_graph.specs.Relevant.{IsRelevance};
ghost use Rattle.app_forms.specs.Graph.{graphing, IsGraphText, IsLastLine, relies_line};
ghost use Rattle.app_forms.specs.Reading.{Prints, TellsFor};
ghost use Rattle.line_pieces.specs.Pushed.{PushAppends};
ghost use Rattle.app_forms.specs.GraphLines.{PushesReliesLine, PushesReliesLines};

use crate::refusal::Refusal;
use app_lines::list_line;
use line_pieces::Piece::Text;
use line_pieces::{push_names, push_pieces};
use maid_model::{Diagram, Kind, Names};
use relevance_graph::{Relevance, find_relevance};
use std::alloc::{AllocError, Global};

// Appends a decision's line.
fn push_decision(
    out: &mut Vec<u8>,
    names: &Names,
    decision: usize,
    relied_on: &[usize],
) -> Result<(), AllocError>
    requires decision { decision < length names.now.nodes }
    requires relied_on { All (λ v. v < length names.now.nodes) relied_on.now }
    ensures { PushAppends out.old out.new result (relies_line names.now decision relied_on.now) }
{
    push_pieces(
        out,
        &[Text(b"relies "), Text(names.name(decision)), Text(b":")],
    )?;
    push_names(out, names, relied_on)?;
    out.extend_from_slice(b"\n")
}

// Appends the node's line where it is a decision.
fn push_node(
    out: &mut Vec<u8>,
    diagram: &Diagram,
    names: &Names,
    relevance: &Relevance,
    v: usize,
) -> Result<(), AllocError>
    requires within { v < length diagram.now.nodes }
    requires names { NamesFit diagram.now names.now }
    requires relevance { IsRelevance diagram.now.nodes relevance.now }
    ensures { PushesReliesLine diagram.now names.now relevance.now v out.old out.new result }
{
    match diagram.kind(v) {
        Kind::Decision => push_decision(out, names, v, relevance.relied_on(v)),
        _ => Ok(()),
    }
}

// Appends a line for each decision, in text order.
fn push_decisions(
    out: &mut Vec<u8>,
    diagram: &Diagram,
    names: &Names,
    relevance: &Relevance,
) -> Result<(), AllocError>
    requires names { NamesFit diagram.now names.now }
    requires relevance { IsRelevance diagram.now.nodes relevance.now }
    ensures { PushesReliesLines diagram.now names.now relevance.now out.old out.new result }
{
    for v in 0..diagram.count() {
        push_node(out, diagram, names, relevance, v)?;
    }
    Ok(())
}

// The line of the order of solving, or of the relevance cycle.
fn last_line(
    alloc: Global,
    diagram: &Diagram,
    names: &Names,
    relevance: &Relevance,
) -> Result<Vec<u8>, AllocError>
    requires names { NamesFit diagram.now names.now }
    requires relevance { IsRelevance diagram.now.nodes relevance.now }
    ensures { IfOk result (λ line. IsLastLine diagram.now.nodes names.now line.items) }
{
    match relevance.order() {
        Ok(order) => list_line(alloc, names, b"order:", order),
        Err(cycle) => list_line(alloc, names, b"cycle:", cycle),
    }
}

// The text of the diagram's relevance graph.
fn graph_text(
    alloc: Global,
    diagram: &Diagram,
    names: &Names,
    relevance: &Relevance,
) -> Result<Vec<u8>, AllocError>
    requires names { NamesFit diagram.now names.now }
    requires relevance { IsRelevance diagram.now.nodes relevance.now }
    ensures { IfOk result (λ printed. IsGraphText diagram.now names.now printed.items) }
{
    let mut out = Vec::new(alloc);
    push_decisions(&mut out, diagram, names, relevance)?;
    out.extend_from_slice(&last_line(alloc, diagram, names, relevance)?)?;
    Ok(out)
}

/// Who relies on whom in the diagram, and the order of solving or the relevance cycle.
///
/// # Errors
///
/// Want of memory.
pub fn answer(alloc: Global, diagram: &Diagram, names: &Names) -> Result<Vec<u8>, Refusal>
    requires { NamesFit diagram.now names.now }
    ensures ok { IfOk result (Prints graphing diagram.now names.now) }
    ensures err { IfErr result (TellsFor graphing diagram.now names.now) }
{
    let relevance = find_relevance(alloc, diagram)?;
    Ok(graph_text(alloc, diagram, names, &relevance)?)
}
