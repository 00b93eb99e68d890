//! The lines of a decision's rows, in one walk over the choices of its parents' states: the labels
//! of the parents whose states stay from row to row are written once.

ghost use Rattle.std.specs.Prelude.{◌≡◌, ◌<◌, All, IfOk, OnOk, drop, length};
ghost use Rattle.maid_model.specs.Answers.{FitsAnswer};
ghost use Rattle.maid_model.specs.Names.{NamesFit};
ghost use Rattle.maid_model.specs.Nodes.{IsDecision, states_of};
ghost use Rattle.report_text.specs.Runs.{HasLabels, HasRowsUnder, PushesRun, row_behind};
ghost use Rattle.report_text.specs.Pushing.{PushesLabelled, PushesRows};

use crate::report::{parents_of, push_label, push_state, push_worth, states_of};
use line_pieces::Piece::{Number, Text};
use line_pieces::push_pieces;
use maid_model::{Answer, Diagram, Names, Row};
use std::alloc::AllocError;

/// An answered decision of a diagram, and the names that its lines are written with.
#[derive(Drop)]
struct Sheet<'a> {
    diagram: &'a Diagram,
    names: &'a Names,
    answer: &'a Answer,
}

/// Appends the line of one row whose parents' states have these labels. Rows are numbered from 0
/// here and from 1 in the text.
fn push_labelled(
    out: &mut Vec<u8>,
    labels: &[u8],
    diagram: &Diagram,
    names: &Names,
    decision: usize,
    number: usize,
    row: &Row,
) -> Result<(), AllocError>
    requires fit { NamesFit diagram.now names.now }
    requires decision { IsDecision diagram.now.nodes decision }
    requires choice { row.now.choice < states_of diagram.now.nodes decision }
    ensures { PushesLabelled names.now decision labels.now number row.now out.old out.new result }
{
    push_pieces(
        out,
        &[
            Text(b"row "),
            Number(number as u128 + 1),
            Text(b":"),
            Text(labels),
            Text(b" -> "),
        ],
    )?;
    push_state(out, diagram, names, decision, row.choice)?;
    push_worth(out, &row.worth)?;
    out.extend_from_slice(b"\n")
}

/// The list without its first element.
fn behind_first(list: &[usize]) -> &[usize]
    requires { 0 < length list.now }
    ensures { result.now ≡ drop 1 list.now }
{
    list.split_at(1).1
}

/// Appends the lines of the rows under one choice of the first parents' states, which have these
/// labels: a line for each choice of the other parents' states, the first of these slowest. `first`
/// is the number of the first row. Gives the number behind the last one. The labels are left as
/// they were.
fn push_run(
    out: &mut Vec<u8>,
    labels: &mut Vec<u8>,
    sheet: &Sheet,
    others: &[usize],
    first: usize,
) -> Result<usize, AllocError>
    requires fit { NamesFit sheet.now.diagram.now sheet.now.names.now }
    requires answer { FitsAnswer sheet.now.diagram.now.nodes sheet.now.answer.now }
    requires others { All (HasLabels sheet.now.diagram.now.nodes) others.now }
    requires rows { HasRowsUnder sheet.now others.now first }
    ensures lines { PushesRun sheet.now labels.old others.now first out.old out.new result }
    ensures next { IfOk result (λ next. next ≡ row_behind sheet.now.diagram.now others.now first) }
    ensures labels { OnOk result (labels.new.items ≡ labels.old.items) }
{
    let diagram = sheet.diagram;
    let names = sheet.names;
    let answer = sheet.answer;
    if others.is_empty() {
        let row = &answer.rows[first];
        push_labelled(out, labels, diagram, names, answer.decision, first, row)?;
        return Ok(first + 1);
    }
    let parent = others[0];
    let rest = behind_first(others);
    let chosen = labels.len();
    let mut next = first;
    for state in 0..states_of(diagram, parent) {
        push_label(labels, diagram, names, parent, state)?;
        next = push_run(out, labels, sheet, rest, next)?;
        labels.truncate(chosen);
    }
    Ok(next)
}

/// Appends a line for each row of an answered decision. `labels` is room for the labels of the row
/// at hand: what it held is lost.
pub(crate) fn push_rows(
    out: &mut Vec<u8>,
    labels: &mut Vec<u8>,
    diagram: &Diagram,
    names: &Names,
    answer: &Answer,
) -> Result<(), AllocError>
    requires fit { NamesFit diagram.now names.now }
    requires answer { FitsAnswer diagram.now.nodes answer.now }
    ensures { PushesRows diagram.now names.now answer.now out.old out.new result }
{
    labels.clear();
    let parents = parents_of(diagram, answer.decision);
    let sheet = Sheet {
        diagram,
        names,
        answer,
    };
    push_run(out, labels, &sheet, parents, 0)?;
    Ok(())
}
