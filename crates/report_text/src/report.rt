//! The report of an answered diagram.

ghost use Rattle.std.specs.Prelude.{◌≡◌, ◌≢◌, ◌<◌, ◌+◌, ◌∷◌, All, IfOk, codes, length};
ghost use Rattle.maid_model.specs.Answers.{FitsAnswer, FitsDiagram};
ghost use Rattle.maid_model.specs.Names.{NamesFit, label_of};
ghost use Rattle.maid_model.specs.Nodes.{IsDecision, node_at, parents_of, states_of, rows_under, rows_of};
ghost use Rattle.maid_model.specs.Reports.{gain_line, gain_lines, names_line, quoted, report, worth_text};
ghost use Rattle.maid_model.specs.declared.diagrams.Kind.TheVariants.{Utility};
ghost use Rattle.report_text.specs.Slots.{gain_front, state_text};
ghost use Rattle.report_text.specs.Runs.{HasLabels};
ghost use Rattle.report_text.specs.Pushing.{PushesAnswer, PushesAnswers, PushesHead, PushesLabels, PushesRow, PushesRowFront, PushesWords};
ghost use Rattle.line_pieces.specs.Pushed.{PushAppends};

use crate::row_runs::push_rows;
use line_pieces::Piece::{Fraction, Number, Quoted, Text};
use line_pieces::{push_names, push_number, push_pieces, push_quoted};
use maid_model::{Answer, Diagram, Names, Ratio, Row, Solved};
use std::alloc::{AllocError, Global};

/// The parents of the node, none of which is a utility.
pub(crate) fn parents_of(diagram: &Diagram, node: usize) -> &[usize]
    requires { node < length diagram.now.nodes }
    ensures parents { result.now ≡ parents_of diagram.now.nodes node }
    ensures known { All (HasLabels diagram.now.nodes) result.now }
{
    diagram.node(node).parents.as_slice()
}

/// How many states the node has, at least one.
pub(crate) fn states_of(diagram: &Diagram, node: usize) -> usize
    requires { node < length diagram.now.nodes }
    ensures states { result ≡ states_of diagram.now.nodes node }
    ensures some { 0 < result }
{
    diagram.node(node).states
}

/// Appends the quoted label of a node's state after one space.
pub(crate) fn push_label(
    out: &mut Vec<u8>,
    diagram: &Diagram,
    names: &Names,
    node: usize,
    state: usize,
) -> Result<(), AllocError>
    requires fit { NamesFit diagram.now names.now }
    requires node { node < length diagram.now.nodes }
    requires kind { (node_at diagram.now.nodes node).kind ≢ Utility }
    requires state { state < states_of diagram.now.nodes node }
    ensures { PushAppends out.old out.new result (32 ∷ quoted (label_of names.now node state)) }
{
    out.push(b' ')?;
    push_quoted(out, names.label(node, state))
}

// Appends the labels of the parents' states in the row, the first parent slowest. `rows` counts the
// rows.
fn push_states(
    out: &mut Vec<u8>,
    diagram: &Diagram,
    names: &Names,
    parents: &[usize],
    rows: usize,
    row: usize,
) -> Result<(), AllocError>
    requires fit { NamesFit diagram.now names.now }
    requires parents { All (HasLabels diagram.now.nodes) parents.now }
    requires rows { rows ≡ rows_under (states_of diagram.now.nodes) parents.now }
    requires row { row < rows }
    ensures { PushesLabels diagram.now names.now parents.now row out.old out.new result }
{
    let mut below = rows;
    let mut rest = row;
    for parent in parents {
        below /= states_of(diagram, *parent);
        push_label(out, diagram, names, *parent, rest / below)?;
        rest %= below;
    }
    Ok(())
}

/// Appends what a row is worth.
pub(crate) fn push_worth(out: &mut Vec<u8>, worth: &Option<Ratio>) -> Result<(), AllocError>
    ensures { PushAppends out.old out.new result (worth_text worth.now) }
{
    match worth {
        Some(worth) => push_pieces(out, &[Text(b" = "), Fraction(worth)]),
        None => out.extend_from_slice(b" never"),
    }
}

/// Appends the chosen state, by its number from 1 and its label.
pub fn push_state(
    out: &mut Vec<u8>,
    diagram: &Diagram,
    names: &Names,
    decision: usize,
    choice: usize,
) -> Result<(), AllocError>
    requires fit { NamesFit diagram.now names.now }
    requires decision { IsDecision diagram.now.nodes decision }
    requires choice { choice < states_of diagram.now.nodes decision }
    ensures { PushAppends out.old out.new result (state_text names.now decision choice) }
{
    push_number(out, choice as u128 + 1)?;
    push_label(out, diagram, names, decision, choice)
}

/// Appends the line of one row up to its choice. Rows are numbered from 0 here and from 1 in the
/// text.
#[tactic(auto, using(std::proofs::Common::append_assoc))]
pub fn push_row_front(
    out: &mut Vec<u8>,
    diagram: &Diagram,
    names: &Names,
    decision: usize,
    rows: usize,
    number: usize,
) -> Result<(), AllocError>
    requires fit { NamesFit diagram.now names.now }
    requires decision { IsDecision diagram.now.nodes decision }
    requires rows { rows ≡ rows_of diagram.now.nodes decision }
    requires number { number < rows }
    ensures { PushesRowFront diagram.now names.now decision number out.old out.new result }
{
    push_pieces(
        out,
        &[Text(b"row "), Number(number as u128 + 1), Text(b":")],
    )?;
    push_states(
        out,
        diagram,
        names,
        parents_of(diagram, decision),
        rows,
        number,
    )?;
    out.extend_from_slice(b" -> ")
}

/// Appends the line of one row. Rows are numbered from 0 here and from 1 in the text.
pub fn push_row(
    out: &mut Vec<u8>,
    diagram: &Diagram,
    names: &Names,
    decision: usize,
    rows: usize,
    number: usize,
    row: &Row,
) -> Result<(), AllocError>
    requires fit { NamesFit diagram.now names.now }
    requires decision { IsDecision diagram.now.nodes decision }
    requires rows { rows ≡ rows_of diagram.now.nodes decision }
    requires number { number < rows }
    requires choice { row.now.choice < states_of diagram.now.nodes decision }
    ensures { PushesRow diagram.now names.now decision number row.now out.old out.new result }
{
    push_row_front(out, diagram, names, decision, rows, number)?;
    push_state(out, diagram, names, decision, row.choice)?;
    push_worth(out, &row.worth)?;
    out.extend_from_slice(b"\n")
}

// Appends the line of a decision, and a line for each row.
fn push_decision(
    out: &mut Vec<u8>,
    labels: &mut Vec<u8>,
    diagram: &Diagram,
    names: &Names,
    answer: &Answer,
) -> Result<(), AllocError>
    requires fit { NamesFit diagram.now names.now }
    requires answer { FitsAnswer diagram.now.nodes answer.now }
    ensures { PushesAnswer diagram.now names.now answer.now out.old out.new result }
{
    push_head(out, diagram, names, answer.decision)?;
    push_rows(out, labels, diagram, names, answer)
}

// Appends the lines of each answered decision.
fn push_decisions(
    alloc: Global,
    out: &mut Vec<u8>,
    diagram: &Diagram,
    names: &Names,
    answers: &[Answer],
) -> Result<(), AllocError>
    requires fit { NamesFit diagram.now names.now }
    requires answers { All (FitsAnswer diagram.now.nodes) answers.now }
    ensures { PushesAnswers diagram.now names.now answers.now out.old out.new result }
{
    let mut labels = Vec::new(alloc);
    for answer in answers {
        push_decision(out, &mut labels, diagram, names, answer)?;
    }
    Ok(())
}

/// Appends the line that names a decision, whose it is and what it sees, without its end.
#[tactic(auto, using(std::proofs::Common::append_assoc))]
pub(crate) fn push_decision_words(
    out: &mut Vec<u8>,
    diagram: &Diagram,
    names: &Names,
    decision: usize,
) -> Result<(), AllocError>
    requires fit { NamesFit diagram.now names.now }
    requires decision { IsDecision diagram.now.nodes decision }
    ensures { PushesWords diagram.now names.now decision out.old out.new result }
{
    push_pieces(
        out,
        &[
            Text(b"decision "),
            Text(names.name(decision)),
            Text(b" by "),
            Quoted(names.agent(diagram.agent_of(decision))),
            Text(b" sees"),
        ],
    )?;
    push_names(out, names, parents_of(diagram, decision))
}

/// Appends the line that names a decision, whose it is and what it sees.
#[tactic(auto, using(std::proofs::Common::append_assoc))]
pub fn push_head(
    out: &mut Vec<u8>,
    diagram: &Diagram,
    names: &Names,
    decision: usize,
) -> Result<(), AllocError>
    requires fit { NamesFit diagram.now names.now }
    requires decision { IsDecision diagram.now.nodes decision }
    ensures { PushesHead diagram.now names.now decision out.old out.new result }
{
    push_decision_words(out, diagram, names, decision)?;
    out.extend_from_slice(b"\n")
}

/// Appends the line of what the plan is worth to an agent, up to the number.
#[tactic(auto, using(std::proofs::Common::append_assoc))]
pub(crate) fn push_gain_front(
    out: &mut Vec<u8>,
    names: &Names,
    agent: usize,
) -> Result<(), AllocError>
    requires { agent < length names.now.agents }
    ensures { PushAppends out.old out.new result (gain_front names.now agent) }
{
    push_pieces(
        out,
        &[Text(b"agent "), Quoted(names.agent(agent)), Text(b" = ")],
    )
}

// Appends that line.
#[tactic(auto, using(std::proofs::Common::append_assoc))]
fn push_gain(out: &mut Vec<u8>, names: &Names, agent: usize, gain: &Ratio) -> Result<(), AllocError>
    requires { agent < length names.now.agents }
    ensures { PushAppends out.old out.new result (gain_line names.now agent gain.now) }
{
    push_gain_front(out, names, agent)?;
    push_pieces(out, &[Fraction(gain), Text(b"\n")])
}

/// Appends a line for each agent: what the plan is worth to it.
pub fn push_gains(out: &mut Vec<u8>, names: &Names, gains: &[Ratio]) -> Result<(), AllocError>
    requires { length gains.now ≡ length names.now.agents }
    ensures { PushAppends out.old out.new result (gain_lines names.now 0 gains.now) }
{
    for (agent, gain) in gains.iter().enumerate() {
        push_gain(out, names, agent, gain)?;
    }
    Ok(())
}

// Appends the line of the order of solving.
#[tactic(auto, using(std::proofs::Common::append_assoc))]
fn push_order(out: &mut Vec<u8>, names: &Names, order: &[usize]) -> Result<(), AllocError>
    requires { All (λ v. v < length names.now.nodes) order.now }
    ensures { PushAppends out.old out.new result (names_line (codes "order:") names.now order.now) }
{
    out.extend_from_slice(b"order:")?;
    push_names(out, names, order)?;
    out.extend_from_slice(b"\n")
}

/// The report of the answered diagram: the order of solving, for each decision in that order a line
/// for each choice of its parents' states, and what the plan is worth to each agent. Its cost is
/// that of the text it makes.
#[tactic(auto, using(std::proofs::Common::append_assoc))]
pub fn print_report(
    alloc: Global,
    diagram: &Diagram,
    names: &Names,
    solved: &Solved,
) -> Result<Vec<u8>, AllocError>
    requires names { NamesFit diagram.now names.now }
    requires solved { FitsDiagram diagram.now solved.now }
    ensures { IfOk result (λ text. text.items ≡ report diagram.now names.now solved.now) }
{
    let mut out = Vec::from_slice(alloc, b"maidsolve report 1\n")?;
    push_order(&mut out, names, &solved.order)?;
    push_decisions(alloc, &mut out, diagram, names, &solved.answers)?;
    push_gains(&mut out, names, &solved.gains)?;
    Ok(out)
}
