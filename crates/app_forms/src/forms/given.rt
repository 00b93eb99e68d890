//! `given F X S`: the answer of a diagram under evidence.

ghost use Rattle.std.specs.Prelude.{◌≡◌, ◌<◌, All, IfOk, IfErr, length};
ghost use Rattle.maid_model.specs.Answers.{FitsAnswer, FitsDiagram};
ghost use Rattle.maid_model.specs.Names.{NamesFit, labels_of};
ghost use Rattle.maid_model.specs.Nodes.{IsDecision, rows_of, rows_under, states_of};
ghost use Rattle.app_forms.specs.Chances.{IsStatePlace};
ghost use Rattle.app_forms.specs.Given.{conditioning, evidence_stages, given_front, conditioned_text, IsGivenFault, PushesAnswerGiven, PushesAnswersGiven, PushesRowGiven, shows_place};
ghost use Rattle.app_forms.specs.Reading.{Prints, TellsFor, TellsFound};

use super::chances::{StatePlace, find_state};
use crate::refusal::{Refusal, told};
use crate::{Status, lines};
use app_lines::{gain_lines, list_line};
use evidence::{Conditioned, GivenFault, given};
use line_pieces::Piece::{Quoted, Text};
use line_pieces::joined;
use maid_model::{Answer, Diagram, Names, Row};
use report_text::{push_head, push_row};
use std::alloc::{AllocError, Global};

// The refusal of a diagram that is not answered under the evidence.
fn refusal(
    alloc: Global,
    diagram: &Diagram,
    names: &Names,
    node: &str,
    state: &str,
    place: StatePlace,
    fault: &GivenFault,
) -> Refusal
    requires fit { NamesFit diagram.now names.now }
    requires place { IsStatePlace diagram.now names.now node.now state.now place }
    requires fault { IsGivenFault diagram.now place fault.now }
    ensures { TellsFound diagram.now names.now (evidence_stages node.now state.now) result }
{
    match fault {
        GivenFault::BelowDecision => told(
            Status::BelowDecision,
            lines::told(alloc, b"below a decision: ", node.as_bytes()),
        ),
        GivenFault::RulesTooLarge => told(
            Status::TooLarge,
            lines::told(alloc, b"too large: rules", b""),
        ),
        GivenFault::Cycle { list } => told(
            Status::Cycle,
            list_line(alloc, names, b"relevance cycle:", list),
        ),
        GivenFault::WeightBound { node } => told(
            Status::WeightBound,
            lines::weight_bound(alloc, names, *node),
        ),
        GivenFault::TooLarge { cells, work } => told(
            Status::TooLarge,
            lines::too_large(alloc, *cells, *work),
        ),
        GivenFault::Impossible => told(
            Status::Impossible,
            lines::impossible(alloc, node.as_bytes(), state.as_bytes()),
        ),
        GivenFault::NoMemory => Refusal::NoMemory,
    }
}

// How many states the node has, at least one.
fn states_of(diagram: &Diagram, node: usize) -> usize
    requires { node < length diagram.now.nodes }
    ensures states { result ≡ states_of diagram.now.nodes node }
    ensures some { 0 < result }
{
    diagram.node(node).states
}

// Whether under these parents the node is one, and in its state, in the row of that number. `rows`
// counts the rows.
fn shows(
    diagram: &Diagram,
    parents: &[usize],
    rows: usize,
    number: usize,
    place: StatePlace,
) -> bool
    requires parents { All (λ u. u < length diagram.now.nodes) parents.now }
    requires rows { rows ≡ rows_under (states_of diagram.now.nodes) parents.now }
    requires number { number < rows }
    ensures { result ≡ shows_place diagram.now.nodes parents.now number place }
{
    let mut below = rows;
    let mut rest = number;
    for parent in parents {
        below /= states_of(diagram, *parent);
        if *parent == place.node {
            return rest / below == place.state;
        }
        rest %= below;
    }
    false
}

// Appends the line of a row of the decision `v` where it sees the evidence in it.
fn push_row_given(
    out: &mut Vec<u8>,
    diagram: &Diagram,
    names: &Names,
    place: StatePlace,
    v: usize,
    number: usize,
    row: &Row,
) -> Result<(), AllocError>
    requires fit { NamesFit diagram.now names.now }
    requires decision { IsDecision diagram.now.nodes v }
    requires number { number < rows_of diagram.now.nodes v }
    requires choice { row.now.choice < states_of diagram.now.nodes v }
    ensures { PushesRowGiven diagram.now names.now place v number row.now out.old out.new result }
{
    let parents = diagram.parents(v);
    let rows = diagram.rows(v);
    if !shows(diagram, parents, rows, number, place) {
        return Ok(());
    }
    push_row(out, diagram, names, v, rows, number, row)
}

// Appends the line of a decision, and those of its rows in which it sees the evidence.
fn push_decision(
    out: &mut Vec<u8>,
    diagram: &Diagram,
    names: &Names,
    place: StatePlace,
    answer: &Answer,
) -> Result<(), AllocError>
    requires fit { NamesFit diagram.now names.now }
    requires answer { FitsAnswer diagram.now.nodes answer.now }
    ensures { PushesAnswerGiven diagram.now names.now place answer.now out.old out.new result }
{
    push_head(out, diagram, names, answer.decision)?;
    for (number, row) in answer.rows.iter().enumerate() {
        push_row_given(out, diagram, names, place, answer.decision, number, row)?;
    }
    Ok(())
}

// Appends these lines of each answered decision.
fn push_decisions(
    out: &mut Vec<u8>,
    diagram: &Diagram,
    names: &Names,
    place: StatePlace,
    answers: &[Answer],
) -> Result<(), AllocError>
    requires fit { NamesFit diagram.now names.now }
    requires answers { All (FitsAnswer diagram.now.nodes) answers.now }
    ensures { PushesAnswersGiven diagram.now names.now place answers.now out.old out.new result }
{
    for answer in answers {
        push_decision(out, diagram, names, place, answer)?;
    }
    Ok(())
}

// The evidence and the order of solving.
fn given_front(
    alloc: Global,
    names: &Names,
    place: StatePlace,
    order: &[usize],
) -> Result<Vec<u8>, AllocError>
    requires node { place.node < length names.now.nodes }
    requires labels { place.node < length names.now.labels }
    requires state { place.state < length (labels_of names.now place.node) }
    requires order { All (λ v. v < length names.now.nodes) order.now }
    ensures { IfOk result (λ text.
        text.items ≡ given_front names.now place order.now) }
{
    let order = list_line(alloc, names, b"order:", order)?;
    joined(
        alloc,
        &[
            Text(b"maidsolve given 1\ngiven "),
            Text(names.name(place.node)),
            Text(b" = "),
            Quoted(names.label(place.node, place.state)),
            Text(b"\n"),
            Text(&order),
        ],
    )
}

// These, the decisions with what they see of the evidence, and the agents' lines.
fn given_text(
    alloc: Global,
    names: &Names,
    place: StatePlace,
    conditioned: &Conditioned,
) -> Result<Vec<u8>, AllocError>
    requires fit { NamesFit conditioned.now.diagram names.now }
    requires node { place.node < length names.now.nodes }
    requires labels { place.node < length names.now.labels }
    requires state { place.state < length (labels_of names.now place.node) }
    requires answers { FitsDiagram conditioned.now.diagram conditioned.now.solved }
    requires gains { length conditioned.now.gains.items ≡ conditioned.now.diagram.agents }
    ensures { IfOk result (λ text. text.items ≡ conditioned_text names.now place conditioned.now) }
{
    let solved = &conditioned.solved;
    let mut text = given_front(alloc, names, place, &solved.order)?;
    push_decisions(
        &mut text,
        &conditioned.diagram,
        names,
        place,
        &solved.answers,
    )?;
    text.extend_from_slice(&gain_lines(alloc, names, &conditioned.gains)?)?;
    Ok(text)
}

/// The answer of the diagram where the chance node of that name is known to have the state with
/// that label and every decision sees it: each decision's rows with that state, and what the plan
/// is worth to each agent where the node has it.
///
/// # Errors
///
/// An unknown node or state, a node below a decision, too large rules, the relevance cycle, the
/// place at which the weight bound is passed, the cells and the work of a run that passes a limit,
/// impossible evidence, or want of memory.
pub fn answer(
    alloc: Global,
    diagram: &Diagram,
    names: &Names,
    node: &str,
    state: &str,
) -> Result<Vec<u8>, Refusal>
    requires { NamesFit diagram.now names.now }
    ensures ok { IfOk result (Prints (conditioning node.now state.now) diagram.now names.now) }
    ensures err { IfErr result (TellsFor (conditioning node.now state.now) diagram.now names.now) }
{
    let place = find_state(alloc, diagram, names, node, state)?;
    match given(alloc, diagram, place.node, place.state) {
        Ok(conditioned) => Ok(given_text(alloc, names, place, &conditioned)?),
        Err(fault) => Err(refusal(alloc, diagram, names, node, state, place, &fault)),
    }
}
