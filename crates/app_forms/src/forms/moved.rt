//! `threshold F X ROW STATE`: how far one probability may move.

ghost use Rattle.std.specs.Prelude.{◌≡◌, ◌-◌, ◌<◌, ◌↔◌, IfOk, IfErr, IsTrue, None, OnOk, length};
ghost use Rattle.maid_model.specs.declared.diagrams.Kind.TheVariants.{Chance};
ghost use Rattle.maid_model.specs.Answers.{IsAnswer};
ghost use Rattle.maid_model.specs.Names.{NamesFit, labels_of};
ghost use Rattle.maid_model.specs.Nodes.{node_at, rows_of};
ghost use Rattle.relevance_graph.specs.Relevant.{IsRelevance};
ghost use Rattle.threshold.specs.Faults.{OthersWeighNought};
ghost use Rattle.threshold.specs.Intervals.{TellsNow, TellsSpan};
ghost use Rattle.app_forms.specs.Reading.{Prints, TellsFor};
ghost use Rattle.app_forms.specs.Solve.{IsSolvable};
ghost use Rattle.app_forms.specs.Threshold.{IsCellPlace, moved_pass, moving, row_pass, IsOnlySpanAt, IsThresholdText, StaysPerfectAt};
ghost use Rattle.app_forms.specs.Refusal.{RefusesBy};

use super::chances::{StatePlace, find_state};
use super::solve::solve_by_graph;
use crate::refusal::{Refusal, told};
use crate::{Status, lines};
use line_pieces::Piece::{Fraction, Number, Quoted, Text};
use line_pieces::joined;
use maid_model::{Diagram, Names, Solved};
use relevance_graph::{Relevance, find_relevance};
use std::alloc::{AllocError, Global};
use threshold::{Interval, SpanFault, span};

// Whether all other states of the row weigh nought. The row counts from 0.
fn others_weigh_nought(diagram: &Diagram, place: StatePlace, row: usize) -> bool
    requires kind { (node_at diagram.now.nodes place.node).kind ≡ Chance }
    requires row { row < rows_of diagram.now.nodes place.node }
    ensures { IsTrue result ↔ OthersWeighNought diagram.now.nodes place.node place.state row }
{
    let states = diagram.states(place.node);
    let cells = diagram.cells(place.node);
    for state in 0..states {
        if state != place.state && cells[row * states + state] != 0 {
            return false;
        }
    }
    true
}

// Refuses a row that the table has not, and one that gives no other state any weight. The row
// counts from 1.
fn keep_row(
    alloc: Global,
    diagram: &Diagram,
    place: StatePlace,
    row: usize,
    node: &str,
) -> Result<(), Refusal>
    requires { (node_at diagram.now.nodes place.node).kind ≡ Chance }
    ensures ok { OnOk result (row_pass diagram.now place row node.now None) }
    ensures err { IfErr result (RefusesBy (row_pass diagram.now place row node.now)) }
{
    if row == 0 || row > diagram.rows(place.node) {
        return Err(told(Status::UnknownRow, lines::unknown_row(alloc, row)));
    }
    if others_weigh_nought(diagram, place, row - 1) {
        return Err(told(
            Status::NoOthers,
            lines::told(alloc, b"no other state: ", node.as_bytes()),
        ));
    }
    Ok(())
}

// How far the probability of the state in the row may move, if the changed diagrams keep the weight
// bound. The row counts from 1.
fn find_interval(
    alloc: Global,
    diagram: &Diagram,
    names: &Names,
    relevance: &Relevance,
    solved: &Solved,
    place: StatePlace,
    row: usize,
) -> Result<Interval, Refusal>
    requires fit { NamesFit diagram.now names.now }
    requires relevance { IsRelevance diagram.now.nodes relevance.now }
    requires solvable { IsSolvable diagram.now }
    requires answer { IsAnswer diagram.now solved.now }
    requires place { IsCellPlace diagram.now place row }
    ensures bound { OnOk result (moved_pass diagram.now names.now place row None) }
    ensures err { IfErr result (RefusesBy (moved_pass diagram.now names.now place row)) }
    ensures now { IfOk result (TellsNow diagram.now.nodes place.node place.state (row - 1)) }
    ensures span { IfOk result
        (TellsSpan diagram.now solved.now place.node place.state (row - 1)) }
    ensures only { IfOk result (IsOnlySpanAt diagram.now solved.now place row) }
    ensures perfect { IfOk result (StaysPerfectAt diagram.now solved.now place row) }
{
    match span(
        alloc,
        diagram,
        relevance,
        solved,
        place.node,
        place.state,
        row - 1,
    ) {
        Ok(interval) => Ok(interval),
        Err(SpanFault::NoOthers) => unreachable!(),
        Err(SpanFault::WeightBound { node }) => Err(told(
            Status::WeightBound,
            lines::weight_bound(alloc, names, node),
        )),
        Err(SpanFault::NoMemory) => Err(Refusal::NoMemory),
    }
}

// The node, the row, the state and its probability, and the ends of the interval. An interval has a
// field `now`, so the clause says whose value it means.
fn threshold_text<'a>(
    alloc: Global,
    names: &'a Names,
    place: StatePlace,
    row: usize,
    interval: &'a Interval,
) -> Result<Vec<u8>, AllocError>
    requires node { place.node < length names.now.nodes }
    requires labels { place.node < length names.now.labels }
    requires state { place.state < length (labels_of names.now place.node) }
    ensures { IfOk result (IsThresholdText names.now place row interval.entry.now) }
{
    joined(
        alloc,
        &[
            Text(b"maidsolve threshold 1\n"),
            Text(names.name(place.node)),
            Text(b" row "),
            Number(row as u128),
            Text(b": "),
            Quoted(names.label(place.node, place.state)),
            Text(b" = "),
            Fraction(&interval.now),
            Text(b" from "),
            Fraction(&interval.low),
            Text(b" to "),
            Fraction(&interval.high),
            Text(b"\n"),
        ],
    )
}

/// How far the probability of the state with that label may move in that row of the chance node of
/// that name, counted from 1, while the answered rules of the diagram stay best. It solves the
/// diagram by a relevance graph that [`span`] takes too, and then takes the time of `span`.
///
/// # Errors
///
/// An unknown node, state or row, a row that gives no other state any weight, what the solver
/// refuses the diagram for, the place at which the changed diagrams pass the weight bound, or want
/// of memory.
pub fn answer(
    alloc: Global,
    diagram: &Diagram,
    names: &Names,
    node: &str,
    row: usize,
    state: &str,
) -> Result<Vec<u8>, Refusal>
    requires { NamesFit diagram.now names.now }
    ensures ok { IfOk result (Prints (moving node.now row state.now) diagram.now names.now) }
    ensures err { IfErr result (TellsFor (moving node.now row state.now) diagram.now names.now) }
{
    let place = find_state(alloc, diagram, names, node, state)?;
    keep_row(alloc, diagram, place, row, node)?;
    let relevance = find_relevance(alloc, diagram)?;
    let solved = solve_by_graph(alloc, diagram, names, &relevance)?;
    let interval = find_interval(alloc, diagram, names, &relevance, &solved, place, row)?;
    Ok(threshold_text(alloc, names, place, row, &interval)?)
}
