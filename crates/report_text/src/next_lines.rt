//! The lines of a report, one by one and in runs: what each shows, or the first that shows nothing.

ghost use Rattle.std.specs.Prelude.{◌≡◌, ◌<◌, ◌∷◌, [], length, All, IfOk, IfErr, OnOk};
ghost use Rattle.maid_model.specs.Names.{NamesFit};
ghost use Rattle.maid_model.specs.Nodes.{IsDecision, rows_of};
ghost use Rattle.maid_model.specs.Reports.{line};
ghost use Rattle.report_text.specs.Reading.{AreTold};
ghost use Rattle.report_text.specs.Slots.{End, IsDecisionOrder, IsOrderless, IsStuckAlways, IsStuckByNames, IsStuckInAnswer, IsStuckInAnswers, IsStuckInRow, IsStuckInRows, IsTaken, OfGain, TakesAnswer, TakesAnswers, TakesGain, TakesGains, TakesOrder, TakesRow, TakesRows, Told, gain_slots};

use crate::ReportFault;
use crate::lines::LineReader;
use crate::orders::read_order;
use crate::report::push_decision_words;
use crate::value_lines::{read_gain, read_row};
use maid_model::{Answer, Diagram, Names, Ratio, Row};
use std::alloc::Global;

/// Reads the line of these words.
pub(crate) fn pass_words(lines: &mut LineReader, words: &[u8]) -> Result<(), ReportFault>
    ensures ok { OnOk result (IsTaken words.now lines.old lines.new) }
    ensures err { IfErr result (IsStuckAlways (Told (line words.now) ∷ []) lines.old) }
{
    let line = lines.take_line()?;
    if line == words {
        Ok(())
    } else {
        Err(lines.fault())
    }
}

/// Reads the text's end.
pub(crate) fn pass_end(lines: &LineReader) -> Result<(), ReportFault>
    ensures ok { OnOk result (lines.now.rest ≡ []) }
    ensures err { IfErr result (IsStuckAlways (End ∷ []) lines.now) }
{
    if lines.is_at_end() {
        Ok(())
    } else {
        Err(lines.next_fault())
    }
}

/// Reads the line of the order.
pub(crate) fn next_order(
    alloc: Global,
    lines: &mut LineReader,
    diagram: &Diagram,
    names: &Names,
) -> Result<Vec<usize>, ReportFault>
    requires fit { NamesFit diagram.now names.now }
    requires told { AreTold names.now }
    ensures order { IfOk result (λ order. IsDecisionOrder diagram.now.nodes order.items) }
    ensures taken { IfOk result (TakesOrder names.now lines.old lines.new) }
    ensures err { IfErr result (IsOrderless diagram.now.nodes names.now lines.old) }
{
    let line = lines.take_line()?;
    match read_order(alloc, diagram, names, line)? {
        Some(order) => Ok(order),
        None => Err(lines.fault()),
    }
}

// Reads the line of one row.
fn next_row(
    lines: &mut LineReader,
    scratch: &mut Vec<u8>,
    diagram: &Diagram,
    names: &Names,
    decision: usize,
    rows: usize,
    number: usize,
) -> Result<Row, ReportFault>
    requires fit { NamesFit diagram.now names.now }
    requires decision { IsDecision diagram.now.nodes decision }
    requires rows { rows ≡ rows_of diagram.now.nodes decision }
    requires number { number < rows }
    ensures ok { IfOk result (TakesRow diagram.now names.now decision number lines.old lines.new) }
    ensures err { IfErr result (IsStuckInRow diagram.now names.now decision number lines.old) }
{
    let line = lines.take_line()?;
    match read_row(scratch, diagram, names, decision, rows, number, line)? {
        Some(row) => Ok(row),
        None => Err(lines.fault()),
    }
}

// Reads the lines of a decision's rows.
fn next_rows(
    alloc: Global,
    lines: &mut LineReader,
    scratch: &mut Vec<u8>,
    diagram: &Diagram,
    names: &Names,
    decision: usize,
) -> Result<Vec<Row>, ReportFault>
    requires fit { NamesFit diagram.now names.now }
    requires decision { IsDecision diagram.now.nodes decision }
    ensures ok { IfOk result (TakesRows diagram.now names.now decision lines.old lines.new) }
    ensures err { IfErr result (IsStuckInRows diagram.now names.now decision lines.old) }
{
    let count = diagram.rows(decision);
    let mut rows = Vec::new(alloc);
    for number in 0..count {
        let row = next_row(lines, scratch, diagram, names, decision, count, number)?;
        rows.push(row)?;
    }
    Ok(rows)
}

// Reads the line of a decision and those of its rows.
fn next_answer(
    alloc: Global,
    lines: &mut LineReader,
    scratch: &mut Vec<u8>,
    diagram: &Diagram,
    names: &Names,
    decision: usize,
) -> Result<Answer, ReportFault>
    requires fit { NamesFit diagram.now names.now }
    requires decision { IsDecision diagram.now.nodes decision }
    ensures ok { IfOk result (TakesAnswer diagram.now names.now decision lines.old lines.new) }
    ensures err { IfErr result (IsStuckInAnswer diagram.now names.now decision lines.old) }
{
    scratch.clear();
    push_decision_words(scratch, diagram, names, decision)?;
    pass_words(lines, scratch)?;
    let rows = next_rows(alloc, lines, scratch, diagram, names, decision)?;
    Ok(Answer { decision, rows })
}

/// Reads the lines of each decision of the order.
pub(crate) fn next_answers(
    alloc: Global,
    lines: &mut LineReader,
    scratch: &mut Vec<u8>,
    diagram: &Diagram,
    names: &Names,
    order: &[usize],
) -> Result<Vec<Answer>, ReportFault>
    requires fit { NamesFit diagram.now names.now }
    requires order { All (IsDecision diagram.now.nodes) order.now }
    ensures ok { IfOk result (TakesAnswers diagram.now names.now order.now lines.old lines.new) }
    ensures err { IfErr result (IsStuckInAnswers diagram.now names.now order.now lines.old) }
{
    let mut answers = Vec::new(alloc);
    for decision in order {
        let answer = next_answer(alloc, lines, scratch, diagram, names, *decision)?;
        answers.push(answer)?;
    }
    Ok(answers)
}

// Reads the line of what the plan is worth to an agent.
fn next_gain(
    lines: &mut LineReader,
    scratch: &mut Vec<u8>,
    names: &Names,
    agent: usize,
) -> Result<Ratio, ReportFault>
    requires { agent < length names.now.agents }
    ensures ok { IfOk result (TakesGain names.now agent lines.old lines.new) }
    ensures err { IfErr result (IsStuckByNames names.now (OfGain agent ∷ []) lines.old) }
{
    let line = lines.take_line()?;
    match read_gain(scratch, names, agent, line)? {
        Some(gain) => Ok(gain),
        None => Err(lines.fault()),
    }
}

/// Reads the line of each of so many agents.
pub(crate) fn next_gains(
    alloc: Global,
    lines: &mut LineReader,
    scratch: &mut Vec<u8>,
    names: &Names,
    agents: usize,
) -> Result<Vec<Ratio>, ReportFault>
    requires { agents ≡ length names.now.agents }
    ensures ok { IfOk result (TakesGains names.now agents lines.old lines.new) }
    ensures err { IfErr result (IsStuckByNames names.now (gain_slots 0 agents) lines.old) }
{
    let mut gains = Vec::new(alloc);
    for agent in 0..agents {
        let gain = next_gain(lines, scratch, names, agent)?;
        gains.push(gain)?;
    }
    Ok(gains)
}
