//! The lines of rows and of gains, read.

ghost use Rattle.std.specs.Prelude.{◌≡◌, ◌<◌, length, IfOk, IfSome, IfNone};
ghost use Rattle.maid_model.specs.Names.{NamesFit};
ghost use Rattle.maid_model.specs.Nodes.{IsDecision, rows_of};
ghost use Rattle.maid_model.specs.declared.answers.Row.{Row};
ghost use Rattle.report_text.specs.Reading.{FitsRatio};
ghost use Rattle.report_text.specs.Slots.{ShowsOne, gain_words, IsShownChoice, ShowsNoChoice, ShowsNoWorth, ShowsRow, ShowsWorth};

use crate::cuts::{behind, front};
use crate::numbers::{read_ratio, whole};
use crate::report::{push_gain_front, push_row_front, push_state};
use maid_model::{Diagram, Names, Ratio, Row};
use std::alloc::AllocError;

// What a row is worth, by the text behind its choice.
fn read_worth(bytes: &[u8]) -> Option<Option<Ratio>>
    ensures some { IfSome result (ShowsWorth bytes.now) }
    ensures none { IfNone result (ShowsNoWorth bytes.now) }
{
    if bytes == b" never".as_slice() {
        return Some(None);
    }
    let worth = read_ratio(behind(bytes, b" = ")?)?;
    Some(Some(worth))
}

// The state whose number, from 1, stands before the first space.
fn read_state(bytes: &[u8], states: usize) -> Option<usize>
    ensures some { IfSome result (λ choice. choice < states) }
    ensures none { IfNone result (ShowsNoChoice states bytes.now) }
    ensures value { IfSome result (IsShownChoice states bytes.now) }
{
    let (digits, _) = front(bytes, b' ');
    match whole(digits) {
        Some(number) if 0 < number && number <= states as u128 => Some(number as usize - 1),
        _ => None,
    }
}

/// The row that the line shows, if it shows one. Rows are numbered from 0 here and from 1 in the
/// text.
pub(crate) fn read_row(
    scratch: &mut Vec<u8>,
    diagram: &Diagram,
    names: &Names,
    decision: usize,
    rows: usize,
    number: usize,
    line: &[u8],
) -> Result<Option<Row>, AllocError>
    requires fit { NamesFit diagram.now names.now }
    requires decision { IsDecision diagram.now.nodes decision }
    requires rows { rows ≡ rows_of diagram.now.nodes decision }
    requires number { number < rows }
    ensures { IfOk result (ShowsRow diagram.now.nodes names.now decision number line.now) }
{
    scratch.clear();
    push_row_front(scratch, diagram, names, decision, rows, number)?;
    let Some(state_on) = behind(line, scratch) else {
        return Ok(None);
    };
    let Some(choice) = read_state(state_on, diagram.states(decision)) else {
        return Ok(None);
    };
    scratch.clear();
    push_state(scratch, diagram, names, decision, choice)?;
    let Some(worth_on) = behind(state_on, scratch) else {
        return Ok(None);
    };
    match read_worth(worth_on) {
        Some(worth) => Ok(Some(Row { choice, worth })),
        None => Ok(None),
    }
}

/// The gain that the agent's line shows, if it shows one.
pub(crate) fn read_gain(
    scratch: &mut Vec<u8>,
    names: &Names,
    agent: usize,
    line: &[u8],
) -> Result<Option<Ratio>, AllocError>
    requires { agent < length names.now.agents }
    ensures { IfOk result (ShowsOne FitsRatio (gain_words names.now agent) line.now) }
{
    scratch.clear();
    push_gain_front(scratch, names, agent)?;
    match behind(line, scratch) {
        Some(value) => Ok(read_ratio(value)),
        None => Ok(None),
    }
}
