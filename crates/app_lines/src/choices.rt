//! Lines of what decisions choose.

ghost use Rattle.std.specs.Prelude.{◌≡◌, ◌<◌, All, IfOk};
ghost use Rattle.maid_model.specs.Names.{NamesFit};
ghost use Rattle.maid_model.specs.Nodes.{IsDecision, rows_of, states_of};
ghost use Rattle.app_lines.specs.Choices.{HasChoices, TellsChoices};
ghost use Rattle.app_lines.specs.Pushing.{PushesChoice, PushesChoices};

use maid_model::{Answer, Diagram, Names};
use report_text::{push_head, push_row_front, push_state};
use std::alloc::{AllocError, Global};

// Appends the line of one row.
#[tactic(auto, using(std::proofs::Common::append_assoc))]
fn push_choice(
    out: &mut Vec<u8>,
    diagram: &Diagram,
    names: &Names,
    decision: usize,
    rows: usize,
    number: usize,
    choice: usize,
) -> Result<(), AllocError>
    requires fit { NamesFit diagram.now names.now }
    requires decision { IsDecision diagram.now.nodes decision }
    requires rows { rows ≡ rows_of diagram.now.nodes decision }
    requires number { number < rows }
    requires choice { choice < states_of diagram.now.nodes decision }
    ensures { PushesChoice diagram.now names.now decision number choice out.old out.new result }
{
    push_row_front(out, diagram, names, decision, rows, number)?;
    push_state(out, diagram, names, decision, choice)?;
    out.extend_from_slice(b"\n")
}

// Appends the line of a decision, and a line for each row.
fn push_choices(
    out: &mut Vec<u8>,
    diagram: &Diagram,
    names: &Names,
    answer: &Answer,
) -> Result<(), AllocError>
    requires fit { NamesFit diagram.now names.now }
    requires answer { HasChoices diagram.now.nodes answer.now }
    ensures { PushesChoices diagram.now names.now answer.now out.old out.new result }
{
    let decision = answer.decision;
    let rows = answer.rows.len();
    push_head(out, diagram, names, decision)?;
    for (number, row) in answer.rows.iter().enumerate() {
        push_choice(out, diagram, names, decision, rows, number, row.choice)?;
    }
    Ok(())
}

/// Each answer in turn: the line that names its decision, whose it is and what it sees, and then
/// for each row the parents' states and the choice, as in a report, but without what the row is
/// worth. Its cost is that of the text it makes.
pub fn choice_lines(
    alloc: Global,
    diagram: &Diagram,
    names: &Names,
    answers: &[Answer],
) -> Result<Vec<u8>, AllocError>
    requires names { NamesFit diagram.now names.now }
    requires answers { All (HasChoices diagram.now.nodes) answers.now }
    ensures { IfOk result (TellsChoices diagram.now names.now answers.now) }
{
    let mut text = Vec::new(alloc);
    for answer in answers {
        push_choices(&mut text, diagram, names, answer)?;
    }
    Ok(text)
}
