//! `control F A`: what control of chance nodes is worth to an agent, and its incentives there.

ghost use Rattle.std.specs.Prelude.{◌≡◌, [], All, IfOk, IfErr, if◌then◌else◌, length};
ghost use Rattle.app_forms.specs.Control.{control_line, control_nodes, control_text, weighing_control};
ghost use Rattle.app_forms.specs.Found.{AreKnown};
ghost use Rattle.app_forms.specs.Reading.{Prints, TellsFor};
ghost use Rattle.maid_model.specs.Names.{NamesFit};
ghost use Rattle.line_pieces.specs.Pushed.{PushAppends};

use super::asking::{ask, asked_line, push_found};
use crate::refusal::Refusal;
use control_incentive::{ControlLine, control};
use line_pieces::Piece::Text;
use line_pieces::push_pieces;
use maid_model::{Diagram, Names};
use std::alloc::{AllocError, Global};

// The words of a flag where it holds, and nothing else.
fn flag(holds: bool, words: &[u8]) -> &[u8]
    ensures { result.now ≡ (if holds then words.now else []) }
{
    if holds { words } else { b"" }
}

// Appends the line of a chance node.
fn push_line(out: &mut Vec<u8>, names: &Names, line: &ControlLine) -> Result<(), AllocError>
    requires { AreKnown (length names.now.nodes) (control_nodes line.now) }
    ensures { PushAppends out.old out.new result (control_line names.now line.now) }
{
    push_pieces(
        out,
        &[
            Text(names.name(line.node)),
            Text(flag(line.response, b" response")),
            Text(flag(line.instrumental, b" instrumental")),
            Text(b": "),
        ],
    )?;
    push_found(out, names, &line.found)?;
    out.extend_from_slice(b"\n")
}

// The first line, and then one for each chance node.
fn control_text(
    alloc: Global,
    names: &Names,
    agent: &[u8],
    lines: &[ControlLine],
) -> Result<Vec<u8>, AllocError>
    requires { All (λ line. AreKnown (length names.now.nodes) (control_nodes line)) lines.now }
    ensures { IfOk result (λ text. text.items ≡ control_text agent.now names.now lines.now) }
{
    let mut text = asked_line(alloc, b"control", agent)?;
    for line in lines {
        push_line(&mut text, names, line)?;
    }
    Ok(text)
}

/// What control is worth to the agent of that name in the diagram, and which incentives it has: a
/// line for each chance node.
///
/// # Errors
///
/// Those of [`ask`], or want of memory.
pub fn answer(
    alloc: Global,
    diagram: &Diagram,
    names: &Names,
    agent: &str,
) -> Result<Vec<u8>, Refusal>
    requires { NamesFit diagram.now names.now }
    ensures ok { IfOk result (Prints (weighing_control agent.now) diagram.now names.now) }
    ensures err { IfErr result (TellsFor (weighing_control agent.now) diagram.now names.now) }
{
    let asked = ask(alloc, diagram, names, agent)?;
    let lines = control(alloc, diagram, &asked.solved, asked.agent)?;
    Ok(control_text(alloc, names, agent.as_bytes(), &lines)?)
}
