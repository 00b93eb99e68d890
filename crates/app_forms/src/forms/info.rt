//! `info F A`: what information is worth to an agent.

ghost use Rattle.std.specs.Prelude.{◌≡◌, All, IfOk, IfErr, length};
ghost use Rattle.app_forms.specs.Found.{AreKnown};
ghost use Rattle.app_forms.specs.Info.{info_line, info_nodes, info_text, weighing_information};
ghost use Rattle.app_forms.specs.Reading.{Prints, TellsFor};
ghost use Rattle.maid_model.specs.Names.{NamesFit};
ghost use Rattle.line_pieces.specs.Pushed.{PushAppends};

use super::asking::{ask, asked_line, push_found};
use crate::refusal::Refusal;
use info_value::{InfoLine, info};
use line_pieces::Piece::Text;
use line_pieces::push_pieces;
use maid_model::{Diagram, Names};
use std::alloc::{AllocError, Global};

// Appends the line of an arc.
fn push_line(out: &mut Vec<u8>, names: &Names, line: &InfoLine) -> Result<(), AllocError>
    requires { AreKnown (length names.now.nodes) (info_nodes line.now) }
    ensures { PushAppends out.old out.new result (info_line names.now line.now) }
{
    push_pieces(
        out,
        &[
            Text(if line.has { b"has " } else { b"new " }),
            Text(names.name(line.from)),
            Text(b" -> "),
            Text(names.name(line.to)),
            Text(b": "),
        ],
    )?;
    push_found(out, names, &line.found)?;
    out.extend_from_slice(b"\n")
}

// The first line, and then one for each arc.
fn info_text(
    alloc: Global,
    names: &Names,
    agent: &[u8],
    lines: &[InfoLine],
) -> Result<Vec<u8>, AllocError>
    requires { All (λ line. AreKnown (length names.now.nodes) (info_nodes line)) lines.now }
    ensures { IfOk result (λ text. text.items ≡ info_text agent.now names.now lines.now) }
{
    let mut text = asked_line(alloc, b"info", agent)?;
    for line in lines {
        push_line(&mut text, names, line)?;
    }
    Ok(text)
}

/// What information is worth to the agent of that name in the diagram: a line for each of its
/// decisions and each other node that the decision sees or might see.
///
/// # Errors
///
/// Those of [`ask`], or want of memory.
pub fn answer(
    alloc: Global,
    diagram: &Diagram,
    names: &Names,
    agent: &str,
) -> Result<Vec<u8>, Refusal>
    requires { NamesFit diagram.now names.now }
    ensures ok { IfOk result (Prints (weighing_information agent.now) diagram.now names.now) }
    ensures err { IfErr result (TellsFor (weighing_information agent.now) diagram.now names.now) }
{
    let asked = ask(alloc, diagram, names, agent)?;
    let lines = info(alloc, diagram, &asked.solved, asked.agent)?;
    Ok(info_text(alloc, names, agent.as_bytes(), &lines)?)
}
