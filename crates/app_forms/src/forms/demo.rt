//! `demo K`: a summary of the solved diagram of a generated text.

ghost use Rattle.std.specs.Prelude.{◌≡◌, IfOk, IfErr, length};
ghost use Rattle.app_forms.specs.Demo.{summary, summing};
ghost use Rattle.app_forms.specs.Reading.{Prints, TellsFor};
ghost use Rattle.maid_model.specs.Names.{NamesFit};

use super::solve::solve_diagram;
use crate::refusal::Refusal;
use app_lines::gain_lines;
use line_pieces::Piece::{Number, Text};
use line_pieces::joined;
use maid_model::{Diagram, Names, Ratio, Solved};
use std::alloc::{AllocError, Global};

// The numbers of stages and nodes, and what the plan is worth to each agent.
fn summary(
    alloc: Global,
    k: usize,
    diagram: &Diagram,
    names: &Names,
    solved: &Solved,
) -> Result<Vec<u8>, AllocError>
    requires { length solved.now.gains ≡ length names.now.agents }
    ensures { IfOk result (λ text. text.items ≡ summary k diagram.now names.now solved.now) }
{
    let gains = gain_lines(alloc, names, &solved.gains)?;
    joined(
        alloc,
        &[
            Text(b"demo "),
            Number(k as u128),
            Text(b"\nnodes "),
            Number(diagram.count() as u128),
            Text(b"\n"),
            Text(&gains),
        ],
    )
}

/// The summary of the solved diagram of the generated text of `k` stages. It is solved as that of a
/// file is.
///
/// # Errors
///
/// Those of [`solve_diagram`].
pub fn answer(alloc: Global, diagram: &Diagram, names: &Names, k: usize) -> Result<Vec<u8>, Refusal>
    requires { NamesFit diagram.now names.now }
    ensures ok { IfOk result (Prints (summing k) diagram.now names.now) }
    ensures err { IfErr result (TellsFor (summing k) diagram.now names.now) }
{
    let solved = solve_diagram(alloc, diagram, names)?;
    Ok(summary(alloc, k, diagram, names, &solved)?)
}
