//! What `info` and `control` share: the agent that is asked about, the first line, and what an edit
//! is worth in words.

ghost use Rattle.std.specs.Prelude.{◌≡◌, IfOk, IfErr, length};
ghost use Rattle.first_fault.specs.Answers.{IsFaultOrNoMemory};
ghost use Rattle.maid_model.specs.Names.{IsFirstPlace, NamesFit};
ghost use Rattle.app_forms.specs.Asking.{agent_stages, asked_line};
ghost use Rattle.app_forms.specs.Found.{AreKnown, cycle_told, found_words};
ghost use Rattle.app_forms.specs.Reading.{IsAsked, TellsFound};
ghost use Rattle.app_forms.specs.Refusal.{refused_as};
ghost use Rattle.app_forms.specs.Stages.{agent_pass};
ghost use Rattle.line_pieces.specs.Pushed.{PushAppends};

use super::solve::solve_diagram;
use crate::refusal::{Refusal, told};
use crate::{Status, lines};
use line_pieces::Piece::{Fraction, Quoted, Text};
use line_pieces::{joined, push_names, push_pieces};
use maid_model::{Diagram, Names, Solved};
use optimum_gap::Found;
use std::alloc::{AllocError, Global};

/// What is asked of one agent of a solved diagram.
#[derive(Drop)]
pub struct Asked {
    /// Its answer.
    pub solved: Solved,
    /// The agent's number.
    pub agent: usize,
}

// The number of the agent of that name.
fn number_of(alloc: Global, names: &Names, agent: &str) -> Result<usize, Refusal>
    ensures ok { IfOk result (IsFirstPlace names.now.agents agent.now) }
    ensures err { IfErr result (IsFaultOrNoMemory refused_as (agent_pass names.now agent.now)) }
{
    match names.find_agent(agent.as_bytes()) {
        Some(number) => Ok(number),
        None => Err(told(
            Status::UnknownAgent,
            lines::told(alloc, b"unknown agent: ", agent.as_bytes()),
        )),
    }
}

/// The diagram's answer, and the number of the agent of that name in it.
///
/// # Errors
///
/// An agent that no node has, or those of [`solve_diagram`].
pub fn ask(alloc: Global, diagram: &Diagram, names: &Names, agent: &str) -> Result<Asked, Refusal>
    requires { NamesFit diagram.now names.now }
    ensures ok { IfOk result (IsAsked agent.now diagram.now names.now) }
    ensures err { IfErr result (TellsFound diagram.now names.now (agent_stages agent.now)) }
{
    let number = number_of(alloc, names, agent)?;
    let solved = solve_diagram(alloc, diagram, names)?;
    Ok(Asked {
        solved,
        agent: number,
    })
}

/// The first line: what is asked, and of which agent.
pub fn asked_line<'a>(alloc: Global, word: &'a [u8], agent: &'a [u8]) -> Result<Vec<u8>, AllocError>
    ensures { IfOk result (λ text. text.items ≡ asked_line word.now agent.now) }
{
    joined(alloc, &[Text(word), Text(b" "), Quoted(agent), Text(b"\n")])
}

/// Appends what an edit is worth, or why no value stands there.
pub fn push_found(out: &mut Vec<u8>, names: &Names, found: &Found) -> Result<(), AllocError>
    requires { AreKnown (length names.now.nodes) (cycle_told found.now) }
    ensures { PushAppends out.old out.new result (found_words names.now found.now) }
{
    match found {
        Found::Value(worth) => push_pieces(out, &[Text(b"value "), Fraction(worth)]),
        Found::Worthless => out.extend_from_slice(b"worthless"),
        Found::Cycle(list) => {
            out.extend_from_slice(b"cycle")?;
            push_names(out, names, list)
        }
        Found::Bound => out.extend_from_slice(b"bound"),
        Found::TooLarge => out.extend_from_slice(b"too large"),
    }
}
