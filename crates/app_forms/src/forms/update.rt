//! `update F`: the choices that no round of updating changes.

ghost use Rattle.std.specs.Prelude.{◌≡◌, All, IfOk, IfErr, length};
ghost use Rattle.app_lines.specs.Choices.{HasChoices};
ghost use Rattle.maid_model.specs.Names.{NamesFit};
ghost use Rattle.app_forms.specs.Reading.{Prints, TellsFor, TellsFound};
ghost use Rattle.app_forms.specs.Update.{update_stages, update_text, updating, IsUpdateFault};

use crate::refusal::{Refusal, told};
use crate::{Status, lines};
use app_lines::{choice_lines, gain_lines};
use line_pieces::Piece::{Number, Text};
use line_pieces::joined;
use maid_model::{Diagram, Names};
use policy_update::{UpdateFault, Updated, update};
use std::alloc::{AllocError, Global};

/// The most rounds that a run of updating takes.
pub const MOST_ROUNDS: u64 = 10_000;

// The refusal of a diagram that is not updated.
fn refusal(alloc: Global, diagram: &Diagram, names: &Names, fault: &UpdateFault) -> Refusal
    requires fit { NamesFit diagram.now names.now }
    requires fault { IsUpdateFault diagram.now MOST_ROUNDS fault.now }
    ensures { TellsFound diagram.now names.now update_stages result }
{
    match fault {
        UpdateFault::NotOneAgent => told(
            Status::NotOneAgent,
            lines::told(alloc, b"not one agent", b""),
        ),
        UpdateFault::WeightBound { node } => told(
            Status::WeightBound,
            lines::weight_bound(alloc, names, *node),
        ),
        UpdateFault::TooLarge { cells, work } => told(
            Status::TooLarge,
            lines::too_large(alloc, *cells, *work),
        ),
        UpdateFault::RoundsSpent { rounds, .. } => {
            told(Status::RoundsSpent, lines::rounds_spent(alloc, *rounds))
        }
        UpdateFault::NoMemory => Refusal::NoMemory,
    }
}

// How many rounds raised, the choices, and what they are worth to each agent.
fn update_text(
    alloc: Global,
    diagram: &Diagram,
    names: &Names,
    updated: &Updated,
) -> Result<Vec<u8>, AllocError>
    requires fit { NamesFit diagram.now names.now }
    requires choices { All (HasChoices diagram.now.nodes) updated.now.answers }
    requires gains { length updated.now.gains ≡ diagram.now.agents }
    ensures { IfOk result (λ text. text.items ≡ update_text diagram.now names.now updated.now) }
{
    let choices = choice_lines(alloc, diagram, names, &updated.answers)?;
    let gains = gain_lines(alloc, names, &updated.gains)?;
    joined(
        alloc,
        &[
            Text(b"maidsolve update 1\nrounds "),
            Number(updated.rounds as u128),
            Text(b"\n"),
            Text(&choices),
            Text(&gains),
        ],
    )
}

/// The result of updating the diagram (Lauritzen and Nilsson 2001), and what it is worth to each
/// agent. A run takes at most 10,000 rounds.
///
/// # Errors
///
/// Two owners of decisions, the place at which the weight bound is passed, the cells and the work
/// of a run that passes a limit, rounds that all raise, or want of memory.
pub fn answer(alloc: Global, diagram: &Diagram, names: &Names) -> Result<Vec<u8>, Refusal>
    requires { NamesFit diagram.now names.now }
    ensures ok { IfOk result (Prints updating diagram.now names.now) }
    ensures err { IfErr result (TellsFor updating diagram.now names.now) }
{
    match update(alloc, diagram, MOST_ROUNDS) {
        Ok(updated) => Ok(update_text(alloc, diagram, names, &updated)?),
        Err(fault) => Err(refusal(alloc, diagram, names, &fault)),
    }
}
