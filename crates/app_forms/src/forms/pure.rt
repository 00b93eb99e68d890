//! `pure F`: the first pure equilibrium.

ghost use Rattle.std.specs.Prelude.{◌≡◌, All, IfOk, IfErr, length};
ghost use Rattle.app_lines.specs.Choices.{HasChoices};
ghost use Rattle.first_fault.specs.Answers.{IsFaultOrNoMemory};
ghost use Rattle.maid_model.specs.Names.{NamesFit};
ghost use Rattle.pure_search.specs.Faults.{pure_fault, pure_pass};
ghost use Rattle.app_forms.specs.Pure.{pure_text, search_stages, searching};
ghost use Rattle.app_forms.specs.Reading.{Prints, TellsFor, TellsFound};

use crate::refusal::{Refusal, told};
use crate::{Status, lines};
use app_lines::{choice_lines, gain_lines};
use line_pieces::Piece::Text;
use line_pieces::joined;
use maid_model::{Diagram, Names};
use pure_search::{Pure, PureFault, first_pure};
use std::alloc::{AllocError, Global};

// The refusal of a diagram in which no equilibrium is found.
fn refusal(alloc: Global, diagram: &Diagram, names: &Names, fault: PureFault) -> Refusal
    requires fit { NamesFit diagram.now names.now }
    requires fault { IsFaultOrNoMemory pure_fault (pure_pass diagram.now) fault }
    ensures { TellsFound diagram.now names.now search_stages result }
{
    let _count = diagram.count();
    match fault {
        PureFault::WeightBound { node } => told(
            Status::WeightBound,
            lines::weight_bound(alloc, names, node),
        ),
        PureFault::TooLarge { profiles, leaves } => told(
            Status::TooLarge,
            lines::too_many_profiles(alloc, profiles, leaves),
        ),
        PureFault::NoPure { profiles } => {
            told(Status::NoPure, lines::no_equilibrium(alloc, profiles))
        }
        PureFault::NoMemory => Refusal::NoMemory,
    }
}

// The choices, and what they are worth to each agent.
fn pure_text(
    alloc: Global,
    diagram: &Diagram,
    names: &Names,
    found: &Pure,
) -> Result<Vec<u8>, AllocError>
    requires fit { NamesFit diagram.now names.now }
    requires choices { All (HasChoices diagram.now.nodes) found.now.answers }
    requires gains { length found.now.gains ≡ diagram.now.agents }
    ensures { IfOk result (λ text. text.items ≡ pure_text diagram.now names.now found.now) }
{
    let choices = choice_lines(alloc, diagram, names, &found.answers)?;
    let gains = gain_lines(alloc, names, &found.gains)?;
    joined(
        alloc,
        &[Text(b"maidsolve pure 1\n"), Text(&choices), Text(&gains)],
    )
}

/// The first pure equilibrium of the diagram, and what it is worth to each agent.
///
/// # Errors
///
/// The place at which the weight bound is passed, the counts of profiles and leaves where they are
/// too many, how many pure profiles there are where none is an equilibrium, or want of memory.
pub fn answer(alloc: Global, diagram: &Diagram, names: &Names) -> Result<Vec<u8>, Refusal>
    requires { NamesFit diagram.now names.now }
    ensures ok { IfOk result (Prints searching diagram.now names.now) }
    ensures err { IfErr result (TellsFor searching diagram.now names.now) }
{
    match first_pure(alloc, diagram) {
        Ok(found) => Ok(pure_text(alloc, diagram, names, &found)?),
        Err(fault) => Err(refusal(alloc, diagram, names, fault)),
    }
}
