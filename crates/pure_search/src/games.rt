//! The rows in which choices are taken.

ghost use Rattle.std.specs.Prelude.{◌≡◌, ◌<◌, ◌++◌, All, IfOk, OnOk, length, replicate};
ghost use Rattle.reach_laws.specs.Equilibria.{choice_counts, choice_owners};
ghost use Rattle.pure_search.specs.Games.{IsGameOf};

use maid_model::Diagram;
use std::alloc::{AllocError, Global};

/// The decisions of a diagram, and for each of their rows, decisions in text order, how many
/// choices there are and whose the choice is.
#[derive(Drop)]
pub(crate) struct Game {
    pub decisions: Vec<usize>,
    pub counts: Vec<usize>,
    pub owners: Vec<usize>,
}

/// Appends a number, so many times.
fn push_times(
    alloc: Global,
    list: &mut Vec<usize>,
    number: usize,
    times: usize,
) -> Result<(), AllocError>
    ensures { OnOk result (list.new.items ≡ list.old.items ++ replicate times number) }
{
    let block = vec![in alloc; number; times]?;
    list.extend_from_slice(&block)
}

/// For each row of the decisions how many choices there are.
fn choice_counts(
    alloc: Global,
    diagram: &Diagram,
    decisions: &[usize],
) -> Result<Vec<usize>, AllocError>
    requires { All (λ v. v < length diagram.now.nodes) decisions.now }
    ensures { IfOk result (λ list. list.items ≡ choice_counts diagram.now.nodes decisions.now) }
{
    let mut list = Vec::new(alloc);
    for v in decisions {
        push_times(alloc, &mut list, diagram.states(*v), diagram.rows(*v))?;
    }
    Ok(list)
}

/// For each row of the decisions whose the choice is.
fn choice_owners(
    alloc: Global,
    diagram: &Diagram,
    decisions: &[usize],
) -> Result<Vec<usize>, AllocError>
    requires { All (λ v. v < length diagram.now.nodes) decisions.now }
    ensures { IfOk result (λ list. list.items ≡ choice_owners diagram.now.nodes decisions.now) }
{
    let mut list = Vec::new(alloc);
    for v in decisions {
        push_times(alloc, &mut list, diagram.agent_of(*v), diagram.rows(*v))?;
    }
    Ok(list)
}

/// The rows of all decisions of the diagram.
pub(crate) fn game_of(alloc: Global, diagram: &Diagram) -> Result<Game, AllocError>
    ensures { IfOk result (IsGameOf diagram.now.nodes) }
{
    let decisions = diagram.decisions(alloc)?;
    let counts = choice_counts(alloc, diagram, &decisions)?;
    let owners = choice_owners(alloc, diagram, &decisions)?;
    Ok(Game {
        decisions,
        counts,
        owners,
    })
}
