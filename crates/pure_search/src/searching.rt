//! The search for the first pure equilibrium.

ghost use Rattle.std.specs.Prelude.{◌≡◌, ◌<◌, All, IfOk, length};
ghost use Rattle.first_fault.specs.Answers.{Passes};
ghost use Rattle.maid_model.specs.Scopes.{KeepsScopedBounds};
ghost use Rattle.maid_model.specs.Worlds.{IsWorld, worlds};
ghost use Rattle.reach_laws.specs.Equilibria.{IsFirstPure};
ghost use Rattle.pure_search.specs.Faults.{pure_fault, pure_pass, search_pass, stable_pass};
ghost use Rattle.pure_search.specs.Found.{IsPureFound, IsStable};
ghost use Rattle.pure_search.specs.Games.{AreChoicesAt, IsGameOf, IsSearched, list_count};

use crate::answering::{answers_of, profile_of};
use crate::counting::{keep_bound, keep_counts};
use crate::games::{Game, game_of};
use crate::marks::first_mark;
use crate::odometer::{first_choices, next_choices};
use crate::tables::stable_marks;
use crate::worths::worths;
use crate::{Pure, PureFault};
use maid_model::Diagram;
use std::alloc::{AllocError, Global};

/// The list of choices at a place.
fn choices_at(alloc: Global, counts: &[usize], place: usize) -> Result<Vec<usize>, AllocError>
    requires counts { All (λ n. 0 < n) counts.now }
    requires place { place < length (worlds counts.now) }
    ensures choices { IfOk result (AreChoicesAt counts.now place) }
    ensures world { IfOk result (λ choices. IsWorld counts.now choices.items) }
{
    let mut choices = first_choices(alloc, counts)?;
    for _ in 0..place {
        next_choices(counts, &mut choices);
    }
    Ok(choices)
}

/// What is found where the list of choices at this place is the first from which no agent gains.
fn found_at(alloc: Global, diagram: &Diagram, game: &Game, place: usize) -> Result<Pure, AllocError>
    requires game { IsGameOf diagram.now.nodes game.now }
    requires bound { IsSearched diagram.now }
    requires first { IsFirstPure diagram.now.nodes place }
    ensures { IfOk result (IsPureFound diagram.now) }
{
    let _count = diagram.count();
    let choices = choices_at(alloc, &game.counts, place)?;
    let answers = answers_of(alloc, diagram, &game.decisions, &choices)?;
    let profile = profile_of(alloc, diagram, &game.decisions, &choices)?;
    let gains = worths(alloc, diagram, &profile)?;
    Ok(Pure { answers, gains })
}

/// The first pure equilibrium of a diagram within the limits, or that none of its pure profiles is
/// one.
fn search(alloc: Global, diagram: &Diagram, game: &Game, profiles: u128) -> Result<Pure, PureFault>
    requires game { IsGameOf diagram.now.nodes game.now }
    requires bound { IsSearched diagram.now }
    requires profiles { profiles ≡ list_count diagram.now.nodes }
    ensures rows { Passes pure_fault (stable_pass diagram.now) result }
    ensures ok { IfOk result (IsPureFound diagram.now) }
{
    let marks = stable_marks(alloc, diagram, game, profiles as usize)?;
    match first_mark(&marks) {
        Some(place) => Ok(found_at(alloc, diagram, game, place)?),
        None => Err(PureFault::NoPure { profiles }),
    }
}

/// A diagram that keeps the weight bound: its limits, and then the search.
fn search_within(alloc: Global, diagram: &Diagram) -> Result<Pure, PureFault>
    requires { KeepsScopedBounds diagram.now }
    ensures rows { Passes pure_fault (search_pass diagram.now) result }
    ensures ok { IfOk result (IsPureFound diagram.now) }
{
    let game = game_of(alloc, diagram)?;
    let profiles = keep_counts(diagram, &game.counts)?;
    search(alloc, diagram, &game, profiles)
}

/// The first pure equilibrium of a diagram, with or without a relevance cycle: the first list of
/// choices, decisions in text order and the last row of the last decision fastest, from which no
/// agent gains by other rules of its own, pure or mixed; and each agent's expected utility under
/// it.
///
/// For each agent that decides it lists the tables of the part that matters to the agent once, and
/// goes once through all pure profiles; in each through all rows of the decisions, whose rules it
/// exchanges where their choices changed, and by one walk through those worlds of the part that
/// have weight under the profile. It keeps three numbers and a mark for each profile.
///
/// # Errors
///
/// The first of these that holds: `WeightBound` where a scope passes the weight bound; `TooLarge`
/// where the pure profiles are more than 65,536, or the worlds of the diagram more than 1,048,576,
/// or their product more than 16,777,216; `NoPure` where no pure profile is an equilibrium.
/// `NoMemory` may come at any point.
pub fn first_pure(alloc: Global, diagram: &Diagram) -> Result<Pure, PureFault>
    // A profile where nothing refuses the diagram, and else the first refusal that applies.
    ensures rows { Passes pure_fault (pure_pass diagram.now) result }
    // It is the first pure equilibrium, with its gains.
    ensures ok { IfOk result (IsPureFound diagram.now) }
    // No agent gains by other rules of its own, pure or mixed.
    ensures stable { IfOk result (IsStable diagram.now) }
{
    keep_bound(diagram)?;
    search_within(alloc, diagram)
}
