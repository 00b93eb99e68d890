//! Lists of choices as answers.

ghost use Rattle.std.specs.Prelude.{◌≡◌, ◌<◌, IfOk, length, map, All};
ghost use Rattle.maid_model.specs.Nodes.{decisions_of};
ghost use Rattle.maid_model.specs.Profiles.{IsProfile};
ghost use Rattle.maid_model.specs.Worlds.{IsWorld};
ghost use Rattle.part_laws.specs.ScopeLaws.{HasUnitRules};
ghost use Rattle.reach_laws.specs.Equilibria.{choice_counts, profile_of};
ghost use Rattle.pure_search.specs.Games.{AnswerChoices, counts_for, unpriced};

use maid_model::{Answer, Diagram, Profile, Row};
use std::alloc::{AllocError, Global};

/// Rows of these choices, without worths.
fn rows_of(alloc: Global, choices: &[usize]) -> Result<Vec<Row>, AllocError>
    ensures { IfOk result (λ rows. rows.items ≡ map unpriced choices.now) }
{
    let mut rows = Vec::with_capacity(alloc, choices.len())?;
    for choice in choices {
        rows.push(Row {
            choice: *choice,
            worth: None,
        })?;
    }
    Ok(rows)
}

/// The answers of a list of choices, which has the first decision's rows first.
pub(crate) fn answers_of(
    alloc: Global,
    diagram: &Diagram,
    decisions: &[usize],
    choices: &[usize],
) -> Result<Vec<Answer>, AllocError>
    requires decisions { All (λ v. v < length diagram.now.nodes) decisions.now }
    requires len { length choices.now ≡ length (choice_counts diagram.now.nodes decisions.now) }
    ensures { IfOk result (AnswerChoices diagram.now.nodes decisions.now choices.now) }
{
    let mut answers = Vec::with_capacity(alloc, decisions.len())?;
    let mut start = 0;
    for decision in decisions {
        let end = start + diagram.rows(*decision);
        answers.push(Answer {
            decision: *decision,
            rows: rows_of(alloc, &choices[start..end])?,
        })?;
        start = end;
    }
    Ok(answers)
}

/// The pure profile of a list of choices.
pub(crate) fn profile_of(
    alloc: Global,
    diagram: &Diagram,
    decisions: &[usize],
    choices: &[usize],
) -> Result<Profile, AllocError>
    requires decisions { decisions.now ≡ decisions_of diagram.now.nodes }
    requires choices { IsWorld (counts_for diagram.now.nodes) choices.now }
    ensures rules { IfOk result (λ p. p ≡ profile_of diagram.now.nodes choices.now) }
    ensures profile { IfOk result (IsProfile diagram.now.nodes) }
    ensures unit { IfOk result (HasUnitRules diagram.now.nodes) }
{
    let answers = answers_of(alloc, diagram, decisions, choices)?;
    Profile::pure(alloc, diagram, &answers)
}
