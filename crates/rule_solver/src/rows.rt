//! The answer of one row.

ghost use Rattle.std.specs.Prelude.{◌≡◌, ◌<◌, ◌≤◌, ◌*◌, All, IfOk, IfSome, length, pos, nat_abs, slice_index, slice_index_or};
ghost use Rattle.maid_model.specs.Answers.{IsFirstBest, IsReduced};
ghost use Rattle.maid_model.specs.Diagrams.{greatest_number};
ghost use Rattle.rule_solver.specs.Rows.{AnswersByGains, AreGainsOfRow, FitNumbers, FitScaled, AnswersGains, AnswersInList};

use maid_model::{Ratio, Row};
use std::alloc::{AllocError, Global};

/// The first place of the greatest number.
pub(crate) fn first_best(gains: &[i128]) -> usize
    requires { 0 < length gains.now }
    ensures { IsFirstBest (λ s. slice_index_or gains.now s (pos 0)) (length gains.now) result }
{
    let mut best = 0;
    for (state, gain) in gains.iter().enumerate() {
        if *gain > gains[best] {
            best = state;
        }
    }
    best
}

/// What is answered in a row, whose states have these gains, against its mass.
fn answer_row(gains: &[i128], mass: u128, scale: u128) -> Row
    requires some { 0 < length gains.now }
    requires scale { 0 < scale }
    requires room { mass * scale ≤ greatest_number }
    requires small { All (λ gain. nat_abs gain ≤ greatest_number) gains.now }
    ensures row { AnswersGains gains.now mass scale result }
    ensures choice { result.choice < length gains.now }
    ensures reduced { IfSome result.worth IsReduced }
{
    if mass == 0 {
        return Row {
            choice: 0,
            worth: None,
        };
    }
    let choice = first_best(gains);
    Row {
        choice,
        worth: Some(Ratio::reduced(gains[choice], mass * scale)),
    }
}

/// The gains of the states in one row, where `gains` has a number for each row and state, the state
/// fastest.
pub fn row_gains(gains: &[i128], rows: usize, states: usize, row: usize) -> &[i128]
    requires all { length gains.now ≡ rows * states }
    requires row { row < rows }
    ensures count { length result.now ≡ states }
    ensures gains { AreGainsOfRow gains.now states row result.now }
{
    let start = row * states;
    &gains[start..start + states]
}

/// What is answered in one row, where `gains` has a number for each row and state, the state
/// fastest.
fn answer_at(gains: &[i128], masses: &[u128], states: usize, scale: u128, row: usize) -> Row
    requires all { length gains.now ≡ length masses.now * states }
    requires some { 0 < states }
    requires scale { 0 < scale }
    requires row { row < length masses.now }
    requires room { slice_index masses.now row * scale ≤ greatest_number }
    requires small { FitNumbers gains.now }
    ensures row { AnswersInList gains.now masses.now states scale row result }
    ensures choice { result.choice < states }
    ensures reduced { IfSome result.worth IsReduced }
{
    answer_row(
        row_gains(gains, masses.len(), states, row),
        masses[row],
        scale,
    )
}

/// What is answered in each row of a decision: `gains` has a number for each row and state, the
/// state fastest, and `masses` one for each row.
pub(crate) fn answer_rows(
    alloc: Global,
    gains: &[i128],
    masses: &[u128],
    states: usize,
    scale: u128,
) -> Result<Vec<Row>, AllocError>
    requires all { length gains.now ≡ length masses.now * states }
    requires some { 0 < states }
    requires scale { 0 < scale }
    requires room { FitScaled masses.now scale }
    requires small { FitNumbers gains.now }
    ensures rows { IfOk result (λ v. AnswersByGains gains.now masses.now states scale v.items) }
{
    let mut rows = Vec::with_capacity(alloc, masses.len())?;
    for row in 0..masses.len() {
        rows.push(answer_at(gains, masses, states, scale, row))?;
    }
    Ok(rows)
}
