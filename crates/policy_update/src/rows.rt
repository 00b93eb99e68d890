//! The rows of one decision, improved.

ghost use Rattle.std.specs.Prelude.{◌≡◌, ◌<◌, ◌*◌, ◌↔◌, All, IfOk, IsTrue, length};
ghost use Rattle.maid_model.specs.Gains.{gain_in};
ghost use Rattle.reach_laws.specs.Updates.{IsImproved};
ghost use Rattle.policy_update.specs.Steps.{AreImprovedBy, KeepChoices, state_gain};

use maid_model::Row;
use rule_solver::row_gains;
use std::alloc::{AllocError, Global};

/// The choice where no state has a greater gain, and else the first state of greatest gain.
fn improved(gains: &[i128], choice: usize) -> usize
    requires { choice < length gains.now }
    ensures { IsImproved (state_gain gains.now) (length gains.now) choice result }
{
    let mut best = choice;
    for (state, gain) in gains.iter().enumerate() {
        if *gain > gains[best] {
            best = state;
        }
    }
    best
}

/// Whether each row keeps its choice: `gains` has a number for each row and state, the state
/// fastest.
pub(crate) fn keep_choices(gains: &[i128], states: usize, rows: &[Row]) -> bool
    requires all { length gains.now ≡ length rows.now * states }
    requires choices { All (λ r. r.choice < states) rows.now }
    ensures { IsTrue result ↔ KeepChoices (gain_in gains.now states) states rows.now }
{
    for (row, before) in rows.iter().enumerate() {
        let gains = row_gains(gains, rows.len(), states, row);
        if improved(gains, before.choice) != before.choice {
            return false;
        }
    }
    true
}

/// The rows, each improved: `gains` has a number for each row and state, the state fastest.
pub(crate) fn improved_rows(
    alloc: Global,
    gains: &[i128],
    states: usize,
    rows: &[Row],
) -> Result<Vec<Row>, AllocError>
    requires all { length gains.now ≡ length rows.now * states }
    requires choices { All (λ r. r.choice < states) rows.now }
    ensures { IfOk result (λ after. AreImprovedBy gains.now states rows.now after.items) }
{
    let mut after = Vec::with_capacity(alloc, rows.len())?;
    for (row, before) in rows.iter().enumerate() {
        let gains = row_gains(gains, rows.len(), states, row);
        after.push(Row {
            choice: improved(gains, before.choice),
            worth: None,
        })?;
    }
    Ok(after)
}
