//! The rows of a report.

ghost use Rattle.std.specs.Prelude.{◌≡◌, ◌<◌, ◌≤◌, ◌↔◌, ◌*◌, ℕ, All, IfOk, IfSome, IsTrue, length, pos, nat_abs, slice_index, slice_index_or};
ghost use Rattle.maid_model.specs.Answers.{IsFraction, IsReduced};
ghost use Rattle.maid_model.specs.Diagrams.{greatest_number};
ghost use Rattle.maid_model.specs.Nodes.{IsDecision, rows_of, states_of};
ghost use Rattle.maid_model.specs.Profiles.{IsProfile};
ghost use Rattle.maid_model.specs.Scopes.{KeepsScopedBounds};
ghost use Rattle.maid_model.specs.Gains.{AreSmallGains};
ghost use Rattle.part_laws.specs.ScopeLaws.{HasUnitRules};
ghost use Rattle.relevance_graph.specs.Relevant.{IsRelevance};
ghost use Rattle.tree_checker.specs.Judged.{JudgesAnswer, JudgesRow, JudgesListed, ListsRow, listed_gain};
ghost use Rattle.tree_checker.specs.Verdicts.{HasBetter};

use crate::bases::base_of;
use crate::decisions::{RowSums, scope_sums};
use crate::verdicts::Cause;
use maid_model::{Diagram, Profile, Ratio, Row};
use part_laws::{
    law_of_parts, parts_are_diagrams, parts_decide, scoped_sums_fit, scopes_are_parts,
};
use relevance_graph::Relevance;
use std::alloc::{AllocError, Global};
use whole_num::reduce;

/// The first row of a decision that fails, counted from 0, and why it does.
#[derive(Clone, Copy)]
pub(crate) struct RowFault {
    pub row: usize,
    pub cause: Cause,
}

/// Whether the fraction, which is in lowest terms, is that one. Cross products might not fit.
pub(crate) fn is_fraction(ratio: Ratio, num: i128, den: u128) -> bool
    requires reduced { IsReduced ratio }
    requires den { 0 < den }
    requires num { nat_abs num ≤ greatest_number }
    ensures { IsTrue result ↔ IsFraction ratio num den }
{
    let (num, den) = reduce(num, den);
    ratio.num == num && ratio.den == den
}

/// Whether some state has a greater gain than the choice.
fn has_better(gains: &[i128], choice: usize) -> bool
    requires { choice < length gains.now }
    ensures { IsTrue result ↔ HasBetter (listed_gain gains.now) (length gains.now) choice }
{
    let chosen = gains[choice];
    for gain in gains {
        if *gain > chosen {
            return true;
        }
    }
    false
}

/// Why the row fails whose states have these gains, if it does.
fn row_fault(row: &Row, gains: &[i128], mass: u128, scale: u128) -> Option<Cause>
    requires choice { row.now.choice < length gains.now }
    requires reduced { IfSome row.now.worth IsReduced }
    requires scale { 0 < scale }
    requires room { mass * scale ≤ greatest_number }
    requires small { All (λ gain. nat_abs gain ≤ greatest_number) gains.now }
    ensures { JudgesRow (listed_gain gains.now) (length gains.now) (pos mass) scale row.now result }
{
    let Some(worth) = row.worth else {
        return if mass == 0 { None } else { Some(Cause::Never) };
    };
    if mass == 0 {
        Some(Cause::Never)
    } else if has_better(gains, row.choice) {
        Some(Cause::Choice)
    } else if is_fraction(worth, gains[row.choice], mass * scale) {
        None
    } else {
        Some(Cause::Worth)
    }
}

/// The gains of the states in one row.
fn row_gains(gains: &[i128], rows: usize, states: usize, row: usize) -> &[i128]
    requires all { length gains.now ≡ rows * states }
    requires row { row < rows }
    requires small { (i : ℕ) → nat_abs (slice_index_or gains.now i (pos 0)) ≤ greatest_number }
    ensures count { length result.now ≡ states }
    ensures gains { ListsRow gains.now states row result.now }
    ensures small { All (λ gain. nat_abs gain ≤ greatest_number) result.now }
{
    let start = row * states;
    &gains[start..start + states]
}

/// The first of a decision's rows that fails, by the sums against its base.
fn first_fault(rows: &[Row], sums: &RowSums, states: usize, scale: u128) -> Option<RowFault>
    requires gains { length sums.now.gains.items ≡ length rows.now * states }
    requires masses { length sums.now.masses.items ≡ length rows.now }
    requires choices { All (λ row. row.choice < states) rows.now }
    requires reduced { All (λ row. IfSome row.worth IsReduced) rows.now }
    requires scale { 0 < scale }
    requires room { (row : ℕ) → slice_index sums.now.masses.items row * scale ≤ greatest_number }
    requires small { AreSmallGains sums.now.gains.items }
    ensures { JudgesListed sums.now.gains.items sums.now.masses.items states scale rows.now result }
{
    for (place, row) in rows.iter().enumerate() {
        let gains = row_gains(&sums.gains, rows.len(), states, place);
        if let Some(cause) = row_fault(row, gains, sums.masses[place], scale) {
            return Some(RowFault { row: place, cause });
        }
    }
    None
}

/// The first of the answered rows of the decision that fails against the decision's base in the
/// chosen rules.
pub(crate) fn answer_fault(
    alloc: Global,
    diagram: &Diagram,
    relevance: &Relevance,
    chosen: &Profile,
    decision: usize,
    rows: &[Row],
) -> Result<Option<RowFault>, AllocError>
    requires relevance { IsRelevance diagram.now.nodes relevance.now }
    requires chosen { IsProfile diagram.now.nodes chosen.now }
    requires pure { HasUnitRules diagram.now.nodes chosen.now }
    requires bound { KeepsScopedBounds diagram.now }
    requires decision { IsDecision diagram.now.nodes decision }
    requires count { length rows.now ≡ rows_of diagram.now.nodes decision }
    requires choices { All (λ row. row.choice < states_of diagram.now.nodes decision) rows.now }
    requires reduced { All (λ row. IfSome row.worth IsReduced) rows.now }
    ensures { IfOk result (JudgesAnswer diagram.now chosen.now decision rows.now) }
{
    // The part of the scope decides as the whole does.
    parts_are_diagrams();
    scopes_are_parts();
    scoped_sums_fit();
    law_of_parts();
    parts_decide();
    let states = diagram.states(decision);
    let base = base_of(alloc, diagram, relevance, chosen, decision)?;
    let sums = scope_sums(alloc, diagram, &base, decision)?;
    Ok(first_fault(rows, &sums, states, diagram.scale()))
}
