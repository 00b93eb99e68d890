//! Chance rows taken in proportion.

ghost use Rattle.std.specs.Prelude.{◌≡◌, ◌<◌, ◌≤◌, ◌/◌, ℕ, IfOk, IfErr, IfSome, IfNone, length};
ghost use Rattle.std.specs.Int.{◌∣◌};
ghost use Rattle.maid_model.specs.Diagrams.{greatest_number};
ghost use Rattle.maid_model.specs.Tables.{IsTable};
ghost use Rattle.whole_num.specs.Divisors.{IsLcm};
ghost use Rattle.weight_scale.specs.Scaling.{row_at, IsFirstNegative, NoneNegative, IsFirstZeroRow, NoZeroRow, IsTooWide, IsScaled, IsScaleFault, AreFaultless};
ghost use Rattle.weight_scale.specs.Rows.{HasPositiveTotals, IsMultipleOfTotals, ReducesAll, WeighsAll, OnWide};

use crate::decimal::Decimal;
use crate::rows::{finest, push_reduced, push_weights, row_at, row_total};
use maid_model::GREATEST_NUMBER;
use std::alloc::{AllocError, AllocFailed, Global};
use std::marker::Model;
use thiserror::Error;
use whole_num::lcm_within;

/// The rows of a chance table in whole numbers. Each row of weights adds up to `total`.
#[derive(Debug, Drop)]
pub struct Scaled {
    pub weights: Vec<i128>,
    pub total: u128,
}

impl Model for Scaled {
    ghost use Rattle.weight_scale.specs.Views.{ScaledView};

    ghost Value = { ScaledView };

    ghost view = { λ s. record { weights = s.weights.items; total = s.total } };
}

/// Why the rows of a chance table have no weights.
#[derive(Clone, Copy, Debug, PartialEq, Eq, Error)]
pub enum ScaleFault {
    /// The number at that place is the first below nought.
    #[error("negative at {place}")]
    Negative { place: usize },
    /// That row is the first of total nought.
    #[error("zero row {row}")]
    ZeroRow { row: usize },
    /// The least common multiple of the totals of the reduced rows is greater than 2^126 - 1.
    #[error("wide weight")]
    WideWeight,
    /// Memory ran out, which says nothing of the rows.
    #[error("out of memory")]
    NoMemory,
}

impl<T: Drop> From<AllocFailed<T>> for ScaleFault {
    ghost use Rattle.weight_scale.specs.declared.scaling.ScaleFault.TheVariants.{NoMemory};

    ghost from_gives = { λ _ fault. fault ≡ NoMemory };

    fn from(_failed: AllocFailed<T>) -> ScaleFault {
        ScaleFault::NoMemory
    }
}

impl From<AllocError> for ScaleFault {
    ghost use Rattle.weight_scale.specs.declared.scaling.ScaleFault.TheVariants.{NoMemory};

    ghost from_gives = { λ _ fault. fault ≡ NoMemory };

    fn from(_failed: AllocError) -> ScaleFault {
        ScaleFault::NoMemory
    }
}

// Rows over the greatest common divisors of their numbers, and the least common multiple of the
// totals.
#[derive(Drop)]
struct Reduced {
    numbers: Vec<u128>,
    total: u128,
}

fn first_negative(rows: &[Decimal]) -> Option<usize>
    ensures some { IfSome result (IsFirstNegative rows.now) }
    ensures none { IfNone result (NoneNegative rows.now) }
{
    for (place, number) in rows.iter().enumerate() {
        if number.m < 0 {
            return Some(place);
        }
    }
    None
}

fn first_zero_row(rows: &[Decimal], states: usize) -> Option<usize>
    requires { 0 < states }
    ensures some { IfSome result (IsFirstZeroRow rows.now states) }
    ensures none { IfNone result (NoZeroRow rows.now states (length rows.now / states)) }
{
    for r in 0..rows.len() / states {
        if finest(row_at(rows, states, r)).size == 0 {
            return Some(r);
        }
    }
    None
}

// The least common multiple of the common total so far and one more row's, if it isn't too great.
fn common_total(total: u128, added: u128) -> Option<u128>
    requires total { 0 < total }
    requires added { 0 < added }
    requires small { total ≤ greatest_number }
    ensures some { IfSome result (λ l. IsLcm total added l × (0 < l) × (l ≤ greatest_number)) }
    ensures none { IfNone result ((l : ℕ) × IsLcm total added l × (greatest_number < l)) }
{
    // Most rows have the total of the rows before, and a row of one number above nought has 1.
    if added == total || added == 1 {
        return Some(total);
    }
    lcm_within(total, added, GREATEST_NUMBER)
}

fn reduce_rows(alloc: Global, rows: &[Decimal], states: usize) -> Result<Reduced, ScaleFault>
    requires states { 0 < states }
    requires positive { NoZeroRow rows.now states (length rows.now / states) }
    requires whole { states ∣ length rows.now }
    ensures ok { IfOk result (ReducesAll rows.now states) }
    ensures small { IfOk result (λ reduced. reduced.total ≤ greatest_number) }
    ensures err { IfErr result (λ fault. OnWide fault (IsTooWide rows.now states)) }
{
    let mut numbers = Vec::with_capacity(alloc, rows.len())?;
    let mut total = 1;
    for r in 0..rows.len() / states {
        let added = push_reduced(&mut numbers, row_at(rows, states, r))?;
        let Some(common) = common_total(total, added) else {
            return Err(ScaleFault::WideWeight);
        };
        total = common;
    }
    Ok(Reduced { numbers, total })
}

// Each reduced row multiplied so that its total is the common one.
fn weigh_rows(
    alloc: Global,
    reduced: &[u128],
    states: usize,
    total: u128,
) -> Result<Vec<i128>, AllocError>
    requires states { 0 < states }
    requires some { 0 < total }
    requires small { total ≤ greatest_number }
    requires positive { HasPositiveTotals reduced.now states }
    requires multiple { IsMultipleOfTotals reduced.now states total }
    ensures { IfOk result (λ weights. WeighsAll reduced.now states total weights.items) }
{
    let mut weights = Vec::with_capacity(alloc, reduced.len())?;
    for r in 0..reduced.len() / states {
        let row = row_at(reduced, states, r);
        push_weights(&mut weights, row, total / row_total(row))?;
    }
    Ok(weights)
}

/// The weights of a chance table whose numbers stand row by row, with `states` numbers a row. Each
/// row is taken in proportion: raised to whole numbers by a power of ten and divided by their
/// greatest common divisor, it is the reduced row, and this is multiplied so that its total is the
/// least common multiple of the totals of all reduced rows.
///
/// Refused are, in this order, a number below nought, a row of total nought, and a common total
/// greater than 2^126 - 1; and want of memory, at any point. The cost is linear in the count of
/// numbers, with at most three greatest common divisors a number.
pub fn scale_rows(alloc: Global, rows: &[Decimal], states: usize) -> Result<Scaled, ScaleFault>
    requires states { 0 < states }
    requires whole { states ∣ length rows.now }
    ensures ok { IfOk result (IsScaled rows.now states) }
    ensures table { IfOk result (λ s. IsTable s.weights (length rows.now / states) states s.total) }
    ensures faultless { IfOk result (λ _. AreFaultless rows.now states) }
    ensures err { IfErr result (IsScaleFault rows.now states) }
{
    if let Some(place) = first_negative(rows) {
        return Err(ScaleFault::Negative { place });
    }
    if let Some(row) = first_zero_row(rows, states) {
        return Err(ScaleFault::ZeroRow { row });
    }
    let reduced = reduce_rows(alloc, rows, states)?;
    let weights = weigh_rows(alloc, &reduced.numbers, states, reduced.total)?;
    Ok(Scaled {
        weights,
        total: reduced.total,
    })
}
