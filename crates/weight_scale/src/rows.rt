//! One row of a chance table: its common divisor and its reduced numbers.

ghost use Rattle.std.specs.Prelude.{◌≡◌, ◌<◌, ◌≤◌, ◌+◌, ◌*◌, ◌/◌, ◌^◌, ◌++◌, All, IfOk, IfErr, OnOk, length, map, pos, sum};
ghost use Rattle.std.specs.Int.{◌∣◌};
ghost use Rattle.maid_model.specs.declared.limits.TheConstants.{MOST_DECIMALS};
ghost use Rattle.maid_model.specs.Diagrams.{greatest_number};
ghost use Rattle.weight_scale.specs.Range.{IsWithinRange};
ghost use Rattle.weight_scale.specs.Scaling.{raised, whole_number, row_at, IsGreatestDivisor};
ghost use Rattle.weight_scale.specs.Rows.{IsFinest, IsFiner, AppendsReduced, OnWide, IsWideRow, AppendsMultiples, AreWideShares, AppendsRowShares};

use crate::decimal::Decimal;
use crate::products::{divided_product, gcd_with_product};
use crate::scaling::ScaleFault;
use maid_model::GREATEST_NUMBER;
use std::alloc::AllocError;
use whole_num::{add_within, mul_within};

// Row r of a table that stands row by row.
pub(crate) fn row_at<T>(cells: &[T], states: usize, r: usize) -> &[T]
    requires positive { 0 < states }
    requires within { r < length cells.now / states }
    ensures row { result.now ≡ row_at states cells.now r }
    ensures len { length result.now ≡ states }
{
    &cells[r * states..(r + 1) * states]
}

// The number by whose decimals a row is raised.
#[derive(Clone, Copy)]
pub(crate) struct Pivot {
    pub(crate) size: u128,
    pub(crate) decimals: u32,
}

// Of the numbers that aren't nought, the first with the most decimals; nought where there is none.
pub(crate) fn finest(row: &[Decimal]) -> Pivot
    ensures { IsFinest row.now result.size result.decimals }
{
    let mut finest = Pivot {
        size: 0,
        decimals: 0,
    };
    for number in row {
        finest = finer(finest, *number);
    }
    finest
}

fn finer(finest: Pivot, number: Decimal) -> Pivot
    ensures { IsFiner finest.size finest.decimals number result.size result.decimals }
{
    if number.m == 0 || (finest.size != 0 && number.k <= finest.decimals) {
        return finest;
    }
    Pivot {
        size: number.m.unsigned_abs(),
        decimals: number.k,
    }
}

// The greatest common divisor of the row's numbers, raised by the decimals of the finest one. That
// one has no tens to take, so the divisor starts small and stays so.
fn common_divisor(row: &[Decimal], finest: Pivot) -> u128
    requires finest { IsFinest row.now finest.size finest.decimals }
    requires positive { 0 < finest.size }
    ensures greatest { IsGreatestDivisor (map (whole_number finest.decimals) row.now) result }
    ensures positive { 0 < result }
{
    let mut divisor = finest.size;
    for number in row {
        // 1 has no divisor but itself.
        if divisor == 1 {
            return 1;
        }
        let tens = number.tens(finest.decimals);
        divisor = gcd_with_product(divisor, number.m.unsigned_abs(), tens);
    }
    divisor
}

// Appends the row's numbers, raised and divided, and gives their total.
fn push_shares(
    reduced: &mut Vec<u128>,
    row: &[Decimal],
    decimals: u32,
    divisor: u128,
) -> Result<u128, ScaleFault>
    requires decimals { decimals ≤ MOST_DECIMALS }
    requires positive { 0 < divisor }
    requires divides { All (λ d. divisor ∣ whole_number decimals d) row.now }
    ensures ok { IfOk result (AppendsRowShares reduced.old reduced.new decimals divisor row.now) }
    ensures err { IfErr result (λ fault.
        OnWide fault (AreWideShares decimals divisor row.now)) }
{
    let mut total = 0;
    for number in row {
        let tens = number.tens(decimals);
        let Some(share) = divided_product(number.m.unsigned_abs(), tens, divisor) else {
            return Err(ScaleFault::WideWeight);
        };
        let Some(longer) = add_within(total, share, GREATEST_NUMBER) else {
            return Err(ScaleFault::WideWeight);
        };
        total = longer;
        reduced.push(share)?;
    }
    Ok(total)
}

// The number's size, raised by 10^decimals, if it isn't too great. Most numbers have as many
// decimals, and take no tens.
fn raised(number: Decimal, decimals: u32) -> Option<u128>
    requires { decimals ≤ MOST_DECIMALS }
    ensures { IsWithinRange result (whole_number decimals number) }
{
    let size = number.m.unsigned_abs();
    if decimals <= number.k {
        return Some(size);
    }
    mul_within(size, number.tens(decimals), GREATEST_NUMBER)
}

// Appends the row's numbers, raised, and gives their total: no number is divided, as in most rows.
#[inline(never)]
fn push_raised(reduced: &mut Vec<u128>, row: &[Decimal], decimals: u32) -> Result<u128, ScaleFault>
    requires { decimals ≤ MOST_DECIMALS }
    ensures ok { IfOk result (AppendsRowShares reduced.old reduced.new decimals 1 row.now) }
    ensures err { IfErr result (λ fault.
        OnWide fault (AreWideShares decimals 1 row.now)) }
{
    let mut total = 0;
    for number in row {
        let Some(share) = raised(*number, decimals) else {
            return Err(ScaleFault::WideWeight);
        };
        let Some(longer) = add_within(total, share, GREATEST_NUMBER) else {
            return Err(ScaleFault::WideWeight);
        };
        total = longer;
        reduced.push(share)?;
    }
    Ok(total)
}

// Appends the row's numbers, raised and divided, and gives their total.
fn push_row(
    reduced: &mut Vec<u128>,
    row: &[Decimal],
    decimals: u32,
    divisor: u128,
) -> Result<u128, ScaleFault>
    requires decimals { decimals ≤ MOST_DECIMALS }
    requires positive { 0 < divisor }
    requires divides { All (λ d. divisor ∣ whole_number decimals d) row.now }
    ensures ok { IfOk result (AppendsRowShares reduced.old reduced.new decimals divisor row.now) }
    ensures err { IfErr result (λ fault.
        OnWide fault (AreWideShares decimals divisor row.now)) }
{
    if divisor == 1 {
        return push_raised(reduced, row, decimals);
    }
    push_shares(reduced, row, decimals, divisor)
}

// Appends the reduced row, and gives its total.
pub(crate) fn push_reduced(reduced: &mut Vec<u128>, row: &[Decimal]) -> Result<u128, ScaleFault>
    requires { 0 < sum (raised row.now) }
    ensures ok { IfOk result (AppendsReduced (raised row.now) reduced.old.items
        reduced.new.items) }
    ensures err { IfErr result (λ fault. OnWide fault (IsWideRow (raised row.now))) }
{
    let finest = finest(row);
    let divisor = common_divisor(row, finest);
    push_row(reduced, row, finest.decimals, divisor)
}

pub(crate) fn row_total(row: &[u128]) -> u128
    requires { sum row.now < 2 ^ 128 }
    ensures { result ≡ sum row.now }
{
    row.iter().sum()
}

// Appends the numbers.
fn push_whole(weights: &mut Vec<i128>, row: &[u128]) -> Result<(), AllocError>
    requires { sum row.now ≤ greatest_number }
    ensures { OnOk result (weights.new.items
        ≡ weights.old.items ++ map (λ x. pos x) row.now) }
{
    for number in row {
        weights.push(*number as i128)?;
    }
    Ok(())
}

// Appends the reduced row's numbers, multiplied.
pub(crate) fn push_weights(
    weights: &mut Vec<i128>,
    row: &[u128],
    factor: u128,
) -> Result<(), AllocError>
    requires { sum row.now * factor ≤ greatest_number }
    ensures { OnOk result (AppendsMultiples factor row.now weights.old.items weights.new.items) }
{
    // In most tables all reduced rows have one total, and no number is multiplied.
    if factor == 1 {
        return push_whole(weights, row);
    }
    for number in row {
        weights.push((*number * factor) as i128)?;
    }
    Ok(())
}
