//! Utility values as whole numbers, all to one scale.

ghost use Rattle.std.specs.Prelude.{◌≡◌, ◌↔◌, IsTrue, ◌<◌, ◌≤◌, All, map, length, true, None, IfOk};
ghost use Rattle.std.specs.Option.{SomeIff};
ghost use Rattle.maid_model.specs.declared.limits.TheConstants.{MOST_DECIMALS};
ghost use Rattle.maid_model.specs.Diagrams.{greatest_number};
ghost use Rattle.net_build.specs.Blocks.{is_number};
ghost use Rattle.first_fault.specs.Passes.{each};
ghost use Rattle.first_fault.specs.Answers.{Passes};
ghost use Rattle.net_build.specs.Passes.{build_fault};
ghost use Rattle.net_build.specs.Table.{length_row, wide_row};
ghost use Rattle.net_build.specs.Answered.{IfFound, IfNotFound};
ghost use Rattle.net_build.specs.TableParts.{IsReachedIn, IsScaleOf, scaled_pass, value_at_scale, Fits, FitsRaised, PassesValues, raised_by};
ghost use Rattle.net_lexer.specs.Token.{IsTokenOf};
ghost use Rattle.weight_scale.specs.Numeral.{signed};

use crate::faults::{BuildFault, BuildKind};
use crate::numbers::decimals;
use maid_model::GREATEST_NUMBER;
use net_lexer::Token;
use std::alloc::{AllocError, Global};
use weight_scale::Decimal;
use whole_num::mul_within;

/// The most decimals that one of the numbers has.
pub fn most_decimals(decimals: &[Decimal]) -> u32
    ensures most { All (λ d. d.k ≤ result) decimals.now }
    ensures reached { 0 < result → IsReachedIn decimals.now result }
    ensures few { result ≤ MOST_DECIMALS }
{
    let mut most = 0;
    for decimal in decimals {
        if decimal.k > most {
            most = decimal.k;
        }
    }
    most
}

fn signed(minus: bool, size: u128) -> i128
    requires { size ≤ greatest_number }
    ensures { result ≡ signed minus size }
{
    if minus { -(size as i128) } else { size as i128 }
}

// The number times 10^scale, where that lies within the limits.
fn scaled(number: Decimal, scale: u32) -> Option<i128>
    requires enough { number.k ≤ scale }
    requires few { scale ≤ MOST_DECIMALS }
    ensures { SomeIff result (Fits scale number) (value_at_scale scale number) }
{
    // Most numbers have as many decimals as the finest one has.
    if number.k == scale {
        return Some(number.m);
    }
    let tens = 10u128.pow(scale - number.k);
    let size = mul_within(number.m.unsigned_abs(), tens, GREATEST_NUMBER)?;
    Some(signed(number.m < 0, size))
}

/// Each number, to scale, lies within the limits.
pub fn all_fit(decimals: &[Decimal], scale: u32) -> bool
    requires enough { All (λ d. d.k ≤ scale) decimals.now }
    requires few { scale ≤ MOST_DECIMALS }
    ensures { IsTrue result ↔ All (Fits scale) decimals.now }
{
    for decimal in decimals {
        if scaled(*decimal, scale).is_none() {
            return false;
        }
    }
    true
}

// Each number, to scale, lies within the limits.
fn check_wide(tokens: &[Token], decimals: &[Decimal], scale: u32) -> Result<(), BuildFault>
    requires len { length decimals.now ≡ length tokens.now }
    requires enough { All (λ d. d.k ≤ scale) decimals.now }
    requires few { scale ≤ MOST_DECIMALS }
    ensures { PassesValues scale tokens.now decimals.now result }
{
    for (place, token) in tokens.iter().enumerate() {
        if scaled(decimals[place], scale).is_none() {
            return Err(BuildKind::WideValue.at(token.start));
        }
    }
    Ok(())
}

/// By how many decimals these numbers are scaled: the least number that makes each of them whole.
/// Refused is the first that is too great or too little to that scale.
pub fn scale_of(alloc: Global, text: &[u8], tokens: &[Token]) -> Result<u32, BuildFault>
    requires own { All (IsTokenOf text.now) tokens.now }
    requires numbers { All (λ t. is_number t.kind ≡ true) tokens.now }
    requires short { each (length_row text.now) tokens.now None }
    ensures rows { Passes build_fault (scaled_pass text.now tokens.now) result }
    ensures scale { IfOk result (λ scale. IsScaleOf text.now tokens.now scale) }
    ensures narrow { IfOk result (λ scale. each (wide_row text.now scale) tokens.now None) }
    ensures few { IfOk result (λ scale. scale ≤ MOST_DECIMALS) }
{
    let decimals = decimals(alloc, text, tokens)?;
    let scale = most_decimals(&decimals);
    check_wide(tokens, &decimals, scale)?;
    Ok(scale)
}

/// The numbers times 10^scale, where each of them then lies within the limits.
pub fn cells_within(
    alloc: Global,
    decimals: &[Decimal],
    scale: u32,
) -> Result<Option<Vec<i128>>, AllocError>
    requires enough { All (λ d. d.k ≤ scale) decimals.now }
    requires few { scale ≤ MOST_DECIMALS }
    ensures cells { IfFound result (λ c. c.items ≡ map (value_at_scale scale) decimals.now) }
    ensures fit { IfFound result (λ _. All (Fits scale) decimals.now) }
    ensures none { IfNotFound result (All (Fits scale) decimals.now → ⊥) }
{
    let mut cells = Vec::with_capacity(alloc, decimals.len())?;
    for decimal in decimals {
        let Some(cell) = scaled(*decimal, scale) else {
            return Ok(None);
        };
        cells.push(cell)?;
    }
    Ok(Some(cells))
}

/// The numbers times 10^scale.
pub fn scaled_cells(
    alloc: Global,
    decimals: &[Decimal],
    scale: u32,
) -> Result<Vec<i128>, AllocError>
    requires enough { All (λ d. d.k ≤ scale) decimals.now }
    requires few { scale ≤ MOST_DECIMALS }
    requires narrow { All (Fits scale) decimals.now }
    ensures { IfOk result (λ cells. cells.items ≡ map (value_at_scale scale) decimals.now) }
{
    match cells_within(alloc, decimals, scale)? {
        Some(cells) => Ok(cells),
        None => unreachable!(),
    }
}

/// Each cell times 10^decimals lies within the limits.
pub fn can_raise(cells: &[i128], decimals: u32) -> bool
    requires few { decimals ≤ MOST_DECIMALS }
    ensures { IsTrue result ↔ All (FitsRaised decimals) cells.now }
{
    let most = GREATEST_NUMBER / 10u128.pow(decimals);
    for cell in cells {
        if cell.unsigned_abs() > most {
            return false;
        }
    }
    true
}

/// Multiplies each cell by 10^decimals.
pub fn raise(cells: &mut [i128], decimals: u32)
    requires few { decimals ≤ MOST_DECIMALS }
    requires narrow { All (FitsRaised decimals) cells.old }
    ensures { cells.new ≡ map (raised_by decimals) cells.old }
{
    if decimals == 0 {
        return;
    }
    let tens = 10u128.pow(decimals) as i128;
    for cell in cells.iter_mut() {
        *cell *= tens;
    }
}
