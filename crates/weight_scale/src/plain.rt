//! Tables of whole numbers that are weights as they stand, as most are.

ghost use Rattle.std.specs.Prelude.{◌≡◌, ◌<◌, ◌≤ℤ◌, ℕ, All, Decides, IfSome, IfNone, length, pos, unsigned_abs};
ghost use Rattle.std.specs.Int.{◌∣◌};
ghost use Rattle.weight_scale.specs.Plain.{ShareNone, AddsUpTo, ArePlainRows, AreOwnTable, AreOwnWeights, AreFaultlessAlone, HaveTotal};

use crate::rows::row_at;
use maid_model::GREATEST_NUMBER;
use whole_num::{add_within, gcd};

// The number without its sign.
fn size(number: i128) -> u128
    ensures { result ≡ unsigned_abs number }
{
    number.unsigned_abs()
}

// No number but 1 divides all of these.
fn share_none(numbers: &[i128]) -> bool
    ensures { Decides result (ShareNone numbers.now) }
{
    let mut divisor = 0;
    for number in numbers {
        divisor = gcd(divisor, size(*number));
        if divisor == 1 {
            return true;
        }
    }
    false
}

// What the row's numbers add up to, if it isn't too great.
fn total_within(row: &[i128]) -> Option<u128>
    ensures some { IfSome result (AddsUpTo row.now) }
    ensures none { IfNone result ((total : ℕ) → AddsUpTo row.now total → ⊥) }
{
    let mut total = 0;
    for number in row {
        total = add_within(total, size(*number), GREATEST_NUMBER)?;
    }
    Some(total)
}

// The total of all rows, where they have one, and there is a row.
fn common_total(cells: &[i128], states: usize) -> Option<u128>
    requires { 0 < states }
    ensures some { IfSome result (HaveTotal cells.now states) }
    ensures none { IfNone result ((total : ℕ) → HaveTotal cells.now states total → ⊥) }
{
    if cells.len() < states {
        return None;
    }
    let total = total_within(row_at(cells, states, 0))?;
    for r in 1..cells.len() / states {
        if total_within(row_at(cells, states, r))? != total {
            return None;
        }
    }
    Some(total)
}

/// The common total of a chance table's rows, where its numbers are whole and are the table's
/// weights as they stand: all rows have one total, within the limits, and the numbers of all rows
/// together share no divisor but 1, so that the least common multiple of the reduced rows' totals
/// is that total. Other rows have other weights or none, and `None` here. It stops at the first row
/// of another total, and looks for divisors only until 1 is left.
pub fn plain_total(cells: &[i128], states: usize) -> Option<u128>
    requires states { 0 < states }
    requires whole { states ∣ length cells.now }
    requires above { All (λ x. pos 0 ≤ℤ x) cells.now }
    ensures plain { IfSome result (ArePlainRows cells.now states) }
    ensures none { IfNone result ((total : ℕ) → ArePlainRows cells.now states total → ⊥) }
    ensures scaled { IfSome result (AreOwnWeights cells.now states) }
    ensures table { IfSome result (AreOwnTable cells.now states) }
    ensures faultless { IfSome result (λ _. AreFaultlessAlone cells.now states) }
{
    let total = common_total(cells, states)?;
    if !share_none(cells) {
        return None;
    }
    Some(total)
}
