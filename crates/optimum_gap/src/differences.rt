//! Differences of fractions.

ghost use Rattle.std.specs.Prelude.{◌≡◌, ◌≤◌, ◌*ℤ◌, pos, nat_abs};
ghost use Rattle.maid_model.specs.Diagrams.{greatest_number};
ghost use Rattle.maid_model.specs.Values.{IsDifference};
ghost use Rattle.optimum_gap.specs.Fractions.{CanWiden, ShareDenominator};

use maid_model::{GREATEST_NUMBER, Ratio};
use whole_num::{lcm_within, reduce};

/// The fraction's numerator over a multiple of its denominator.
fn widened(value: Ratio, den: u128) -> i128
    requires { CanWiden value den }
    ensures is { result *ℤ pos value.den ≡ value.num *ℤ pos den }
    ensures small { nat_abs result ≤ greatest_number }
{
    value.num * (den / value.den) as i128
}

/// The difference of two fractions in lowest terms. The products across may pass 128 bits, but over
/// the least common multiple of the denominators both numerators keep the range where some common
/// denominator lets them.
pub(crate) fn difference(more: Ratio, less: Ratio) -> Ratio
    requires { ShareDenominator more less }
    ensures { IsDifference result more less }
{
    match lcm_within(more.den, less.den, GREATEST_NUMBER) {
        Some(den) => {
            let (num, den) = reduce(widened(more, den) - widened(less, den), den);
            Ratio { num, den }
        }
        None => unreachable!(),
    }
}
