//! Fractions in lowest terms.

ghost use Rattle.std.specs.Prelude.{◌≡◌, ◌≢◌, ◌<◌, ◌≤◌, if◌then◌else◌, neg_ℤ, pos, unsigned_abs};
ghost use Rattle.whole_num.specs.Fractions.{IsSameFraction, IsInLowestTerms};

use crate::gcd;
use crate::halving::reduce_small;

/// The number of that size, below nought where it is negative.
fn with_sign(size: u64, negative: bool) -> i128
    ensures { result ≡ (if negative then neg_ℤ (pos size) else pos size) }
{
    if negative {
        -(size as i128)
    } else {
        size as i128
    }
}

/// The same fraction in lowest terms: the numerator keeps its sign, the denominator is positive,
/// and nought is 0 over 1. Where both numbers have 64 bits it divides none of 128.
pub fn reduce(num: i128, den: u128) -> (i128, u128)
    requires positive { 0 < den }
    requires not_least { num ≢ i128.MIN }
    ensures same { IsSameFraction num den result.0 result.1 }
    ensures reduced { IsInLowestTerms result.0 result.1 }
    ensures nought { num ≡ pos 0 → result ≡ (pos 0, 1) }
    ensures no_greater_num { unsigned_abs result.0 ≤ unsigned_abs num }
    ensures no_greater_den { result.1 ≤ den }
{
    if num == 0 {
        return (0, 1);
    }
    let size = num.unsigned_abs();
    if size.max(den) > u64::MAX as u128 {
        let divisor = gcd(size, den);
        return (num / divisor as i128, den / divisor);
    }
    let (size, den) = reduce_small(size as u64, den as u64);
    (with_sign(size, num < 0), den as u128)
}
