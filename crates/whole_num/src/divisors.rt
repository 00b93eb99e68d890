//! Common divisors and common multiples.

ghost use Rattle.std.specs.Prelude.{◌<◌, ◌≤◌, ◌+◌, ℕ, IfSome, IfNone};
ghost use Rattle.whole_num.specs.Divisors.{IsGcd, IsLcm};

use crate::halving::gcd_small;
use crate::mul_within;

/// The greatest common divisor; of 0 and 0 it is 0. While a number has more than 64 bits by
/// Euclid's algorithm: at most five divisions for each decimal digit of the smaller number. From
/// then on it shifts and subtracts, and two numbers of 64 bits are never divided.
pub fn gcd(a: u128, b: u128) -> u128
    ensures greatest { IsGcd a b result }
    ensures positive { 0 < a + b → 0 < result }
{
    let (mut x, mut y) = (a, b);
    'euclid: while x.max(y) > u64::MAX as u128 {
        if y == 0 {
            return x;
        }
        (x, y) = (y, x % y);
    }
    gcd_small(x as u64, y as u64) as u128
}

/// The least common multiple of two positive numbers, or `None` where it exceeds the limit.
pub fn lcm_within(a: u128, b: u128, limit: u128) -> Option<u128>
    requires a_positive { 0 < a }
    requires b_positive { 0 < b }
    ensures some { IfSome result (λ l. IsLcm a b l × (0 < l) × (l ≤ limit)) }
    ensures none { IfNone result ((l : ℕ) × IsLcm a b l × (limit < l)) }
{
    mul_within(a / gcd(a, b), b, limit)
}
