//! A greatest common divisor and a quotient of products that may pass 128 bits: common factors go
//! before anything is multiplied.

ghost use Rattle.std.specs.Prelude.{◌<◌, ◌≤◌, ◌*◌, ◌/◌};
ghost use Rattle.std.specs.Int.{◌∣◌};
ghost use Rattle.std.specs.Option.{SomeIff};
ghost use Rattle.whole_num.specs.Divisors.{IsGcd};
ghost use Rattle.maid_model.specs.Diagrams.{greatest_number};

use maid_model::GREATEST_NUMBER;
use whole_num::{gcd, mul_within};

// The greatest common divisor of a and size * tens.
pub(crate) fn gcd_with_product(a: u128, size: u128, tens: u128) -> u128
    requires { 0 < a }
    ensures greatest { IsGcd a (size * tens) result }
    ensures positive { 0 < result }
{
    // A divisor of 1 stays 1, as in most rows: no division is needed.
    if a == 1 {
        return 1;
    }
    let common = gcd(a, size);
    // Most numbers take no tens, and one greatest common divisor is enough.
    if tens == 1 {
        return common;
    }
    common * gcd(a / common, tens)
}

// size * tens / divisor, if it isn't too great.
pub(crate) fn divided_product(size: u128, tens: u128, divisor: u128) -> Option<u128>
    requires positive { 0 < divisor }
    requires divides { divisor ∣ size * tens }
    ensures { SomeIff result (size * tens / divisor ≤ greatest_number) (size * tens / divisor) }
{
    if divisor == 1 {
        return mul_within(size, tens, GREATEST_NUMBER);
    }
    // Most numbers take no tens: the divisor is in the size, and one division is enough.
    if tens == 1 {
        return Some(size / divisor).filter(|quotient| *quotient <= GREATEST_NUMBER);
    }
    let common = gcd(size, divisor);
    mul_within(size / common, tens / (divisor / common), GREATEST_NUMBER)
}
