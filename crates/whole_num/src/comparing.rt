//! The order of two fractions.

ghost use Rattle.std.specs.Prelude.{◌≡◌, ◌<◌};
ghost use Rattle.whole_num.specs.Fractions.{fraction_order};

use std::cmp::Ordering;

/// The order of a/b and c/d, found by whole parts and rests, since the products across may be wider
/// than 128 bits. It divides as often as Euclid's algorithm does for the shorter of the two
/// fractions.
pub fn compare_parts(a: u128, b: u128, c: u128, d: u128) -> Ordering
    requires b_positive { 0 < b }
    requires d_positive { 0 < d }
    ensures { result ≡ fraction_order a b c d }
{
    let (mut a, mut b, mut c, mut d) = (a, b, c, d);
    'parts: loop {
        let (whole, other) = (a / b, c / d);
        if whole != other {
            return whole.cmp(&other);
        }
        let (rest, beyond) = (a % b, c % d);
        if rest == 0 || beyond == 0 {
            return rest.cmp(&beyond);
        }
        // Of equal whole parts the rests decide: rest/b stands to beyond/d as d/beyond does to
        // b/rest.
        (a, b, c, d) = (d, beyond, b, rest);
    }
}
