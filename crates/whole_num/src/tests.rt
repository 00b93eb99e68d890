//! Each call once, at the ends of its range.

use super::*;
use std::cmp::Ordering;

#[test]
fn fractions_are_reduced(rt: HostRuntime) {
    for (num, den, want) in [(6, 4, (3, 2)), (-6, 4, (-3, 2)), (0, 7, (0, 1))] {
        assert_eq!(rt; reduce(num, den), want, "{num}/{den}");
    }
}

#[test]
fn divisors_and_multiples(rt: HostRuntime) {
    assert_eq!(rt; gcd(0, 0), 0);
    assert_eq!(rt; gcd(0, 6), 6);
    assert_eq!(rt; gcd(12, 18), 6);
    assert_eq!(rt; gcd(9, 28), 1);
    // Beyond 64 bits: both numbers, one of them, and one of them beside nought.
    assert_eq!(rt; gcd(12 << 64, 18 << 64), 6 << 64);
    assert_eq!(rt; gcd(48, 1 << 100), 16);
    assert_eq!(rt; gcd(1 << 100, 0), 1 << 100);
    assert_eq!(rt; lcm_within(4, 6, 12), Some(12));
    assert_eq!(rt; lcm_within(4, 6, 11), None);
}

#[test]
fn sums_and_products_stop(rt: HostRuntime) {
    assert_eq!(rt; add_within(1, 2, 3), Some(3));
    assert_eq!(rt; mul_within(3, 4, 11), None);
}

#[test]
fn fractions_stand_in_order(rt: HostRuntime) {
    // 2^127 - 2 over 2^128 - 5 is a little more than a half, and the next below a little less.
    let (near, whole) = (
        170141183460469231731687303715884105726,
        340282366920938463463374607431768211451,
    );
    assert_eq!(rt; compare_parts(near, whole, 1, 2), Ordering::Greater);
    assert_eq!(rt; compare_parts(near - 1, whole, 1, 2), Ordering::Less);
    assert_eq!(rt; compare_parts(1, 2, near, whole), Ordering::Less);
    assert_eq!(rt; compare_parts(6, 4, 3, 2), Ordering::Equal);
    assert_eq!(rt; compare_parts(0, 7, 0, 1), Ordering::Equal);
}
