//! Sums and products that stop at a limit.

ghost use Rattle.std.specs.Prelude.{◌≤◌, ◌+◌, ◌*◌};
ghost use Rattle.std.specs.Option.{SomeIff};

/// The sum, or `None` where it exceeds the limit.
pub fn add_within(a: u128, b: u128, limit: u128) -> Option<u128>
    ensures { SomeIff result (a + b ≤ limit) (a + b) }
{
    a.checked_add(b).filter(|sum| *sum <= limit)
}

/// The product, or `None` where it exceeds the limit.
pub fn mul_within(a: u128, b: u128, limit: u128) -> Option<u128>
    ensures { SomeIff result (a * b ≤ limit) (a * b) }
{
    a.checked_mul(b).filter(|product| *product <= limit)
}
