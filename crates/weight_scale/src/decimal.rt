//! Decimals: whole numbers over powers of ten.

ghost use Rattle.std.specs.Prelude.{◌≡◌, ◌≤◌, ◌-◌, ◌^◌, unsigned_abs};
ghost use Rattle.maid_model.specs.declared.limits.TheConstants.{GREATEST_NUMBER, MOST_DECIMALS};

/// The number m / 10^k, where m lies from -(2^126 - 1) to 2^126 - 1 and k is at most 30.
#[derive(Clone, Copy, Debug, PartialEq, Eq)]
pub struct Decimal {
    pub m: i128,
    pub k: u32,
    ghost small: { unsigned_abs m ≤ GREATEST_NUMBER },
    ghost few: { k ≤ MOST_DECIMALS },
}

impl Decimal {
    // The power of ten by which the number is raised when its row is raised by 10^decimals.
    pub(crate) fn tens(self, decimals: u32) -> u128
        requires { decimals ≤ MOST_DECIMALS }
        ensures { result ≡ 10 ^ (decimals - self.k) }
    {
        // Most numbers of a row have as many decimals as its finest one has.
        if decimals <= self.k {
            return 1;
        }
        10u128.pow(decimals - self.k)
    }
}
