//! Divisors and fractions of two numbers of 64 bits. Most have no more, and none of these needs a
//! division of 128 bits.

ghost use Rattle.std.specs.Prelude.{◌≡◌, ◌<◌, ◌≤◌, ◌*◌, ◌/◌, ◌%◌, ◌^◌, ◌⊎◌};
ghost use Rattle.std.specs.Int.{◌∣◌};
ghost use Rattle.whole_num.specs.Divisors.{IsGcd};

/// The greatest common divisor of an odd number and another, by shifts and differences (Stein
/// 1967).
fn odd_gcd(odd: u64, other: u64) -> u64
    requires { odd % 2 ≡ 1 }
    ensures { IsGcd odd other result }
{
    let (mut a, mut b) = (odd, other);
    while b != 0 {
        let c = b >> b.trailing_zeros();
        b = a.abs_diff(c);
        a = a.min(c);
    }
    a
}

/// How many times 2 divides both of two positive numbers.
fn common_twos(a: u64, b: u64) -> u32
    requires a_positive { 0 < a }
    requires b_positive { 0 < b }
    ensures in_a { 2 ^ result ∣ a }
    ensures in_b { 2 ^ result ∣ b }
    ensures odd { (a / 2 ^ result % 2 ≡ 1) ⊎ (b / 2 ^ result % 2 ≡ 1) }
    ensures within { result < 64 }
{
    a.trailing_zeros().min(b.trailing_zeros())
}

/// The same fraction, of which one of the numbers is odd.
fn without_twos(num: u64, den: u64) -> (u64, u64)
    requires num { 0 < num }
    requires den { 0 < den }
    ensures same { result.0 * den ≡ num * result.1 }
    ensures odd { (result.0 % 2 ≡ 1) ⊎ (result.1 % 2 ≡ 1) }
    ensures positive { 0 < result.1 }
    ensures no_greater_num { result.0 ≤ num }
    ensures no_greater_den { result.1 ≤ den }
{
    let twos = common_twos(num, den);
    (num >> twos, den >> twos)
}

/// The greatest common divisor of two numbers, one of which is odd.
fn common_divisor(a: u64, b: u64) -> u64
    requires { (a % 2 ≡ 1) ⊎ (b % 2 ≡ 1) }
    ensures { IsGcd a b result }
{
    if a % 2 == 1 {
        odd_gcd(a, b)
    } else {
        odd_gcd(b, a)
    }
}

/// The greatest common divisor: the twos that both numbers have, times that of what is left.
pub(crate) fn gcd_small(a: u64, b: u64) -> u64
    ensures { IsGcd a b result }
{
    if a == 0 {
        return b;
    }
    if b == 0 {
        return a;
    }
    let twos = common_twos(a, b);
    common_divisor(a >> twos, b >> twos) << twos
}

/// The fraction of two positive numbers in lowest terms.
pub(crate) fn reduce_small(num: u64, den: u64) -> (u64, u64)
    requires num { 0 < num }
    requires den { 0 < den }
    ensures same { result.0 * den ≡ num * result.1 }
    ensures positive { 0 < result.1 }
    ensures coprime { IsGcd result.0 result.1 1 }
    ensures no_greater_num { result.0 ≤ num }
    ensures no_greater_den { result.1 ≤ den }
{
    let (num, den) = without_twos(num, den);
    let divisor = common_divisor(num, den);
    if divisor == 1 {
        return (num, den);
    }
    (num / divisor, den / divisor)
}
