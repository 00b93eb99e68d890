//! Numbers and fractions, read back from their text.

ghost use Rattle.std.specs.Prelude.{◌≡◌, ◌≢◌, ◌<◌, ◌^◌, ◌↔◌, ℕ, ℤ, decimal, IsTrue, IfSome, IfNone, FitsSigned};
ghost use Rattle.std.specs.Fmt.{signed_decimal};
ghost use Rattle.std.specs.Int.{w128};
ghost use Rattle.maid_model.specs.Answers.{IsReduced};
ghost use Rattle.maid_model.specs.Reports.{ratio_text};
ghost use Rattle.maid_model.specs.declared.answers.Ratio.{Ratio};
ghost use Rattle.report_text.specs.Reading.{FitsRatio};
ghost use Rattle.report_text.specs.Slots.{den_text};

use crate::cuts::front;
use itoa::Buffer;
use maid_model::Ratio;
use std::str;
use whole_num::gcd;

/// The number of which these are the decimal digits.
pub(crate) fn whole(bytes: &[u8]) -> Option<u128>
    ensures some { IfSome result (λ n. bytes.now ≡ decimal n) }
    ensures none { IfNone result ((n : ℕ) → n < 2 ^ 128 → bytes.now ≢ decimal n) }
{
    let Ok(text) = str::from_utf8(bytes) else {
        return None;
    };
    let Ok(number) = text.parse::<u128>() else {
        return None;
    };
    if Buffer::new().format(number) == text {
        Some(number)
    } else {
        None
    }
}

// The same with a minus before a number below nought.
fn signed(bytes: &[u8]) -> Option<i128>
    ensures some { IfSome result (λ z. bytes.now ≡ signed_decimal z) }
    ensures none { IfNone result ((z : ℤ) → FitsSigned w128 z → bytes.now ≢ signed_decimal z) }
{
    let Ok(text) = str::from_utf8(bytes) else {
        return None;
    };
    let Ok(integer) = text.parse::<i128>() else {
        return None;
    };
    if Buffer::new().format(integer) == text {
        Some(integer)
    } else {
        None
    }
}

// The denominator that is written behind a numerator. One is not written.
fn denominator(bytes: &[u8]) -> Option<u128>
    ensures some { IfSome result (λ den. bytes.now ≡ den_text den) }
    ensures none { IfNone result ((den : ℕ) → den < 2 ^ 128 → bytes.now ≢ den_text den) }
{
    match bytes {
        [] => Some(1),
        [b'/', digits @ ..] => match whole(digits) {
            Some(den) if den != 1 => Some(den),
            _ => None,
        },
        _ => None,
    }
}

fn is_reduced(ratio: &Ratio) -> bool
    ensures { IsTrue result ↔ IsReduced ratio.now }
{
    ratio.den > 0 && gcd(ratio.num.unsigned_abs(), ratio.den) == 1
}

/// The reduced fraction of which this is the text.
pub(crate) fn read_ratio(bytes: &[u8]) -> Option<Ratio>
    ensures some { IfSome result (λ r. FitsRatio r × (bytes.now ≡ ratio_text r)) }
    ensures none { IfNone result ((r : Ratio) → FitsRatio r → bytes.now ≢ ratio_text r) }
{
    let (num, rest) = front(bytes, b'/');
    let (Some(num), Some(den)) = (signed(num), denominator(rest)) else {
        return None;
    };
    let ratio = Ratio { num, den };
    if is_reduced(&ratio) {
        Some(ratio)
    } else {
        None
    }
}
