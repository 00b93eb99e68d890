//! The decimal of a numeral.

ghost use Rattle.std.specs.Prelude.{◌≡◌, ◌<◌, ◌≤◌, ◌≤ℤ◌, ◌+◌, ◌*◌, ◌%◌, ◌^◌, true, ℕ, List, IfSome, IfNone, pos, if◌then◌else◌};
ghost use Rattle.std.specs.Option.{SomeIff};
ghost use Rattle.std.specs.List.{list_all};
ghost use Rattle.net_lexer.specs.Bytes.{is_digit};
ghost use Rattle.net_lexer.specs.Numerals.{is_numeral};
ghost use Rattle.weight_scale.specs.Numeral.{number_of, AreFewDigits, signed, numerator, denominator, IsLeastDecimalOf, HasNoDecimal, IsDecimalOfNumeral, IsWholeNumeral};
ghost use Rattle.weight_scale.specs.Significant.{HasFewDecimals, HaveTooManyDigits, TellsSignificand, HasSmallParts, HaveNoDecimal, IsLeastDecimalOfParts};

use crate::Decimal;
use crate::digits::{
    append_digits, append_few, exponent_size, few_digits, is_minus, last_decimals, split_digits,
    split_numeral, without_trailing_noughts,
};
use maid_model::GREATEST_NUMBER;
use whole_num::mul_within;

// With more tens than these a number exceeds the greatest size.
const MOST_TENS: u128 = 38;

// The most digits that a decimal has behind the point.
const MOST_DECIMALS: u128 = maid_model::MOST_DECIMALS as u128;

// The number size * 10^above / 10^below.
#[derive(Clone, Copy)]
struct Scientific {
    size: u128,
    above: u128,
    below: u128,
}

// The digits before and behind the point, without the noughts at their end, if they aren't too
// many.
fn significand(whole: &[u8], decimals: &[u8]) -> Option<Scientific>
    requires whole_digits { list_all is_digit whole.now ≡ true }
    requires decimal_digits { list_all is_digit decimals.now ≡ true }
    ensures some { IfSome result (TellsSignificand whole.now decimals.now) }
    ensures small { IfSome result HasSmallParts }
    ensures none { IfNone result (HaveTooManyDigits whole.now decimals.now) }
{
    let kept = without_trailing_noughts(decimals);
    if kept.is_empty() {
        let kept = without_trailing_noughts(whole);
        let size = append_digits(0, kept)?;
        Some(Scientific {
            size,
            above: (whole.len() - kept.len()) as u128,
            below: 0,
        })
    } else {
        let size = append_digits(append_digits(0, whole)?, kept)?;
        Some(Scientific {
            size,
            above: 0,
            below: kept.len() as u128,
        })
    }
}

fn signed(minus: bool, size: u128) -> i128
    requires { size < 2 ^ 126 }
    ensures { result ≡ signed minus size }
{
    if minus { -(size as i128) } else { size as i128 }
}

// The whole number size * 10^tens, if it isn't too great.
fn with_tens(minus: bool, size: u128, tens: u128) -> Option<Decimal>
    requires { 0 < size }
    ensures some { IfSome result (λ d. IsLeastDecimalOf (signed minus (size * 10 ^ tens)) 1 d) }
    ensures none { IfNone result (HasNoDecimal (signed minus (size * 10 ^ tens)) 1) }
{
    if tens > MOST_TENS {
        return None;
    }
    let size = mul_within(size, 10u128.pow(tens as u32), GREATEST_NUMBER)?;
    Some(Decimal {
        m: signed(minus, size),
        k: 0,
    })
}

// The number size / 10^decimals, if there aren't too many.
fn with_decimals(minus: bool, size: u128, decimals: u128) -> Option<Decimal>
    requires last { 0 < size % 10 }
    requires small { size < 2 ^ 126 }
    ensures some { IfSome result (λ d. IsLeastDecimalOf (signed minus size) (10 ^ decimals) d) }
    ensures none { IfNone result (HasNoDecimal (signed minus size) (10 ^ decimals)) }
{
    if decimals > MOST_DECIMALS {
        return None;
    }
    Some(Decimal {
        m: signed(minus, size),
        k: decimals as u32,
    })
}

impl Scientific {
    // The number times 10^tens, or over it.
    fn shifted(self, down: bool, tens: u128) -> Scientific
        requires above { self.above + tens < 2 ^ 128 }
        requires below { self.below + tens < 2 ^ 128 }
        ensures size { result.size ≡ self.size }
        ensures above { result.above ≡ self.above + (if down then 0 else tens) }
        ensures below { result.below ≡ self.below + (if down then tens else 0) }
    {
        if down {
            Scientific {
                below: self.below + tens,
                ..self
            }
        } else {
            Scientific {
                above: self.above + tens,
                ..self
            }
        }
    }

    // The decimal that the number is, below nought or above it.
    fn decimal(self, minus: bool) -> Option<Decimal>
        requires last { 0 < self.size % 10 }
        requires small { self.size < 2 ^ 126 }
        ensures some { IfSome result (IsLeastDecimalOfParts minus self) }
        ensures none { IfNone result (HaveNoDecimal minus self) }
    {
        if self.above >= self.below {
            with_tens(minus, self.size, self.above - self.below)
        } else {
            with_decimals(minus, self.size, self.below - self.above)
        }
    }
}

/// The exact value of a numeral: the whole number and its decimals, of which there are as few as
/// can be. `None` exactly where the value is no such number within the limits of `Decimal`. It goes
/// over the text a few times and takes no memory; noughts at either end and the length of the
/// exponent don't matter.
pub fn numeral(text: &[u8]) -> Option<Decimal>
    requires { is_numeral text.now ≡ true }
    ensures some { IfSome result (IsDecimalOfNumeral text.now) }
    ensures none { IfNone result (HasNoDecimal (numerator text.now) (denominator text.now)) }
{
    // Most numerals are a few digits alone.
    if let Some(size) = few_digits(text) {
        return Some(Decimal {
            m: i128::from(size),
            k: 0,
        });
    }
    if let Some(decimal) = few_decimals(text) {
        return Some(decimal);
    }
    other_numeral(text)
}

/// The whole number that a numeral of at most 18 digits alone is: any other numeral has `None`. It
/// takes no step of 128 bits.
pub fn whole_numeral(text: &[u8]) -> Option<i128>
    ensures number { SomeIff result (AreFewDigits text.now) (pos (number_of text.now)) }
    ensures decimal { IfSome result (IsWholeNumeral text.now) }
    ensures above { IfSome result (λ number. pos 0 ≤ℤ number) }
{
    let number = few_digits(text)?;
    Some(i128::from(number))
}

// The decimal of a numeral that is few digits, a point and few digits, of which the last aren't
// noughts alone.
#[inline(never)]
fn few_decimals(text: &[u8]) -> Option<Decimal>
    ensures some { IfSome result (IsDecimalOfNumeral text.now) }
    ensures few { IfSome result (λ _. (kept : List ℕ) × HasFewDecimals text.now kept) }
    ensures none { IfNone result ((kept : List ℕ) → HasFewDecimals text.now kept → ⊥) }
{
    let (whole, rest) = split_digits(text);
    let decimals = last_decimals(rest)?;
    let kept = without_trailing_noughts(decimals);
    if kept.is_empty() {
        return None;
    }
    let number = append_few(0, whole)?;
    let size = append_few(u128::from(number), kept)?;
    with_decimals(false, u128::from(size), kept.len() as u128)
}

// The exact value of a numeral that may have a sign, a point and an exponent.
#[inline(never)]
fn other_numeral(text: &[u8]) -> Option<Decimal>
    requires { is_numeral text.now ≡ true }
    ensures some { IfSome result (IsDecimalOfNumeral text.now) }
    ensures none { IfNone result (HasNoDecimal (numerator text.now) (denominator text.now)) }
{
    let parts = split_numeral(text);
    let significand = significand(parts.whole, parts.decimals)?;
    if significand.size == 0 {
        return Some(Decimal { m: 0, k: 0 });
    }
    let tens = exponent_size(parts.exponent)?;
    significand
        .shifted(is_minus(parts.exponent), tens)
        .decimal(is_minus(text))
}
