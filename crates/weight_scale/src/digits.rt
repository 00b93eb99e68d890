//! Digits, exponents and signs of numerals.

ghost use Rattle.std.specs.Prelude.{◌≡◌, ◌<◌, ◌≤◌, ◌+◌, ◌-◌, ◌*◌, ◌^◌, ◌∷◌, ◌++◌, ◌≢◌, drop, length, replicate, slice_index, true, IfSome, IfNone};
ghost use Rattle.std.specs.Option.{SomeIff};
ghost use Rattle.std.specs.List.{prefix_len, list_all};
ghost use Rattle.net_lexer.specs.Bytes.{is_digit};
ghost use Rattle.net_lexer.specs.Numerals.{without_sign};
ghost use Rattle.weight_scale.specs.Numeral.{front_digits, behind_digits, point_digits, behind_point, is_minus, number_behind, number_of, AreFewDigits, whole_digits, decimal_digits, exponent_of, exponent_size, AreFewBehind, IsNoPointAndDigits};
ghost use Rattle.weight_scale.specs.Range.{IsBelowBound};
ghost use Rattle.weight_scale.specs.declared.digits.TheConstants.{HALF_FEW, HALF_FEW_END};

use maid_model::GREATEST_NUMBER;

// How many digits stand at the front.
fn count_digits(bytes: &[u8]) -> usize
    ensures count { result ≡ prefix_len is_digit bytes.now }
    ensures within { result ≤ length bytes.now }
{
    for (i, byte) in bytes.iter().enumerate() {
        if !byte.is_ascii_digit() {
            return i;
        }
    }
    bytes.len()
}

// The digits at the front, and what stands behind them.
pub(crate) fn split_digits(bytes: &[u8]) -> (&[u8], &[u8])
    ensures digits { result.0.now ≡ front_digits bytes.now }
    ensures rest { result.1.now ≡ behind_digits bytes.now }
    ensures are_digits { list_all is_digit result.0.now ≡ true }
{
    bytes.split_at(count_digits(bytes))
}

fn without_sign(bytes: &[u8]) -> &[u8]
    ensures { result.now ≡ without_sign bytes.now }
{
    match bytes {
        [b'+' | b'-', rest @ ..] => rest,
        _ => bytes,
    }
}

pub(crate) fn is_minus(bytes: &[u8]) -> bool
    ensures { result ≡ is_minus bytes.now }
{
    matches!(bytes, [b'-', ..])
}

// The digits behind a point at the front, and what stands behind them.
fn split_point(bytes: &[u8]) -> (&[u8], &[u8])
    ensures digits { result.0.now ≡ point_digits bytes.now }
    ensures rest { result.1.now ≡ behind_point bytes.now }
    ensures are_digits { list_all is_digit result.0.now ≡ true }
{
    match bytes {
        [b'.', rest @ ..] => split_digits(rest),
        _ => (&[], bytes),
    }
}

fn is_all_digits(bytes: &[u8]) -> bool
    ensures { result ≡ list_all is_digit bytes.now }
{
    bytes.iter().all(|b| b.is_ascii_digit())
}

// The digits behind a point, where nothing stands behind them.
pub(crate) fn last_decimals(bytes: &[u8]) -> Option<&[u8]>
    ensures point { IfSome result (λ decimals. bytes.now ≡ 46 ∷ decimals.now) }
    ensures are_digits { IfSome result (λ decimals. list_all is_digit decimals.now ≡ true) }
    ensures none { IfNone result (IsNoPointAndDigits bytes.now) }
{
    match bytes {
        [b'.', decimals @ ..] if is_all_digits(decimals) => Some(decimals),
        _ => None,
    }
}

// The exponent's sign and digits, which stand behind the e or E.
fn behind_mark(bytes: &[u8]) -> &[u8]
    ensures { result.now ≡ drop 1 bytes.now }
{
    match bytes {
        [_, rest @ ..] => rest,
        [] => bytes,
    }
}

// The number with one more digit, if it isn't too great.
fn append_digit(number: u128, digit: u8) -> Option<u128>
    requires { is_digit digit ≡ true }
    ensures { IsBelowBound (2 ^ 126) result (number * 10 + (digit - 48)) }
{
    if number > GREATEST_NUMBER / 10 {
        return None;
    }
    Some(number * 10 + u128::from(digit - b'0')).filter(|longer| *longer <= GREATEST_NUMBER)
}

// What a digit stands for.
fn digit_value(digit: u8) -> u64
    requires { is_digit digit ≡ true }
    ensures value { result ≡ digit - 48 }
    ensures small { result < 10 }
{
    u64::from(digit - b'0')
}

// A number below ten to this power surely has room in 64 bits for as many digits behind it.
const HALF_FEW: usize = 9;

// Ten to that power.
const HALF_FEW_END: u128 = 1_000_000_000;

// The number with more digits behind it, where it and they are few. It takes no step of 128 bits.
pub(crate) fn append_few(number: u128, digits: &[u8]) -> Option<u64>
    requires { list_all is_digit digits.now ≡ true }
    ensures { SomeIff result (AreFewBehind number digits.now) (number_behind number digits.now) }
{
    if number >= HALF_FEW_END || digits.len() > HALF_FEW {
        return None;
    }
    let mut longer = number as u64;
    for digit in digits {
        longer = longer * 10 + digit_value(*digit);
    }
    Some(longer)
}

// The number with more digits behind it, if it isn't too great.
pub(crate) fn append_digits(number: u128, digits: &[u8]) -> Option<u128>
    requires are_digits { list_all is_digit digits.now ≡ true }
    requires small { number < 2 ^ 126 }
    ensures { IsBelowBound (2 ^ 126) result (number_behind number digits.now) }
{
    if let Some(longer) = append_few(number, digits) {
        return Some(u128::from(longer));
    }
    let mut longer = number;
    for digit in digits {
        longer = append_digit(longer, *digit)?;
    }
    Some(longer)
}

// The most digits that a number surely has room for in 64 bits.
const FEW: usize = 18;

// The number that the bytes write, where they are digits alone and few. It takes no step of 128
// bits.
pub(crate) fn few_digits(bytes: &[u8]) -> Option<u64>
    ensures { SomeIff result (AreFewDigits bytes.now) (number_of bytes.now) }
{
    if bytes.len() > FEW {
        return None;
    }
    let mut number: u64 = 0;
    for byte in bytes {
        if !byte.is_ascii_digit() {
            return None;
        }
        number = number * 10 + u64::from(byte - b'0');
    }
    Some(number)
}

pub(crate) fn without_trailing_noughts(digits: &[u8]) -> &[u8]
    ensures cut { digits.now ≡ result.now ++ replicate (length digits.now - length result.now) 48 }
    ensures last { 0 < length result.now → slice_index result.now (length result.now - 1) ≢ 48 }
    ensures within { length result.now ≤ length digits.now }
{
    let mut kept = digits;
    while let [front @ .., b'0'] = kept {
        kept = front;
    }
    kept
}

// The size of an exponent, if it isn't too great.
pub(crate) fn exponent_size(exponent: &[u8]) -> Option<u128>
    ensures { SomeIff result (exponent_size exponent.now < 2 ^ 126) (exponent_size exponent.now) }
{
    append_digits(0, split_digits(without_sign(exponent)).0)
}

// What a numeral is made of, but for its sign: the digits before and behind the point, and the
// exponent with its sign.
#[derive(Clone, Copy)]
pub(crate) struct Parts<'a> {
    pub(crate) whole: &'a [u8],
    pub(crate) decimals: &'a [u8],
    pub(crate) exponent: &'a [u8],
}

pub(crate) fn split_numeral(text: &[u8]) -> Parts<'_>
    ensures whole { result.whole.now ≡ whole_digits text.now }
    ensures decimals { result.decimals.now ≡ decimal_digits text.now }
    ensures exponent { result.exponent.now ≡ exponent_of text.now }
    ensures are_digits { list_all is_digit result.whole.now ≡ true }
    ensures are_decimals { list_all is_digit result.decimals.now ≡ true }
{
    let (whole, rest) = split_digits(without_sign(text));
    let (decimals, rest) = split_point(rest);
    Parts {
        whole,
        decimals,
        exponent: behind_mark(rest),
    }
}
