//! Which runs are numerals.

ghost use Rattle.std.specs.Prelude.{◌≡◌, ◌||◌, count_by, IfSome, ◌<◌, length};
ghost use Rattle.std.specs.List.{list_all, list_any, position};
ghost use Rattle.net_lexer.specs.Bytes.{is_digit};
ghost use Rattle.net_lexer.specs.Numerals.{without_sign, is_point, is_decimal, are_digits, is_exponent_mark, is_scaled, is_numeral};

use crate::bytes::{is_digit, is_sign};

fn without_sign(bytes: &[u8]) -> &[u8]
    ensures { result.now ≡ without_sign bytes.now }
{
    match bytes {
        [first, rest @ ..] if is_sign(*first) => rest,
        _ => bytes,
    }
}

fn has_digit(bytes: &[u8]) -> bool
    ensures { result ≡ list_any is_digit bytes.now }
{
    bytes.iter().any(|b| is_digit(*b))
}

fn is_all_digits(bytes: &[u8]) -> bool
    ensures { result ≡ list_all is_digit bytes.now }
{
    bytes.iter().all(|b| is_digit(*b))
}

fn is_all_digits_and_points(bytes: &[u8]) -> bool
    ensures { result ≡ list_all (λ b. is_digit b || is_point b) bytes.now }
{
    bytes.iter().all(|b| is_digit(*b) || *b == b'.')
}

fn count_points(bytes: &[u8]) -> usize
    ensures { result ≡ count_by is_point bytes.now }
{
    bytes.iter().filter(|b| **b == b'.').count()
}

// Digits, at least one, and at most one point.
fn is_decimal(bytes: &[u8]) -> bool
    ensures { result ≡ is_decimal bytes.now }
{
    is_all_digits_and_points(bytes) && has_digit(bytes) && count_points(bytes) <= 1
}

fn are_digits(bytes: &[u8]) -> bool
    ensures { result ≡ are_digits bytes.now }
{
    is_all_digits(bytes) && has_digit(bytes)
}

fn exponent_mark(bytes: &[u8]) -> Option<usize>
    ensures place { result ≡ position is_exponent_mark bytes.now }
    ensures within { IfSome result (λ mark. mark < length bytes.now) }
{
    bytes.iter().position(|b| matches!(*b, b'e' | b'E'))
}

// A decimal, and perhaps an exponent.
fn is_scaled(bytes: &[u8]) -> bool
    ensures { result ≡ is_scaled bytes.now }
{
    match exponent_mark(bytes) {
        Some(mark) => is_decimal(&bytes[..mark]) && are_digits(without_sign(&bytes[mark + 1..])),
        None => is_decimal(bytes),
    }
}

/// The run is a numeral: its sign, if it has one, aside, a decimal and perhaps an exponent.
pub fn is_numeral(run: &[u8]) -> bool
    ensures { result ≡ is_numeral run.now }
{
    is_scaled(without_sign(run))
}
