//! Whole numbers, decimals and reduced rows.

ghost use Rattle.std.specs.Prelude.{◌≡◌, ◌≢◌, ◌<◌, ◌≤◌, ◌+◌, ◌/◌, ◌%◌, ◌^◌, length, map, replicate, unsigned_abs};
ghost use Rattle.std.specs.Int.{IsGcd};
ghost use Rattle.maid_model.specs.declared.limits.TheConstants.{MOST_DECIMALS};
ghost use Rattle.net_build.specs.Plain.{row_divisor};
ghost use Rattle.net_print.specs.Printed.{padded, sign_text, size_text, value_text};
ghost use Rattle.line_pieces.specs.Pushed.{PushAppends};
ghost use Rattle.net_print.specs.NodeTexts.{row_text_behind};

use crate::pieces::push_gap;
use itoa::Buffer;
use line_pieces::push_number;
use std::alloc::AllocError;
use whole_num::gcd;

fn push_noughts(out: &mut Vec<u8>, count: usize) -> Result<(), AllocError>
    ensures { PushAppends out.old out.new result (replicate count 48) }
{
    for _place in 0..count {
        out.push(b'0')?;
    }
    Ok(())
}

// Appends a number with noughts before it, so many digits in all.
#[tactic(auto, using(std::proofs::Common::append_assoc))]
fn push_padded(out: &mut Vec<u8>, number: u128, width: usize) -> Result<(), AllocError>
    ensures { PushAppends out.old out.new result (padded width number) }
{
    let mut buffer = Buffer::new();
    let digits = buffer.format(number).as_bytes();
    push_noughts(out, width.saturating_sub(digits.len()))?;
    out.extend_from_slice(digits)
}

// The same number with the least number of decimals.
fn without_noughts(mut size: u128, mut decimals: u32) -> (u128, u32)
    ensures text { size_text result.1 result.0 ≡ size_text decimals size }
    ensures last { 0 < result.1 → result.0 % 10 ≢ 0 }
    ensures few { result.1 ≤ decimals }
{
    while decimals > 0 && size % 10 == 0 {
        size /= 10;
        decimals -= 1;
    }
    (size, decimals)
}

// Appends a decimal that doesn't end in nought.
#[tactic(auto, using(std::proofs::Common::append_assoc))]
fn push_decimal(out: &mut Vec<u8>, size: u128, decimals: u32) -> Result<(), AllocError>
    requires last { 0 < decimals → size % 10 ≢ 0 }
    requires few { decimals ≤ MOST_DECIMALS }
    ensures { PushAppends out.old out.new result (size_text decimals size) }
{
    if decimals == 0 {
        return push_number(out, size);
    }
    let unit = 10_u128.pow(decimals);
    push_number(out, size / unit)?;
    out.push(b'.')?;
    push_padded(out, size % unit, decimals as usize)
}

fn push_sign(out: &mut Vec<u8>, number: i128) -> Result<(), AllocError>
    ensures { PushAppends out.old out.new result (sign_text number) }
{
    if number < 0 {
        out.push(b'-')?;
    }
    Ok(())
}

/// Appends the value of a utility's cell: the cell over ten to the power of `decimals`.
#[tactic(auto, using(std::proofs::Common::append_assoc))]
pub fn push_value(out: &mut Vec<u8>, cell: i128, decimals: u32) -> Result<(), AllocError>
    requires { decimals ≤ MOST_DECIMALS }
    ensures { PushAppends out.old out.new result (value_text decimals cell) }
{
    push_sign(out, cell)?;
    let (size, decimals) = without_noughts(cell.unsigned_abs(), decimals);
    push_decimal(out, size, decimals)
}

// The greatest common divisor of both. A divisor of 1 stays 1, as in most rows: no division is
// needed.
fn joint_divisor(divisor: u128, size: u128) -> u128
    ensures { IsGcd divisor size result }
{
    if divisor == 1 { 1 } else { gcd(divisor, size) }
}

// The size over the divisor, without a division where that is 1.
fn share(size: u128, divisor: u128) -> u128
    requires { 0 < divisor }
    ensures { result ≡ size / divisor }
{
    if divisor == 1 { size } else { size / divisor }
}

// The greatest common divisor of a row's weights.
fn row_divisor(row: &[i128]) -> u128
    ensures { result ≡ row_divisor (map unsigned_abs row.now) }
{
    let mut divisor = 0;
    for weight in row {
        divisor = joint_divisor(divisor, weight.unsigned_abs());
    }
    divisor
}

/// Appends a row of weights over their greatest common divisor, behind so many numbers.
pub fn push_reduced_row(out: &mut Vec<u8>, row: &[i128], before: usize) -> Result<(), AllocError>
    requires some { 0 < row_divisor (map unsigned_abs row.now) }
    requires room { before + length row.now < 2 ^ 64 }
    ensures { PushAppends out.old out.new result (row_text_behind before row.now) }
{
    let divisor = row_divisor(row);
    for (place, weight) in row.iter().enumerate() {
        push_gap(out, before + place)?;
        push_number(out, share(weight.unsigned_abs(), divisor))?;
    }
    Ok(())
}
