//! Whole numbers and fractions.

ghost use Rattle.std.specs.Prelude.{◌<◌, decimal};
ghost use Rattle.maid_model.specs.Reports.{ratio_text};
ghost use Rattle.line_pieces.specs.Pushed.{PushAppends};

use itoa::Buffer;
use maid_model::Ratio;
use std::alloc::AllocError;

// Appends a number of one digit.
fn push_digit(out: &mut Vec<u8>, digit: u128) -> Result<(), AllocError>
    requires { digit < 10 }
    ensures { PushAppends out.old out.new result (decimal digit) }
{
    out.push(b'0' + digit as u8)?;
    Ok(())
}

/// Appends a whole number from nought, in decimal digits.
pub fn push_number(out: &mut Vec<u8>, number: u128) -> Result<(), AllocError>
    ensures { PushAppends out.old out.new result (decimal number) }
{
    // Most numbers of large tables are one digit, which takes no division.
    if number < 10 {
        return push_digit(out, number);
    }
    let mut buffer = Buffer::new();
    out.extend_from_slice(buffer.format(number).as_bytes())
}

/// Appends a whole number, or the numerator, a slash and the denominator.
pub(crate) fn push_ratio(out: &mut Vec<u8>, ratio: &Ratio) -> Result<(), AllocError>
    ensures { PushAppends out.old out.new result (ratio_text ratio.now) }
{
    let mut buffer = Buffer::new();
    out.extend_from_slice(buffer.format(ratio.num).as_bytes())?;
    if ratio.den != 1 {
        out.push(b'/')?;
        out.extend_from_slice(buffer.format(ratio.den).as_bytes())?;
    }
    Ok(())
}
