//! The numbers of a table.

ghost use Rattle.std.specs.Prelude.{◌≡◌, All, true, None, IfOk, IfSome, IfNone};
ghost use Rattle.net_build.specs.Blocks.{is_number};
ghost use Rattle.first_fault.specs.Passes.{each};
ghost use Rattle.first_fault.specs.Answers.{Passes};
ghost use Rattle.net_build.specs.Passes.{build_fault};
ghost use Rattle.net_build.specs.Scaling.{TellDecimals};
ghost use Rattle.net_build.specs.Table.{IsNumberTooLong, number_row, length_row};
ghost use Rattle.net_build.specs.TableParts.{wrong_count_row, number_rows};
ghost use Rattle.net_lexer.specs.Token.{IsTokenOf, token_bytes};
ghost use Rattle.net_parser.specs.Owned.{IsAttributeOf, leaves};
ghost use Rattle.weight_scale.specs.Numeral.{IsDecimalOfNumeral};

use crate::faults::{BuildFault, BuildKind};
use net_lexer::{Token, TokenKind};
use net_parser::Attribute;
use std::alloc::Global;
use weight_scale::{Decimal, numeral};

// Each leaf is a number.
fn check_numbers(tokens: &[Token]) -> Result<(), BuildFault>
    ensures { Passes build_fault (each number_row tokens.now) result }
{
    for token in tokens {
        if token.kind != TokenKind::Number {
            return Err(BuildKind::NotANumber.at(token.start));
        }
    }
    Ok(())
}

// There are as many numbers as the table has cells.
fn check_count(at: u32, want: usize, got: usize) -> Result<(), BuildFault>
    ensures { Passes build_fault (wrong_count_row at want got) result }
{
    if got == want {
        Ok(())
    } else {
        Err(BuildKind::WrongCount { want, got }.at(at))
    }
}

// The number as a decimal, if it has one.
fn decimal(text: &[u8], token: &Token) -> Option<Decimal>
    requires own { IsTokenOf text.now token.now }
    requires number { is_number token.now.kind ≡ true }
    ensures row { IfSome result (λ _. length_row text.now token.now None) }
    ensures decimal { IfSome result (IsDecimalOfNumeral (token_bytes text.now token.now)) }
    ensures none { IfNone result (IsNumberTooLong (token_bytes text.now token.now)) }
{
    numeral(token.bytes(text))
}

/// The numbers as decimals.
pub fn decimals(alloc: Global, text: &[u8], tokens: &[Token]) -> Result<Vec<Decimal>, BuildFault>
    requires own { All (IsTokenOf text.now) tokens.now }
    requires numbers { All (λ t. is_number t.kind ≡ true) tokens.now }
    ensures rows { Passes build_fault (each (length_row text.now) tokens.now) result }
    ensures decimals { IfOk result (λ ds. TellDecimals text.now tokens.now ds.items) }
{
    let mut decimals = Vec::with_capacity(alloc, tokens.len())?;
    for token in tokens {
        let Some(number) = decimal(text, token) else {
            return Err(BuildKind::NumberTooLong.at(token.start));
        };
        decimals.push(number)?;
    }
    Ok(decimals)
}

/// The numbers of the value of `data`, whose leaves these are: as many as the table has cells.
pub fn read_numbers(
    alloc: Global,
    text: &[u8],
    table: &Attribute<'_>,
    numerals: &[Token],
    want: usize,
) -> Result<Vec<Decimal>, BuildFault>
    requires own { IsAttributeOf text.now table.now }
    requires numerals { numerals.now ≡ leaves table.now.value }
    ensures rows { Passes build_fault (number_rows text.now want table.now) result }
    ensures decimals { IfOk result (λ decimals. TellDecimals text.now numerals.now decimals.items) }
{
    check_numbers(numerals)?;
    check_count(table.name().start, want, numerals.len())?;
    decimals(alloc, text, numerals)
}
