//! Chance tables whose numbers are their weights as they stand, as those of most are.

ghost use Rattle.std.specs.Prelude.{◌≡◌, ◌<◌, ◌≤◌, ◌≤ℤ◌, ◌*◌, All, map, pos, None, IfOk, IfSome, IfNone};
ghost use Rattle.std.specs.Int.{◌∣◌};
ghost use Rattle.maid_model.specs.declared.limits.TheConstants.{MOST_CELLS};
ghost use Rattle.net_build.specs.TableParts.{ArePlainNumbers, IsFewDigits, IsPlainTable, TellWholeNumbers, few_number};
ghost use Rattle.net_lexer.specs.Token.{IsTokenOf, token_bytes};
ghost use Rattle.net_parser.specs.Owned.{IsAttributeOf, leaves};
ghost use Rattle.weight_scale.specs.Numeral.{IsWholeNumeral};
ghost use Rattle.net_build.specs.Answered.{IfFound, IfNotFound};
ghost use Rattle.net_build.specs.TableCalls.{IsFewNumber, IsHeadDraft, LacksPlainNumbers, head_data_part};

use crate::drafts::Draft;
use crate::nodes::Head;
use maid_model::Kind;
use net_lexer::{Token, TokenKind};
use net_parser::Attribute;
use std::alloc::{AllocError, Global};
use weight_scale::{plain_total, whole_numeral};

// The number, where it is few digits alone.
fn whole_number(text: &[u8], token: &Token) -> Option<i128>
    requires { IsTokenOf text.now token.now }
    ensures number { IsFewNumber text.now token.now result }
    ensures decimal { IfSome result (IsWholeNumeral (token_bytes text.now token.now)) }
    ensures above { IfSome result (λ number. pos 0 ≤ℤ number) }
{
    if token.kind != TokenKind::Number {
        return None;
    }
    whole_numeral(token.bytes(text))
}

// The numbers, where each is few digits alone.
fn whole_numbers(
    alloc: Global,
    text: &[u8],
    tokens: &[Token],
) -> Result<Option<Vec<i128>>, AllocError>
    requires { All (IsTokenOf text.now) tokens.now }
    ensures few { IfOk result (λ found. IfSome found (λ _. All (IsFewDigits text.now) tokens.now)) }
    ensures none { IfOk result (λ found.
        IfNone found (All (IsFewDigits text.now) tokens.now → ⊥)) }
    ensures numbers { IfFound result (λ found. found.items ≡ map (few_number text.now) tokens.now) }
    ensures whole { IfFound result (λ found. TellWholeNumbers text.now tokens.now found.items) }
    ensures above { IfFound result (λ found. All (λ x. pos 0 ≤ℤ x) found.items) }
{
    let mut numbers = Vec::with_capacity(alloc, tokens.len())?;
    for token in tokens {
        let Some(number) = whole_number(text, token) else {
            return Ok(None);
        };
        numbers.push(number)?;
    }
    Ok(Some(numbers))
}

// The cells of a chance table of so many, where its numbers are its weights as they stand.
fn plain_cells(
    alloc: Global,
    text: &[u8],
    numerals: &[Token],
    want: usize,
    states: usize,
) -> Result<Option<Vec<i128>>, AllocError>
    requires own { All (IsTokenOf text.now) numerals.now }
    requires states { 0 < states }
    requires whole { states ∣ want }
    ensures some { IfFound result (λ c. IsPlainTable text.now states want numerals.now c.items) }
    ensures none { IfNotFound result (ArePlainNumbers text.now states want numerals.now → ⊥) }
{
    if numerals.len() != want {
        return Ok(None);
    }
    let Some(cells) = whole_numbers(alloc, text, numerals)? else {
        return Ok(None);
    };
    if plain_total(&cells, states).is_none() {
        return Ok(None);
    }
    Ok(Some(cells))
}

/// The draft of a chance table whose numbers are its weights as they stand: it takes no memory but
/// the cells. Any other table has none here, and one that has a fault neither.
pub fn plain_draft(
    alloc: Global,
    text: &[u8],
    head: &Head,
    rows: usize,
    table: &Attribute<'_>,
    numerals: &[Token],
) -> Result<Option<Draft>, AllocError>
    requires own { IsAttributeOf text.now table.now }
    requires numerals { numerals.now ≡ leaves table.now.value }
    requires states { 0 < head.now.states }
    requires small { rows * head.now.states ≤ MOST_CELLS }
    ensures rows { IfFound result (λ _. head_data_part text.now head.now rows table.now None) }
    ensures draft { IfFound result (IsHeadDraft text.now head.now rows numerals.now) }
    ensures none { IfNotFound result (LacksPlainNumbers text.now head.now rows numerals.now) }
{
    let Kind::Chance = head.kind else {
        return Ok(None);
    };
    match plain_cells(alloc, text, numerals, rows * head.states, head.states)? {
        Some(cells) => Ok(Some(Draft::Cells(cells))),
        None => Ok(None),
    }
}
