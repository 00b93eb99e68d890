//! Labels of states: a list of strings as the value of `states`.

ghost use Rattle.std.specs.Prelude.{◌≡◌, ◌<◌, All, map, length, nat_le, true, is_some, IfOk, IfSome};
ghost use Rattle.std.specs.List.{list_all};
ghost use Rattle.net_build.specs.Blocks.{title, is_label, is_string_list, is_text, has_states};
ghost use Rattle.first_fault.specs.Passes.{each};
ghost use Rattle.first_fault.specs.Answers.{Passes};
ghost use Rattle.net_build.specs.Passes.{build_fault};
ghost use Rattle.net_build.specs.Stages.{are_text_tokens};
ghost use Rattle.net_build.specs.Table.{label_row, label_rows};
ghost use Rattle.net_lexer.specs.Token.{IsTokenOf, text_value};
ghost use Rattle.net_lexer.specs.declared.tokens.TokenKind.TheVariants.{Text};
ghost use Rattle.net_parser.specs.Owned.{IsAttributeOf, IsBlockOf, leaves};
ghost use Rattle.net_parser.specs.Views.{value_tree};
ghost use Rattle.net_build.specs.Answered.{AnswersTexts};
ghost use Rattle.net_build.specs.NodeCalls.{AreLabelsOf, value_texts, written_states_rows};

use crate::attributes::first_named;
use crate::faults::{BuildFault, BuildKind, Limit};
use maid_model::{MOST_NAME_BYTES, MOST_STATES};
use net_lexer::{Token, TokenKind, text_value};
use net_parser::{Attribute, Block, Value};
use std::alloc::Global;

/// The token of a node block's name, or of a potential's head.
pub fn title(block: &Block<'_>) -> Token
    requires { 0 < length block.now.names }
    ensures { result ≡ title block.now }
{
    block.names[0]
}

fn are_printable(bytes: &[u8]) -> bool
    ensures { result ≡ list_all (λ b. nat_le 32 b) bytes.now }
{
    bytes.iter().all(|byte| *byte >= 32)
}

/// A label or an agent's name: at most 255 bytes, and none below 32.
pub fn is_label(bytes: &[u8]) -> bool
    ensures { result ≡ is_label bytes.now }
{
    bytes.len() <= MOST_NAME_BYTES && are_printable(bytes)
}

fn is_text(kind: TokenKind) -> bool
    ensures { result ≡ is_text kind }
{
    matches!(kind, TokenKind::Text)
}

// Strings, if any.
fn all_texts(tokens: &[Token]) -> bool
    ensures { result ≡ list_all (λ t. is_text t.kind) tokens.now }
{
    tokens.iter().all(|token| is_text(token.kind))
}

// One or more strings.
fn are_texts(tokens: &[Token]) -> bool
    ensures { result ≡ are_text_tokens tokens.now }
{
    !tokens.is_empty() && all_texts(tokens)
}

/// The strings of a list of one or more, lent. Any other value has none here.
pub fn listed_strings(value: Value<'_>) -> Option<&[Token]>
    ensures found { is_some result ≡ is_string_list (value_tree value.entry) }
    ensures strings { IfSome result (λ strings. strings.now ≡ leaves (value_tree value.entry)) }
{
    match value.flat_list() {
        Some(tokens) if are_texts(tokens) => Some(tokens),
        _ => None,
    }
}

// A label, from its string.
fn label(alloc: Global, text: &[u8], string: &Token) -> Result<Vec<u8>, BuildFault>
    requires own { IsTokenOf text.now string.now }
    requires string { string.now.kind ≡ Text }
    ensures row { Passes build_fault (label_row text.now string.now) result }
    ensures label { IfOk result (λ label. label.items ≡ text_value text.now string.now) }
{
    let label = text_value(alloc, text, string)?;
    if !is_label(&label) {
        return Err(BuildKind::BadLabel.at(string.start));
    }
    Ok(label)
}

/// The labels, from their strings.
pub fn labels(alloc: Global, text: &[u8], strings: &[Token]) -> Result<Vec<Vec<u8>>, BuildFault>
    requires own { All (IsTokenOf text.now) strings.now }
    requires strings { All (λ t. t.kind ≡ Text) strings.now }
    ensures rows { Passes build_fault (each (label_row text.now) strings.now) result }
    ensures labels { AnswersTexts result (map (text_value text.now) strings.now) }
{
    let mut labels = Vec::with_capacity(alloc, strings.len())?;
    for string in strings {
        labels.push(label(alloc, text, string)?)?;
    }
    Ok(labels)
}

// The labels in the value of `states`.
fn state_labels(
    alloc: Global,
    text: &[u8],
    states: &Attribute<'_>,
) -> Result<Vec<Vec<u8>>, BuildFault>
    requires { IsAttributeOf text.now states.now }
    ensures rows { Passes build_fault (label_rows text.now states.now) result }
    ensures labels { AnswersTexts result (value_texts text.now states.now) }
{
    let at = states.name().start;
    let Some(strings) = listed_strings(states.value()) else {
        return Err(BuildKind::BadStates.at(at));
    };
    if strings.len() > MOST_STATES {
        let passed = BuildKind::LimitPassed {
            which: Limit::States,
            got: strings.len() as u128,
        };
        return Err(passed.at(at));
    }
    labels(alloc, text, strings)
}

/// The labels of a chance node or a decision.
pub fn read_labels(
    alloc: Global,
    text: &[u8],
    block: &Block<'_>,
) -> Result<Vec<Vec<u8>>, BuildFault>
    requires own { IsBlockOf text.now block.now }
    requires kind { has_states block.now.kind ≡ true }
    ensures rows { Passes build_fault (written_states_rows text.now block.now) result }
    ensures labels { IfOk result (AreLabelsOf text.now block.now) }
{
    match first_named(text, &block.attributes, b"states") {
        Some(states) => state_labels(alloc, text, states),
        None => Err(BuildKind::MissingStates.at(title(block).start)),
    }
}
