//! The names behind a potential's bar, as nodes.

ghost use Rattle.std.specs.Prelude.{◌≡◌, ◌<◌, length, All, IfOk};
ghost use Rattle.std.specs.List.{list_any};
ghost use Rattle.std.specs.Str.{bytes_eq};
ghost use Rattle.net_lexer.specs.Token.{IsTokenOf, token_bytes};
ghost use Rattle.net_build.specs.Linking.{node_named, kind_at, unknown_row, repeat_row, utility_row};
ghost use Rattle.first_fault.specs.Answers.{Passes};
ghost use Rattle.net_build.specs.Passes.{build_fault};
ghost use Rattle.net_build.specs.LinkCalls.{AreNodesNamed, PassesCondition, PassesConditions};

use crate::distinct_names::DistinctNames;
use crate::faults::{BuildFault, BuildKind};
use crate::nodes::Head;
use maid_model::Kind;
use net_lexer::Token;
use std::alloc::Global;

// One of the tokens has these bytes.
fn stands_in(text: &[u8], tokens: &[Token], bytes: &[u8]) -> bool
    requires { All (IsTokenOf text.now) tokens.now }
    ensures { result ≡ list_any (λ t. bytes_eq (token_bytes text.now t) bytes.now) tokens.now }
{
    tokens.iter().any(|token| token.bytes(text) == bytes)
}

/// The node of that name.
pub fn read_name(text: &[u8], names: &DistinctNames, name: &Token) -> Result<usize, BuildFault>
    requires { IsTokenOf text.now name.now }
    ensures row { Passes build_fault (unknown_row text.now names.now name.now) result }
    ensures node { IfOk result (λ node. node ≡ node_named text.now names.now name.now) }
    ensures within { IfOk result (λ node. node < length names.now) }
{
    match names.place(name.bytes(text)) {
        Some(node) => Ok(node),
        None => Err(BuildKind::UnknownName.at(name.start)),
    }
}

// The name is none of those earlier.
fn check_repeat(text: &[u8], earlier: &[Token], name: &Token) -> Result<(), BuildFault>
    requires earlier { All (IsTokenOf text.now) earlier.now }
    requires name { IsTokenOf text.now name.now }
    ensures { Passes build_fault (repeat_row text.now earlier.now name.now) result }
{
    if stands_in(text, earlier, name.bytes(text)) {
        return Err(BuildKind::RepeatedParent.at(name.start));
    }
    Ok(())
}

// The node of the name can be a parent.
fn check_kind(heads: &[Head], node: usize, name: &Token) -> Result<(), BuildFault>
    requires { node < length heads.now }
    ensures { Passes build_fault (utility_row (kind_at heads.now node) name.now) result }
{
    match heads[node].kind {
        Kind::Utility => Err(BuildKind::UtilityParent.at(name.start)),
        Kind::Chance | Kind::Decision => Ok(()),
    }
}

// The node of the name behind a potential's bar, and behind those earlier.
fn read_condition(
    text: &[u8],
    names: &DistinctNames,
    heads: &[Head],
    earlier: &[Token],
    name: &Token,
) -> Result<usize, BuildFault>
    requires earlier { All (IsTokenOf text.now) earlier.now }
    requires name { IsTokenOf text.now name.now }
    requires heads { length heads.now ≡ length names.now }
    ensures rows { PassesCondition text.now names.now heads.now earlier.now name.now result }
    ensures node { IfOk result (λ node. node ≡ node_named text.now names.now name.now) }
{
    let node = read_name(text, names, name)?;
    check_repeat(text, earlier, name)?;
    check_kind(heads, node, name)?;
    Ok(node)
}

/// The nodes of the names behind a potential's bar.
pub fn read_conditions(
    alloc: Global,
    text: &[u8],
    names: &DistinctNames,
    heads: &[Head],
    conditions: &[Token],
) -> Result<Vec<usize>, BuildFault>
    requires conditions { All (IsTokenOf text.now) conditions.now }
    requires heads { length heads.now ≡ length names.now }
    ensures rows { PassesConditions text.now names.now heads.now conditions.now result }
    ensures nodes { IfOk result (AreNodesNamed text.now names.now conditions.now) }
{
    // A name that stands twice is refused there, so that each is compared with no more than there
    // are nodes.
    let mut list = Vec::new(alloc);
    for (place, name) in conditions.iter().enumerate() {
        list.push(read_condition(text, names, heads, &conditions[..place], name)?)?;
    }
    Ok(list)
}
