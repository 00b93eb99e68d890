//! The names of a node's owners: the string of `agent`, or the strings of `agents`.

ghost use Rattle.std.specs.Prelude.{◌≡◌, ◌++◌, [], ◌∷◌, All, map, true, false, IfSome, OnOk, bytes_eq, codes};
ghost use Rattle.net_build.specs.Blocks.{owner_texts, telling_owners, texts_or_agent, word_of, IsFirst};
ghost use Rattle.maid_model.specs.Names.{list_of};
ghost use Rattle.first_fault.specs.Passes.{each_after};
ghost use Rattle.first_fault.specs.Answers.{Passes};
ghost use Rattle.net_build.specs.Passes.{build_fault};
ghost use Rattle.net_build.specs.Table.{repeated_agent_row, seen_agent_row, agent_rows, bad_agent_row};
ghost use Rattle.net_lexer.specs.Token.{text_value};
ghost use Rattle.net_lexer.specs.declared.tokens.TokenKind.TheVariants.{Text};
ghost use Rattle.net_parser.specs.Owned.{IsAttributeOf, IsBlockOf, leaves};
ghost use Rattle.net_parser.specs.Views.{value_tree};
ghost use Rattle.net_build.specs.Answered.{AnswersTexts};
ghost use Rattle.net_build.specs.NodeCalls.{IsStringOf, as_bad_agent, value_texts, written_owners_rows};

use crate::attributes::{is_named, names_owners, word_of};
use crate::distinct_names::DistinctNames;
use crate::faults::{BuildFault, BuildKind};
use crate::labels::{is_label, labels, listed_strings};
use crate::leaves::leaves;
use net_lexer::{Token, TokenKind, text_value};
use net_parser::{Attribute, Block, BlockKind, Value};
use std::alloc::Global;

// The first of the attributes that tell the owners of such a node.
fn first_telling<'a, 't>(
    text: &[u8],
    kind: BlockKind,
    attributes: &'a [Attribute<'t>],
) -> Option<&'a Attribute<'t>>
    requires { All (IsAttributeOf text.now) attributes.now }
    ensures first { IsFirst (telling_owners text.now kind attributes.now) result }
    ensures own { IfSome result (λ a. IsAttributeOf text.now a.now) }
{
    for attribute in attributes {
        if names_owners(kind, word_of(text, attribute)) {
            return Some(attribute);
        }
    }
    None
}

// The token of a string.
fn string_token(value: Value<'_>) -> Option<Token>
    ensures tree { IsStringOf (value_tree value.entry) result }
    ensures string { IfSome result (λ token. token.kind ≡ Text) }
{
    match value {
        Value::Leaf(token) if token.kind == TokenKind::Text => Some(token),
        _ => None,
    }
}

// The one owner that an `agent` tells.
fn one_name(alloc: Global, text: &[u8], agent: &Attribute<'_>) -> Result<Vec<Vec<u8>>, BuildFault>
    requires own { IsAttributeOf text.now agent.now }
    requires one { bytes_eq (word_of text.now agent.now) (codes "agents") ≡ false }
    ensures rows { Passes build_fault (bad_agent_row text.now agent.now) result }
    ensures names { AnswersTexts result (value_texts text.now agent.now) }
{
    let at = agent.name().start;
    let Some(token) = string_token(agent.value()) else {
        return Err(BuildKind::BadAgent.at(at));
    };
    let name = text_value(alloc, text, &token)?;
    if !is_label(&name) {
        return Err(BuildKind::BadAgent.at(at));
    }
    let mut names = Vec::new(alloc);
    names.push(name)?;
    Ok(names)
}

// The fault of an attribute there whose strings are refused as labels, or that memory ran out.
fn bad_agent(refused: BuildFault, at: u32) -> BuildFault
    ensures { result ≡ as_bad_agent at refused }
{
    match refused {
        BuildFault::Fault { .. } => BuildKind::BadAgent.at(at),
        BuildFault::NoMemory => BuildFault::NoMemory,
    }
}

// The owners that an `agents` tells. An agent's name has the form of a label.
fn listed_names(
    alloc: Global,
    text: &[u8],
    agents: &Attribute<'_>,
) -> Result<Vec<Vec<u8>>, BuildFault>
    requires own { IsAttributeOf text.now agents.now }
    requires list { bytes_eq (word_of text.now agents.now) (codes "agents") ≡ true }
    ensures rows { Passes build_fault (bad_agent_row text.now agents.now) result }
    ensures names { AnswersTexts result (value_texts text.now agents.now) }
{
    let at = agents.name().start;
    let Some(strings) = listed_strings(agents.value()) else {
        return Err(BuildKind::BadAgent.at(at));
    };
    match labels(alloc, text, strings) {
        Ok(names) => Ok(names),
        Err(refused) => Err(bad_agent(refused, at)),
    }
}

// The owners that the attribute tells, whatever stands twice.
fn agent_names(
    alloc: Global,
    text: &[u8],
    agents: &Attribute<'_>,
) -> Result<Vec<Vec<u8>>, BuildFault>
    requires { IsAttributeOf text.now agents.now }
    ensures rows { Passes build_fault (bad_agent_row text.now agents.now) result }
    ensures names { AnswersTexts result (value_texts text.now agents.now) }
{
    if is_named(text, agents, b"agents") {
        listed_names(alloc, text, agents)
    } else {
        one_name(alloc, text, agents)
    }
}

// The agent is none of those seen, and is seen from now on.
fn see_agent(
    alloc: Global,
    seen: &mut DistinctNames,
    agent: &[u8],
    at: u32,
) -> Result<(), BuildFault>
    ensures row { Passes build_fault (seen_agent_row seen.old at agent.now) result }
    ensures seen { OnOk result (seen.new ≡ seen.old ++ agent.now ∷ []) }
{
    if seen.place(agent).is_some() {
        return Err(BuildKind::RepeatedAgent.at(at));
    }
    seen.add(Vec::from_slice(alloc, agent)?)?;
    Ok(())
}

// None of the names stands a second time, where none is seen yet; they are those of these strings.
fn see_agents(
    alloc: Global,
    text: &[u8],
    seen: &mut DistinctNames,
    agents: &[Token],
    names: &[Vec<u8>],
) -> Result<(), BuildFault>
    requires none { seen.old ≡ [] }
    requires names { list_of names.now ≡ map (text_value text.now) agents.now }
    ensures { Passes build_fault (each_after (repeated_agent_row text.now) [] agents.now) result }
{
    let _ = text;
    for (place, agent) in agents.iter().enumerate() {
        see_agent(alloc, seen, &names[place], agent.start)?;
    }
    Ok(())
}

// None of the names stands a second time; they are those of these strings. It goes over them once.
fn check_distinct(
    alloc: Global,
    text: &[u8],
    agents: &[Token],
    names: &[Vec<u8>],
) -> Result<(), BuildFault>
    requires { list_of names.now ≡ map (text_value text.now) agents.now }
    ensures { Passes build_fault (each_after (repeated_agent_row text.now) [] agents.now) result }
{
    let mut seen = DistinctNames::new(alloc);
    see_agents(alloc, text, &mut seen, agents, names)
}

// The owners that the attribute tells.
fn told_names(
    alloc: Global,
    text: &[u8],
    agents: &Attribute<'_>,
) -> Result<Vec<Vec<u8>>, BuildFault>
    requires { IsAttributeOf text.now agents.now }
    ensures rows { Passes build_fault (agent_rows text.now (agents.now ∷ [])) result }
    ensures names { AnswersTexts result (texts_or_agent text.now (leaves agents.now.value)) }
{
    let names = agent_names(alloc, text, agents)?;
    let tokens = leaves(alloc, agents.value())?;
    check_distinct(alloc, text, &tokens, &names)?;
    Ok(names)
}

/// The names of the owners of a decision or a utility, in written order.
pub fn read_names(alloc: Global, text: &[u8], block: &Block<'_>) -> Result<Vec<Vec<u8>>, BuildFault>
    requires { IsBlockOf text.now block.now }
    ensures rows { Passes build_fault (written_owners_rows text.now block.now) result }
    ensures names { AnswersTexts result (owner_texts text.now block.now) }
{
    match first_telling(text, block.kind, &block.attributes) {
        Some(agents) => told_names(alloc, text, agents),
        None => {
            let mut names = Vec::new(alloc);
            names.push(Vec::from_slice(alloc, b"agent")?)?;
            Ok(names)
        }
    }
}
