//! The numbers of all utilities.

ghost use Rattle.std.specs.Prelude.{◌≡◌, All, length, IfOk};
ghost use Rattle.maid_model.specs.Nodes.{is_utility};
ghost use Rattle.net_build.specs.Table.{kind_in, values_in};
ghost use Rattle.net_build.specs.TableParts.{has_values};
ghost use Rattle.net_parser.specs.Owned.{IsBlockOf};
ghost use Rattle.net_build.specs.TableCalls.{AddsNumbers};

use crate::attributes::first_named;
use crate::labels::title;
use crate::nodes::Nodes;
use maid_model::Kind;
use net_lexer::Token;
use net_parser::{Block, BlockKind, Syntax};
use std::alloc::{AllocError, Global};

// The node of that name is a utility.
fn is_utility_named(nodes: &Nodes, name: &[u8]) -> bool
    requires { length nodes.now.names ≡ length nodes.now.heads }
    ensures { result ≡ is_utility (kind_in nodes.now name.now) }
{
    match nodes.names.place(name) {
        Some(node) => nodes.heads[node].kind == Kind::Utility,
        None => false,
    }
}

// The block is the potential of a utility.
fn has_values(text: &[u8], nodes: &Nodes, block: &Block<'_>) -> bool
    requires own { IsBlockOf text.now block.now }
    requires len { length nodes.now.names ≡ length nodes.now.heads }
    ensures { result ≡ has_values text.now nodes.now block.now }
{
    match block.kind {
        BlockKind::Potential => is_utility_named(nodes, title(block).bytes(text)),
        _ => false,
    }
}

// The leaves of the potential's `data`, behind those that are there.
fn push_data(tokens: &mut Vec<Token>, text: &[u8], potential: &Block<'_>) -> Result<(), AllocError>
    requires { IsBlockOf text.now potential.now }
    ensures { AddsNumbers text.now potential.now tokens.old tokens.new result }
{
    if let Some(table) = first_named(text, &potential.attributes, b"data") {
        table.value().push_leaves(tokens)?;
    }
    Ok(())
}

/// The numbers of all utilities, as they stand in the text. It looks up each potential's head among
/// the nodes.
pub fn utility_numbers(
    alloc: Global,
    text: &[u8],
    syntax: &Syntax<'_>,
    nodes: &Nodes,
) -> Result<Vec<Token>, AllocError>
    requires blocks { All (IsBlockOf text.now) syntax.now }
    requires len { length nodes.now.names ≡ length nodes.now.heads }
    ensures { IfOk result (λ tokens. tokens.items ≡ values_in text.now nodes.now syntax.now) }
{
    let mut tokens = Vec::new(alloc);
    for block in &syntax.blocks {
        if has_values(text, nodes, block) {
            push_data(&mut tokens, text, block)?;
        }
    }
    Ok(tokens)
}
