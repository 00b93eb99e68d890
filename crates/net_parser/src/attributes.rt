//! Attributes and their values, lent from the tokens that spell them. Contracts see them as the
//! trees of `specs/Trees.antt`.

ghost use Rattle.std.specs.Prelude.{◌≡◌, ◌++◌, not, filter, IfSome, IfNone, OnOk};
ghost use Rattle.std.specs.List.{list_all};
ghost use Rattle.net_parser.specs.Lexemes.{is_parenthesis};
ghost use Rattle.net_parser.specs.Owned.{leaves};
ghost use Rattle.net_parser.specs.Views.{value_tree, IsFlatList, HasNoFlatList};

use net_lexer::{Token, TokenKind};
use std::alloc::AllocError;
use std::marker::Model;

/// An attribute's value.
#[derive(Clone, Copy)]
pub enum Value<'a> {
    /// A string, a numeral or a word.
    Leaf(Token),
    /// A list of values: the tokens between its parentheses, with those of the lists in it.
    List(&'a [Token]),
}

fn is_parenthesis(kind: TokenKind) -> bool
    ensures { result ≡ is_parenthesis kind }
{
    matches!(kind, TokenKind::ParenOpen | TokenKind::ParenClose)
}

// No list stands among the tokens.
fn are_leaves(tokens: &[Token]) -> bool
    ensures { result ≡ list_all (λ t. not (is_parenthesis t.kind)) tokens.now }
{
    tokens.iter().all(|token| !is_parenthesis(token.kind))
}

// Adds those of the tokens that are no parentheses.
fn push_all_leaves(tokens: &mut Vec<Token>, inside: &[Token]) -> Result<(), AllocError>
    ensures { OnOk result (tokens.new.items
        ≡ tokens.old.items ++ filter (λ t. not (is_parenthesis t.kind)) inside.now) }
{
    for token in inside {
        if !is_parenthesis(token.kind) {
            tokens.push(*token)?;
        }
    }
    Ok(())
}

impl<'a> Value<'a> {
    /// The leaves of a list in which no list stands: no other value has them here. It goes over the
    /// list once and takes no memory.
    pub fn flat_list(self) -> Option<&'a [Token]>
        ensures leaves { IfSome result (λ leaves. IsFlatList (value_tree self.entry) leaves.now) }
        ensures none { IfNone result (HasNoFlatList (value_tree self.entry)) }
    {
        match self {
            Value::List(tokens) if are_leaves(tokens) => Some(tokens),
            _ => None,
        }
    }

    /// Adds the leaves from left to right. The cost is linear in the value's tokens.
    pub fn push_leaves(self, tokens: &mut Vec<Token>) -> Result<(), AllocError>
        ensures { OnOk result (tokens.new.items ≡ tokens.old.items ++ leaves (value_tree self.entry)) }
    {
        match self {
            Value::Leaf(token) => tokens.push(token)?,
            Value::List(inside) => push_all_leaves(tokens, inside)?,
        }
        Ok(())
    }
}

/// An attribute of a block, lent from the tokens that spell it: those of a name, the mark `=` and a
/// value.
#[derive(Drop)]
pub struct Attribute<'a> {
    tokens: &'a [Token],
}

impl<'a> Model for Attribute<'a> {
    ghost use Rattle.std.specs.Prelude.{◌<◌, length};
    ghost use Rattle.net_parser.specs.Trees.{AttributeTree};
    ghost use Rattle.net_parser.specs.TreeCode.{attribute_code};
    ghost use Rattle.net_parser.specs.Views.{attribute_of};

    ghost Value = { AttributeTree };

    ghost coded = { attribute_code };

    ghost view = { λ a. attribute_of a.tokens.now };

    ghost invariant = { λ a. 2 < length a.tokens.now };
}

impl<'a> Attribute<'a> {
    ghost use Rattle.std.specs.Prelude.{◌≡◌, ◌<◌, length};
    ghost use Rattle.net_parser.specs.Views.{attribute_of, value_tree};

    pub(crate) fn new(tokens: &'a [Token]) -> Attribute<'a>
        requires { 2 < length tokens.now }
        ensures { result ≡ attribute_of tokens.now }
    {
        Attribute { tokens }
    }

    /// The token of its name.
    pub fn name(&self) -> Token
        ensures { result ≡ self.now.name }
    {
        self.tokens[0]
    }

    /// Its value. It takes no memory.
    pub fn value(&self) -> Value<'a>
        ensures { value_tree result ≡ self.now.value }
    {
        match self.tokens {
            [_, _, leaf] => Value::Leaf(*leaf),
            [_, _, _, inside @ .., _] => Value::List(inside),
            _ => unreachable!(),
        }
    }
}
