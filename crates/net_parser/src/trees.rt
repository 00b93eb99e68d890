//! The tree of a text. Contracts see it as the records of plain lists of `specs/Trees.antt`.

use crate::Attribute;
use net_lexer::Token;
use std::marker::Model;

/// What a block is.
#[derive(Clone, Copy, Debug, PartialEq, Eq)]
pub enum BlockKind {
    /// What is said of the whole diagram. It has no names, and only the first block may be it.
    Net,
    /// A chance node, named by the one name.
    Node,
    /// A decision, named by the one name.
    Decision,
    /// A utility, named by the one name.
    Utility,
    /// A table or the parents of a node: the first name is that node's, and the others are the
    /// nodes behind the bar.
    Potential,
}

impl BlockKind {
    ghost use Rattle.std.specs.Prelude.{◌≡◌};
    ghost use Rattle.net_parser.specs.Grammar.{is_potential};

    pub(crate) fn is_potential(self) -> bool
        ensures { result ≡ is_potential self }
    {
        matches!(self, BlockKind::Potential)
    }
}

/// A block, with the tokens of its names.
#[derive(Drop)]
pub struct Block<'a> {
    pub kind: BlockKind,
    pub names: Vec<Token>,
    pub attributes: Vec<Attribute<'a>>,
}

impl<'a> Model for Block<'a> {
    ghost use Rattle.net_parser.specs.Trees.{BlockTree};
    ghost use Rattle.net_parser.specs.TreeCode.{block_code};

    ghost Value = { BlockTree };

    ghost coded = { block_code };

    ghost view = { λ b.
        record { kind = b.kind; names = b.names.items; attributes = b.attributes.items } };
}

/// The tree of a text: its blocks in order. It borrows from the text's tokens.
#[derive(Drop)]
pub struct Syntax<'a> {
    pub blocks: Vec<Block<'a>>,
}

impl<'a> Model for Syntax<'a> {
    ghost use Rattle.std.specs.Prelude.{List};
    ghost use Rattle.std.specs.Coded.{coded_list};
    ghost use Rattle.net_parser.specs.Trees.{BlockTree};
    ghost use Rattle.net_parser.specs.TreeCode.{block_code};

    ghost Value = { List BlockTree };

    ghost coded = { coded_list block_code };

    ghost view = { λ s. s.blocks.items };
}
