//! The rules of blocks.

ghost use Rattle.std.specs.Prelude.{◌<◌, [], ◌∷◌, length, IfOk, OnOk};
ghost use Rattle.net_lexer.specs.declared.tokens.TokenKind.TheVariants.{ParenOpen};
ghost use Rattle.net_parser.specs.Grammar as grammar;
ghost use Rattle.net_parser.specs.Grammar.{Head, Spells};
ghost use Rattle.net_parser.specs.Reading.{mark, name, given, names, start, stop, IsReading, Follows, AddsGiven, FollowsInBlock, body_rest};
ghost use Rattle.net_parser.specs.ReaderCalls.{FollowsToBody, IsNodeHead, IsPotentialHead, attribute_symbols};

use crate::reader::{Reader, Stop};
use crate::words::BlockWord;
use crate::{Attribute, Block, BlockKind};
use net_lexer::{Token, TokenKind};
use std::alloc::Global;

/// How many lists of a value may stand in one another.
const NESTING: u8 = 32;

impl<'a> Reader<'_, 'a> {
    /// Reads `NAME = VALUE ;`.
    fn attribute(&mut self, potential: bool) -> Result<Attribute<'a>, Stop>
        ensures rule { IfOk result (λ a. grammar.Attribute potential a self.old self.new) }
        ensures follows { Follows (attribute_symbols potential) result self.old self.new }
        ensures shorter { OnOk result (length self.new < length self.old) }
    {
        let tokens = self.tokens();
        self.attribute_name(potential)?;
        self.expect(TokenKind::Equals)?;
        self.value(NESTING)?;
        let len = tokens.len() - self.tokens().len();
        self.expect(TokenKind::Semicolon)?;
        Ok(Attribute::new(&tokens[..len]))
    }

    /// Reads `{`, attributes and `}`.
    fn body(&mut self, alloc: Global, potential: bool) -> Result<Vec<Attribute<'a>>, Stop>
        ensures rule { IfOk result (λ all. grammar.Body potential all.items self.old self.new) }
        ensures follows { Follows (body_rest potential) result self.old self.new }
        ensures shorter { OnOk result (length self.new < length self.old) }
    {
        self.expect(TokenKind::BraceOpen)?;
        let mut attributes = Vec::new(alloc);
        while !self.accept(TokenKind::BraceClose) {
            let attribute = self.attribute(potential)?;
            attributes.push(attribute)?;
        }
        Ok(attributes)
    }

    /// Reads what stands behind a potential's first name, up to `)`: nothing, or a bar and names.
    /// They are added to the names.
    fn given_names(&mut self, mut names: Vec<Token>) -> Result<Vec<Token>, Stop>
        ensures rule { IfOk result (λ all. AddsGiven names.items all.items self.old self.new) }
        ensures follows { Follows (given ∷ []) result self.old self.new }
        ensures shorter { OnOk result (length self.new < length self.old) }
    {
        if !self.accept(TokenKind::Bar) {
            self.expect(TokenKind::ParenClose)?;
            return Ok(names);
        }
        while !self.accept(TokenKind::ParenClose) {
            let name = self.name()?;
            names.push(name)?;
        }
        Ok(names)
    }

    /// Reads what stands behind `potential` in a head: names in their parentheses.
    fn potential_head(&mut self, alloc: Global) -> Result<(BlockKind, Vec<Token>), Stop>
        ensures rule { IfOk result (λ head. IsPotentialHead head.0 head.1.items self.old self.new) }
        ensures follows { Follows (mark ParenOpen ∷ name ∷ given ∷ []) result self.old self.new }
        ensures shorter { OnOk result (length self.new < length self.old) }
    {
        self.expect(TokenKind::ParenOpen)?;
        let title = self.name()?;
        let names = self.given_names(vec![in alloc; title]?)?;
        Ok((BlockKind::Potential, names))
    }

    /// Reads what stands behind the word of such a node in a head: its name.
    fn node_head(&mut self, alloc: Global, kind: BlockKind) -> Result<(BlockKind, Vec<Token>), Stop>
        ensures rule { IfOk result (λ head. IsNodeHead kind head.0 head.1.items self.old self.new) }
        ensures follows { Follows (name ∷ []) result self.old self.new }
        ensures shorter { OnOk result (length self.new < length self.old) }
    {
        let title = self.name()?;
        Ok((kind, vec![in alloc; title]?))
    }

    /// Reads what stands before a block's body. `net` may only begin the first block.
    fn head(&mut self, alloc: Global, first: bool) -> Result<(BlockKind, Vec<Token>), Stop>
        requires { 0 < length self.old }
        ensures rule { IfOk result (λ head. Head first head.0 head.1.items self.old self.new) }
        ensures follows { FollowsToBody first result self.old self.new }
        ensures shorter { OnOk result (length self.new < length self.old) }
    {
        match self.first_word(first)? {
            BlockWord::Net => Ok((BlockKind::Net, Vec::new(alloc))),
            BlockWord::Discrete => {
                let kind = self.node_word()?;
                self.node_head(alloc, kind)
            }
            BlockWord::Node(kind) => self.node_head(alloc, kind),
            BlockWord::Potential => self.potential_head(alloc),
        }
    }

    /// Reads a block, which may be the text's first.
    fn block(&mut self, alloc: Global, first: bool) -> Result<Block<'a>, Stop>
        requires { 0 < length self.old }
        ensures rule { IfOk result (λ block. grammar.Block first block self.old self.new) }
        ensures follows { FollowsInBlock first (λ block. []) result self.old self.new }
        ensures shorter { OnOk result (length self.new < length self.old) }
    {
        let (kind, names) = self.head(alloc, first)?;
        let attributes = self.body(alloc, kind.is_potential())?;
        Ok(Block {
            kind,
            names,
            attributes,
        })
    }

    /// Reads all blocks up to the last token.
    pub fn text(&mut self, alloc: Global) -> Result<Vec<Block<'a>>, Stop>
        ensures rule { IfOk result (λ blocks. Spells blocks.items self.old) }
        ensures follows { IsReading result (stop start self.old) (λ blocks. None) self.new }
    {
        let mut blocks = Vec::new(alloc);
        while self.peek().is_some() {
            let block = self.block(alloc, blocks.is_empty())?;
            blocks.push(block)?;
        }
        Ok(blocks)
    }
}
