//! The rules of one token.

ghost use Rattle.std.specs.Prelude.{◌≡◌, ◌<◌, [], ◌∷◌, length, IfOk, OnOk};
ghost use Rattle.std.specs.Bool.{OnTrue, OnFalse};
ghost use Rattle.net_parser.specs.Grammar.{Mark, Name, AttributeName};
ghost use Rattle.net_parser.specs.Reading.{mark, name, attribute_name, node_word, is_next, behind, NodeWord, FirstWord, Follows, FollowsInBlock};

use crate::BlockKind;
use crate::reader::{Reader, Stop};
use crate::words::{BlockWord, block_word, is_foreign, is_model_name, is_name, node_kind};
use net_lexer::{Token, TokenKind};

impl Reader<'_, '_> {
    /// Goes past the next token if it is of that kind.
    pub fn accept(&mut self, kind: TokenKind) -> bool
        ensures test { result ≡ is_next kind self.old }
        ensures accepted { OnTrue result (Mark kind self.old self.new) }
        ensures refused { OnFalse result (self.new ≡ self.old) }
    {
        match self.peek() {
            Some((token, _)) if token.kind == kind => {
                self.advance();
                true
            }
            _ => false,
        }
    }

    /// Goes past the next token, which must be of that kind.
    pub fn expect(&mut self, kind: TokenKind) -> Result<(), Stop>
        ensures rule { OnOk result (Mark kind self.old self.new) }
        ensures follows { Follows (mark kind ∷ []) result self.old self.new }
        ensures shorter { OnOk result (length self.new < length self.old) }
    {
        if self.accept(kind) {
            Ok(())
        } else {
            Err(Stop::Unexpected)
        }
    }

    /// Reads a name.
    pub fn name(&mut self) -> Result<Token, Stop>
        ensures rule { IfOk result (λ token. Name token self.old self.new) }
        ensures follows { Follows (name ∷ []) result self.old self.new }
        ensures shorter { OnOk result (length self.new < length self.old) }
    {
        match self.peek() {
            Some((token, bytes)) if token.kind == TokenKind::Word && is_name(bytes) => {
                self.advance();
                Ok(token)
            }
            _ => Err(Stop::Unexpected),
        }
    }

    /// Reads an attribute's name.
    pub fn attribute_name(&mut self, potential: bool) -> Result<Token, Stop>
        ensures rule { IfOk result (λ token. AttributeName potential token self.old self.new) }
        ensures follows { Follows (attribute_name potential ∷ []) result self.old self.new }
        ensures shorter { OnOk result (length self.new < length self.old) }
    {
        match self.peek() {
            Some((token, bytes)) if token.kind == TokenKind::Word && is_name(bytes) => {
                if potential && is_model_name(bytes) {
                    return Err(Stop::Unsupported);
                }
                self.advance();
                Ok(token)
            }
            _ => Err(Stop::Unexpected),
        }
    }

    /// Reads the word of a node block, behind `discrete`.
    pub fn node_word(&mut self) -> Result<BlockKind, Stop>
        ensures rule { IfOk result (λ kind. NodeWord kind self.old self.new) }
        ensures follows { Follows (node_word ∷ []) result self.old self.new }
        ensures shorter { OnOk result (length self.new < length self.old) }
    {
        let Some((token, bytes)) = self.peek() else {
            return Err(Stop::Unexpected);
        };
        if token.kind != TokenKind::Word {
            return Err(Stop::Unexpected);
        }
        if let Some(kind) = node_kind(bytes) {
            self.advance();
            Ok(kind)
        } else if bytes == b"function".as_slice() {
            Err(Stop::Unsupported)
        } else {
            Err(Stop::Unexpected)
        }
    }

    /// Reads the first word of a block, which may be the text's first.
    pub fn first_word(&mut self, first: bool) -> Result<BlockWord, Stop>
        requires { 0 < length self.old }
        ensures rule { IfOk result (λ begins. FirstWord first begins self.old self.new) }
        ensures follows { FollowsInBlock first behind result self.old self.new }
        ensures shorter { OnOk result (length self.new < length self.old) }
    {
        let Some((token, bytes)) = self.peek() else {
            return Err(Stop::Unexpected);
        };
        if token.kind != TokenKind::Word {
            return Err(Stop::Unexpected);
        }
        if let Some(begins) = block_word(bytes, first) {
            self.advance();
            Ok(begins)
        } else if is_foreign(bytes) {
            Err(Stop::Unsupported)
        } else {
            Err(Stop::Unexpected)
        }
    }
}
