//! The rules of an attribute's value.

ghost use Rattle.std.specs.Prelude.{◌<◌, [], ◌∷◌, length, OnOk};
ghost use Rattle.net_parser.specs.Reading.{value, values, Follows};
ghost use Rattle.net_parser.specs.ReaderCalls.{PassesList, PassesValue};

use crate::reader::{Reader, Stop};
use net_lexer::TokenKind;

impl Reader<'_, '_> {
    /// Goes past a value in which so many lists may stand in one another.
    pub fn value(&mut self, depth: u8) -> Result<(), Stop>
        ensures rule { OnOk result (PassesValue depth self.old self.new) }
        ensures follows { Follows (value depth ∷ []) result self.old self.new }
        ensures shorter { OnOk result (length self.new < length self.old) }
    {
        let Some((token, _)) = self.peek() else {
            return Err(Stop::Unexpected);
        };
        match token.kind {
            TokenKind::Text | TokenKind::Number | TokenKind::Word => {
                self.advance();
                Ok(())
            }
            TokenKind::ParenOpen if depth == 0 => Err(Stop::TooDeep),
            TokenKind::ParenOpen => {
                self.advance();
                self.values(depth - 1)
            }
            _ => Err(Stop::Unexpected),
        }
    }

    // Goes past the values of a list and the parenthesis that closes it. Among them so many lists
    // may stand in one another.
    fn values(&mut self, depth: u8) -> Result<(), Stop>
        ensures rule { OnOk result (PassesList depth self.old self.new) }
        ensures follows { Follows (values depth ∷ []) result self.old self.new }
        ensures shorter { OnOk result (length self.new < length self.old) }
    {
        // How many lists are open that were opened here.
        let mut level = 0;
        while let Some((token, _)) = self.peek() {
            match token.kind {
                TokenKind::Text | TokenKind::Number | TokenKind::Word => {}
                TokenKind::ParenOpen if level == depth => return Err(Stop::TooDeep),
                TokenKind::ParenOpen => level += 1,
                TokenKind::ParenClose if level == 0 => {
                    self.advance();
                    return Ok(());
                }
                TokenKind::ParenClose => level -= 1,
                _ => return Err(Stop::Unexpected),
            }
            self.advance();
        }
        Err(Stop::Unexpected)
    }
}
