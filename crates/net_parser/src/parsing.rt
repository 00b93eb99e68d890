//! From tokens to the tree, or to the first impossible token.

ghost use Rattle.std.specs.Prelude.{All, IfOk, IfErr};
ghost use Rattle.first_fault.specs.Answers.{IsFaultOrNoMemory};
ghost use Rattle.net_lexer.specs.Pieces.{IsTokens};
ghost use Rattle.net_parser.specs.Lexemes.{lexemes};
ghost use Rattle.net_parser.specs.Grammar.{Spells};
ghost use Rattle.net_parser.specs.Owned.{IsBlockOf};
ghost use Rattle.net_parser.specs.Faults.{tree_pass, parse_fault};

use crate::Syntax;
use crate::reader::Reader;
use net_lexer::{Tokens, tokens_stand_in_their_text};
use std::alloc::Global;
use thiserror::Error;

/// Why tokens spell no tree, and where the first impossible one begins. Where the text ends too
/// early the place is its length.
#[derive(Clone, Copy, Debug, PartialEq, Eq, Error)]
pub enum ParseFault {
    /// No text of the grammar has the token there, or ends there.
    #[error("unexpected at {at}")]
    Unexpected { at: usize },
    /// The word begins a kind of block, or names an attribute of a potential, that other tools
    /// read and this one doesn't.
    #[error("unsupported at {at}")]
    Unsupported { at: usize },
    /// The parenthesis would open the 33rd list inside lists of one value.
    #[error("too deep at {at}")]
    TooDeep { at: usize },
    /// Memory ran out, which says nothing of the text.
    #[error("out of memory")]
    NoMemory,
}

/// The tree that the tokens of the text spell, or their first impossible token. Reading is linear
/// in the tokens, and takes memory for the blocks, their names and 16 bytes an attribute: values are
/// lent from the tokens.
pub fn parse<'a>(alloc: Global, text: &[u8], tokens: &'a Tokens) -> Result<Syntax<'a>, ParseFault>
    requires { IsTokens text.now tokens.now }
    // The tree is spelled by the tokens, each of them.
    ensures tree { IfOk result (λ syntax. Spells syntax (lexemes text.now tokens.now)) }
    // Its tokens are those of the text, with as many names as the kind of block asks for.
    ensures blocks { IfOk result (λ syntax. All (IsBlockOf text.now) syntax) }
    // The first impossible token, or the text's end. Want of memory says nothing of the text.
    ensures fault { IfErr result (IsFaultOrNoMemory parse_fault (tree_pass text.now tokens.now)) }
{
    // Each token has its bytes in the text.
    tokens_stand_in_their_text();
    let mut reader = Reader::new(text, tokens.list());
    match reader.text(alloc) {
        Ok(blocks) => Ok(Syntax { blocks }),
        Err(stop) => Err(stop.at(reader.place(text.len()))),
    }
}
