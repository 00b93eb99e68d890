//! A reader over the tokens of a text.
//!
//! Each rule of the grammar is read by a method: on `Ok` it has gone past the tokens that spell
//! what it answers, and on `Err` it stands before the first impossible token. `terminals` has the
//! rules of one token, `values` and `blocks` those made of others.

ghost use Rattle.std.specs.Prelude.{◌≡◌, ◌<◌, List, [], length, drop, All, IfSome, IfNone, IsTrue};
ghost use Rattle.net_lexer.specs.Token.{IsTokenOf, is_token};
ghost use Rattle.net_parser.specs.Lexemes.{lexemes, tokens_in};
ghost use Rattle.net_parser.specs.Faults.{rest_place};
ghost use Rattle.net_parser.specs.Reading.{fault_at};
ghost use Rattle.net_parser.specs.ReaderCalls.{BeginsWithLexeme};

use crate::ParseFault;
use net_lexer::Token;
use std::alloc::{AllocError, AllocFailed};
use std::marker::Model;

/// Why a rule can't be read on from the next token.
#[derive(Clone, Copy)]
pub enum Stop {
    Unexpected,
    Unsupported,
    TooDeep,
    NoMemory,
}

impl Stop {
    /// The fault at that place.
    pub fn at(self, at: usize) -> ParseFault
        ensures { result ≡ fault_at self at }
    {
        match self {
            Stop::Unexpected => ParseFault::Unexpected { at },
            Stop::Unsupported => ParseFault::Unsupported { at },
            Stop::TooDeep => ParseFault::TooDeep { at },
            Stop::NoMemory => ParseFault::NoMemory,
        }
    }
}

impl<T: Drop> From<AllocFailed<T>> for Stop {
    ghost use Rattle.net_parser.specs.declared.reader.Stop.TheVariants.{NoMemory};

    ghost from_gives = { λ _ e. e ≡ NoMemory };

    fn from(_failed: AllocFailed<T>) -> Stop {
        Stop::NoMemory
    }
}

impl From<AllocError> for Stop {
    ghost use Rattle.net_parser.specs.declared.reader.Stop.TheVariants.{NoMemory};

    ghost from_gives = { λ _ e. e ≡ NoMemory };

    fn from(_error: AllocError) -> Stop {
        Stop::NoMemory
    }
}

/// The tokens that are still to be read, all of one text.
#[derive(Drop)]
pub struct Reader<'t, 'a> {
    text: &'t [u8],
    rest: &'a [Token],
}

impl<'t, 'a> Model for Reader<'t, 'a> {
    ghost use Rattle.std.specs.Prelude.{List, All};
    ghost use Rattle.net_lexer.specs.Token.{IsTokenOf};
    ghost use Rattle.net_parser.specs.Lexemes.{Lexeme, lexemes};

    ghost Value = { List Lexeme };

    ghost view = { λ r. lexemes r.text.now r.rest.now };

    ghost invariant = { λ r. All (IsTokenOf r.text.now) r.rest.now };
}

impl<'t, 'a> Reader<'t, 'a> {
    pub fn new(text: &'t [u8], tokens: &'a [Token]) -> Reader<'t, 'a>
        requires { All (IsTokenOf text.now) tokens.now }
        ensures { result ≡ lexemes text.now tokens.now }
    {
        Reader { text, rest: tokens }
    }

    /// The next token and its bytes.
    pub fn peek(&self) -> Option<(Token, &'t [u8])>
        ensures some { IfSome result (λ p. BeginsWithLexeme self.now p.0 p.1.now) }
        ensures none { IfNone result (self.now ≡ []) }
        ensures form { IfSome result (λ p. IsTrue (is_token p.0.kind p.1.now)) }
    {
        match self.rest {
            [token, ..] => Some((*token, token.bytes(self.text))),
            [] => None,
        }
    }

    /// Goes past the next token.
    pub fn advance(&mut self)
        requires { 0 < length self.old }
        ensures { self.new ≡ drop 1 self.old }
    {
        self.rest = &self.rest[1..];
    }

    /// The tokens that are still to be read.
    pub fn tokens(&self) -> &'a [Token]
        ensures { result.now ≡ tokens_in self.now }
    {
        self.rest
    }

    /// Where the next token begins, or the text's end where there is none.
    pub fn place(&self, end: usize) -> usize
        ensures { result ≡ rest_place end self.now }
    {
        match self.rest {
            [token, ..] => token.start as usize,
            [] => end,
        }
    }
}
