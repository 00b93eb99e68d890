//! From a file's bytes to the diagram that they stand for, or to the line of their fault.

ghost use Rattle.std.specs.Prelude.{All, IfOk, IfErr, Some};
ghost use Rattle.maid_model.specs.Names.{NamesFit};
ghost use Rattle.first_fault.specs.Answers.{IsFaultOrNoMemory};
ghost use Rattle.net_build.specs.Passes.{kind_view, found};
ghost use Rattle.net_build.specs.Table.{all_passes};
ghost use Rattle.net_lexer.specs.Pieces.{IsTokens, token_pass, lex_fault};
ghost use Rattle.net_parser.specs.Grammar.{Spells};
ghost use Rattle.net_parser.specs.Lexemes.{lexemes};
ghost use Rattle.net_parser.specs.Owned.{IsBlockOf};
ghost use Rattle.net_print.specs.RoundTrip.{IsPrintable};
ghost use Rattle.app_forms.specs.Diagrams.{IsDiagramOf};
ghost use Rattle.app_forms.specs.Reading.{TellsTextFault, IsFaultOfTree, IsSpelled, IsTreeFault, TellsFaultAt};

use crate::fault_words::kind_words;
use crate::refusal::Refusal;
use crate::{Status, lines};
use maid_model::{Diagram, Names};
use net_build::{BuildFault, BuildKind, build};
use net_lexer::{LexFault, Tokens, lex};
use net_parser::{ParseFault, Syntax, parse};
use std::alloc::{AllocError, Global};

/// A file's name and its bytes.
#[derive(Clone, Copy)]
pub struct Source<'a> {
    /// The name that lines tell.
    pub name: &'a str,
    /// All bytes of the text.
    pub bytes: &'a [u8],
}

impl Source<'_> {
    // The refusal that tells the fault at that place. Its line takes memory, which may run out.
    fn fault(self, alloc: Global, at: usize, words: &[u8]) -> Refusal
        ensures { TellsFaultAt self.entry at words.now result }
    {
        match lines::fault(alloc, self.name.as_bytes(), self.bytes, at, words) {
            Ok(line) => Refusal::Told {
                status: Status::TextFault,
                line,
            },
            Err(_) => Refusal::NoMemory,
        }
    }

    // The refusal of bytes that have no tokens.
    fn token_refusal(self, alloc: Global, fault: LexFault) -> Refusal
        requires { IsFaultOrNoMemory lex_fault (token_pass self.bytes.now) fault }
        ensures { TellsTextFault self.entry.name.now self.entry.bytes.now result }
    {
        match fault {
            LexFault::BadByte { at } => self.fault(alloc, at, b"bad byte"),
            LexFault::OpenString { at } => self.fault(alloc, at, b"open string"),
            LexFault::BadNumeral { at } => self.fault(alloc, at, b"bad numeral"),
            LexFault::NoMemory => Refusal::NoMemory,
        }
    }

    // The refusal of tokens that spell no tree.
    fn grammar_refusal(self, alloc: Global, tokens: &Tokens, fault: ParseFault) -> Refusal
        requires tokens { IsTokens self.bytes.now tokens.now }
        requires refuses { IsTreeFault self.bytes.now tokens.now fault }
        ensures { TellsTextFault self.entry.name.now self.entry.bytes.now result }
    {
        match fault {
            ParseFault::Unexpected { at } => self.fault(alloc, at, b"unexpected"),
            ParseFault::Unsupported { at } => self.fault(alloc, at, b"unsupported"),
            ParseFault::TooDeep { at } => self.fault(alloc, at, b"too deep"),
            ParseFault::NoMemory => Refusal::NoMemory,
        }
    }

    // The tokens of the bytes.
    fn tokens(self, alloc: Global) -> Result<Tokens, Refusal>
        ensures ok { IfOk result (λ tokens. IsTokens self.entry.bytes.now tokens) }
        ensures err { IfErr result (TellsTextFault self.entry.name.now self.entry.bytes.now) }
    {
        match lex(alloc, self.bytes) {
            Ok(tokens) => Ok(tokens),
            Err(fault) => Err(self.token_refusal(alloc, fault)),
        }
    }

    // The tree that the tokens of the bytes spell.
    fn tree<'t>(self, alloc: Global, tokens: &'t Tokens) -> Result<Syntax<'t>, Refusal>
        requires { IsTokens self.bytes.now tokens.now }
        ensures spells { IfOk result (IsSpelled self.entry.bytes.now tokens.now) }
        ensures blocks { IfOk result (λ tree. All (IsBlockOf self.entry.bytes.now) tree) }
        ensures err { IfErr result (TellsTextFault self.entry.name.now self.entry.bytes.now) }
    {
        match parse(alloc, self.bytes, tokens) {
            Ok(tree) => Ok(tree),
            Err(fault) => Err(self.grammar_refusal(alloc, tokens, fault)),
        }
    }

    // The refusal of a tree with that fault.
    fn kind_refusal(
        self,
        alloc: Global,
        tokens: &Tokens,
        tree: &Syntax<'_>,
        at: usize,
        kind: &BuildKind,
    ) -> Refusal
        requires tokens { IsTokens self.bytes.now tokens.now }
        requires spells { Spells tree.now (lexemes self.bytes.now tokens.now) }
        requires blocks { All (IsBlockOf self.bytes.now) tree.now }
        requires fault { all_passes self.bytes.now tree.now (Some (found at (kind_view kind.now))) }
        ensures { TellsTextFault self.entry.name.now self.entry.bytes.now result }
    {
        match kind_words(alloc, self.bytes, tree, kind) {
            Ok(words) => self.fault(alloc, at, &words),
            Err(AllocError) => Refusal::NoMemory,
        }
    }

    // The refusal of a tree that stands for no diagram.
    fn build_refusal(
        self,
        alloc: Global,
        tokens: &Tokens,
        tree: &Syntax<'_>,
        fault: &BuildFault,
    ) -> Refusal
        requires tokens { IsTokens self.bytes.now tokens.now }
        requires spells { Spells tree.now (lexemes self.bytes.now tokens.now) }
        requires blocks { All (IsBlockOf self.bytes.now) tree.now }
        requires refuses { IsFaultOfTree self.bytes.now tree.now fault.now }
        ensures { TellsTextFault self.entry.name.now self.entry.bytes.now result }
    {
        match fault {
            BuildFault::Fault { at, kind } => self.kind_refusal(alloc, tokens, tree, *at, kind),
            BuildFault::NoMemory => Refusal::NoMemory,
        }
    }

    /// The diagram that the bytes stand for, and the names in them.
    pub fn diagram(self, alloc: Global) -> Result<(Diagram, Names), Refusal>
        ensures ok { IfOk result (λ built. IsDiagramOf self.entry.bytes.now built.0 built.1) }
        ensures fit { IfOk result (λ built. NamesFit built.0 built.1) }
        ensures printable { IfOk result (λ built. IsPrintable built.0 built.1) }
        ensures err { IfErr result (TellsTextFault self.entry.name.now self.entry.bytes.now) }
    {
        let tokens = self.tokens(alloc)?;
        let tree = self.tree(alloc, &tokens)?;
        match build(alloc, self.bytes, &tokens, &tree) {
            Ok(built) => Ok(built),
            Err(fault) => Err(self.build_refusal(alloc, &tokens, &tree, &fault)),
        }
    }
}
