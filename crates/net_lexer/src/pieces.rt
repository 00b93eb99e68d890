//! The pieces of a text: white space, comments and tokens.

ghost use Rattle.std.specs.Prelude.{◌≡◌, ◌<◌, ◌≤◌, ◌^◌, length, take, drop, slice_index, true, false, IsTrue, IfOk, IfErr, IfSome, IfNone};
ghost use Rattle.std.specs.List.{list_all, prefix_len};
ghost use Rattle.net_lexer.specs.Bytes.{is_digit, is_percent, is_line_byte, is_quote, is_word_start, is_word_byte, is_run_start, is_run_byte, is_punctuation};
ghost use Rattle.net_lexer.specs.Fronts.{BeginsWithPiece, IsBehindPoint, ends_in_digits, is_plain_run};
ghost use Rattle.net_lexer.specs.Numerals.{is_numeral};
ghost use Rattle.net_lexer.specs.Strings.{is_open_string};
ghost use Rattle.net_lexer.specs.Token.{is_name, is_signed};
ghost use Rattle.net_lexer.specs.Pieces.{IsPieceOf, IsFaultAt, begins, is_bad_numeral, token_of, BeginsWithToken};

use crate::bytes::{
    is_digit, is_run_byte, is_run_start, is_sign, is_white, is_word_byte, is_word_start,
};
use crate::numerals::is_numeral;
use crate::strings::behind_quote;
use crate::{LexFault, Token, TokenKind};

/// What a piece is.
#[derive(Clone, Copy)]
pub enum PieceKind {
    Blank,
    Comment,
    Token(TokenKind),
}

/// A piece, and where its bytes stand.
#[derive(Clone, Copy)]
pub struct Piece {
    pub kind: PieceKind,
    pub start: usize,
    pub end: usize,
}

// What stands behind the first bytes.
fn behind(bytes: &[u8], count: usize) -> &[u8]
    requires { count ≤ length bytes.now }
    ensures { result.now ≡ drop count bytes.now }
{
    &bytes[count..]
}

// The longest front of bytes that go on with a comment.
fn line_len(bytes: &[u8]) -> usize
    ensures { result ≡ prefix_len is_line_byte bytes.now }
{
    bytes.iter().take_while(|b| **b != b'\n').count()
}

// The longest front of bytes that go on with a word.
fn word_len(bytes: &[u8]) -> usize
    ensures { result ≡ prefix_len is_word_byte bytes.now }
{
    bytes.iter().take_while(|b| is_word_byte(**b)).count()
}

// The longest front of bytes that go on with a run.
fn run_len(bytes: &[u8]) -> usize
    ensures { result ≡ prefix_len is_run_byte bytes.now }
{
    bytes.iter().take_while(|b| is_run_byte(**b)).count()
}

// The longest front of digits.
fn digits_len(bytes: &[u8]) -> usize
    ensures { result ≡ prefix_len is_digit bytes.now }
{
    bytes.iter().take_while(|b| is_digit(**b)).count()
}

// The bytes go on with a run. Behind most runs stands a blank, below each byte of a run.
fn run_goes_on(bytes: &[u8]) -> bool
    ensures { result ≡ begins is_run_byte bytes.now }
{
    match bytes {
        [first, ..] => *first > b' ' && is_run_byte(*first),
        [] => false,
    }
}

// The longest front of digits, where no run goes on behind it.
fn last_digits_len(bytes: &[u8]) -> Option<usize>
    ensures len { IfSome result (λ len. len ≡ prefix_len is_digit bytes.now) }
    ensures ends { IfSome result (λ len. begins is_run_byte (drop len bytes.now) ≡ false) }
    ensures none { IfNone result (ends_in_digits bytes.now ≡ false) }
{
    let len = digits_len(bytes);
    if run_goes_on(behind(bytes, len)) {
        return None;
    }
    Some(len)
}

// What stands behind a point at the front.
fn behind_point(bytes: &[u8]) -> Option<&[u8]>
    ensures { IsBehindPoint bytes.now result }
{
    match bytes {
        [b'.', rest @ ..] => Some(rest),
        _ => None,
    }
}

// The longest front of bytes that go on with a run, where it is written as most numerals are:
// digits, and perhaps a point and digits behind them. It looks at each byte once.
fn plain_len(bytes: &[u8]) -> Option<usize>
    ensures len { IfSome result (λ len. len ≡ prefix_len is_run_byte bytes.now) }
    ensures numeral { IfSome result (λ len. is_numeral (take len bytes.now) ≡ true) }
    ensures none { IfNone result (is_plain_run bytes.now ≡ false) }
{
    let whole = digits_len(bytes);
    if whole == 0 {
        return None;
    }
    let rest = behind(bytes, whole);
    match behind_point(rest) {
        Some(decimals) => match last_digits_len(decimals) {
            Some(len) => Some(whole + 1 + len),
            None => None,
        },
        None if run_goes_on(rest) => None,
        None => Some(whole),
    }
}

fn is_all_word_bytes(bytes: &[u8]) -> bool
    ensures { result ≡ list_all is_word_byte bytes.now }
{
    bytes.iter().all(|b| is_word_byte(*b))
}

fn is_name(bytes: &[u8]) -> bool
    ensures { result ≡ is_name bytes.now }
{
    match bytes {
        [first, rest @ ..] => is_word_start(*first) && is_all_word_bytes(rest),
        [] => false,
    }
}

fn is_signed(bytes: &[u8]) -> bool
    ensures { result ≡ is_signed bytes.now }
{
    match bytes {
        [first, rest @ ..] => is_sign(*first) && is_name(rest),
        [] => false,
    }
}

fn comment_len(bytes: &[u8]) -> usize
    requires some { 0 < length bytes.now }
    requires begins { IsTrue (is_percent (slice_index bytes.now 0)) }
    ensures { BeginsWithPiece bytes.now PieceKind.Comment result }
{
    line_len(bytes)
}

fn name_len(bytes: &[u8]) -> usize
    requires some { 0 < length bytes.now }
    requires begins { IsTrue (is_word_start (slice_index bytes.now 0)) }
    ensures { BeginsWithToken bytes.now TokenKind.Word result }
{
    word_len(bytes)
}

fn string_len(bytes: &[u8]) -> Option<usize>
    requires some { 0 < length bytes.now }
    requires begins { IsTrue (is_quote (slice_index bytes.now 0)) }
    ensures some { IfSome result (λ len. BeginsWithToken bytes.now TokenKind.Text len) }
    ensures none { IfNone result (IsTrue (is_open_string bytes.now)) }
{
    match behind_quote(behind(bytes, 1)) {
        Some(rest) => Some(bytes.len() - rest.len()),
        None => None,
    }
}

// The run at the front: a number or a signed word.
fn run(bytes: &[u8]) -> Option<(TokenKind, usize)>
    requires some { 0 < length bytes.now }
    requires begins { IsTrue (is_run_start (slice_index bytes.now 0)) }
    ensures some { IfSome result (λ p. BeginsWithToken bytes.now p.0 p.1) }
    ensures none { IfNone result (IsTrue (is_bad_numeral bytes.now)) }
{
    if let Some(len) = plain_len(bytes) {
        return Some((TokenKind::Number, len));
    }
    let len = run_len(bytes);
    let run = &bytes[..len];
    if is_numeral(run) {
        Some((TokenKind::Number, len))
    } else if is_signed(run) {
        Some((TokenKind::Word, len))
    } else {
        None
    }
}

fn punctuation(bytes: &[u8]) -> Option<TokenKind>
    requires { 0 < length bytes.now }
    ensures some { IfSome result (λ kind. BeginsWithToken bytes.now kind 1) }
    ensures none { IfNone result (is_punctuation (slice_index bytes.now 0) ≡ false) }
{
    match bytes[0] {
        b'{' => Some(TokenKind::BraceOpen),
        b'}' => Some(TokenKind::BraceClose),
        b'(' => Some(TokenKind::ParenOpen),
        b')' => Some(TokenKind::ParenClose),
        b'=' => Some(TokenKind::Equals),
        b';' => Some(TokenKind::Semicolon),
        b'|' => Some(TokenKind::Bar),
        _ => None,
    }
}

// The kind and length of the piece at the front of the bytes, which stand at that place.
fn front(bytes: &[u8], at: usize) -> Result<(PieceKind, usize), LexFault>
    requires { 0 < length bytes.now }
    ensures ok { IfOk result (λ p. BeginsWithPiece bytes.now p.0 p.1) }
    ensures err { IfErr result (λ fault. IsFaultAt at bytes.now fault) }
{
    match bytes[0] {
        first if is_white(first) => Ok((PieceKind::Blank, 1)),
        first if is_run_start(first) => match run(bytes) {
            Some((kind, len)) => Ok((PieceKind::Token(kind), len)),
            None => Err(LexFault::BadNumeral { at }),
        },
        b'%' => Ok((PieceKind::Comment, comment_len(bytes))),
        b'"' => match string_len(bytes) {
            Some(len) => Ok((PieceKind::Token(TokenKind::Text), len)),
            None => Err(LexFault::OpenString { at }),
        },
        first if is_word_start(first) => Ok((PieceKind::Token(TokenKind::Word), name_len(bytes))),
        _ => match punctuation(bytes) {
            Some(kind) => Ok((PieceKind::Token(kind), 1)),
            None => Err(LexFault::BadByte { at }),
        },
    }
}

impl Piece {
    /// The piece that begins at the place, or the fault there.
    pub fn at(text: &[u8], start: usize) -> Result<Piece, LexFault>
        requires { start < length text.now }
        ensures piece { IfOk result (λ piece. IsPieceOf text.now piece) }
        ensures start { IfOk result (λ piece. piece.start ≡ start) }
        ensures err { IfErr result (λ fault. IsFaultAt start (drop start text.now) fault) }
    {
        let (kind, len) = front(behind(text, start), start)?;
        Ok(Piece {
            kind,
            start,
            end: start + len,
        })
    }

    /// The token that the piece is, if it is one.
    pub fn token(self) -> Option<Token>
        requires start { self.start < 2 ^ 32 }
        requires end { self.end < 2 ^ 32 }
        ensures { result ≡ token_of self }
    {
        match self.kind {
            PieceKind::Token(kind) => Some(Token {
                kind,
                start: self.start as u32,
                end: self.end as u32,
            }),
            PieceKind::Blank | PieceKind::Comment => None,
        }
    }
}
