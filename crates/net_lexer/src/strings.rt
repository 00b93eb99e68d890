//! Strings: where they end and what they mean.

ghost use Rattle.std.specs.Prelude.{◌≡◌, ◌<◌, [], length, MatchOption, IfOk};
ghost use Rattle.std.specs.Option.{option_map};
ghost use Rattle.net_lexer.specs.Fronts.{IsFirstMeant};
ghost use Rattle.net_lexer.specs.Strings.{behind_quote, unescaped};
ghost use Rattle.net_lexer.specs.Token.{IsTokenOf, text_value};
ghost use Rattle.net_lexer.specs.declared.tokens.TokenKind.TheVariants.{Text};

use crate::tokens::Token;
use std::alloc::{AllocError, Global};

/// What stands behind the first quote that isn't escaped, if there is one.
pub fn behind_quote(bytes: &[u8]) -> Option<&[u8]>
    ensures { option_map (λ rest. rest.now) result ≡ behind_quote bytes.now }
{
    let mut rest = bytes;
    loop {
        rest = match rest {
            [] => return None,
            [b'"', behind @ ..] => return Some(behind),
            [b'\\', b'"' | b'\\', behind @ ..] => behind,
            [_, behind @ ..] => behind,
        };
    }
}

// The first byte that the bytes mean, and what stands behind it or its escape.
fn first_meant(bytes: &[u8]) -> Option<(u8, &[u8])>
    ensures meant { IsFirstMeant bytes.now result }
    ensures shorter { MatchOption result (bytes.now ≡ []) (λ p. length p.1.now < length bytes.now) }
{
    match bytes {
        [] => None,
        [b'\\', second @ (b'"' | b'\\'), behind @ ..] => Some((*second, behind)),
        [first, behind @ ..] => Some((*first, behind)),
    }
}

fn unescaped(alloc: Global, bytes: &[u8]) -> Result<Vec<u8>, AllocError>
    ensures { IfOk result (λ value. value.items ≡ unescaped bytes.now) }
{
    let mut value = Vec::new(alloc);
    let mut rest = bytes;
    while let Some((byte, behind)) = first_meant(rest) {
        value.push(byte)?;
        rest = behind;
    }
    Ok(value)
}

/// What a string means: the bytes between its quotes with escapes undone.
///
/// The token is a `Text` token of the text. The cost is linear in the token's length.
pub fn text_value(alloc: Global, text: &[u8], token: &Token) -> Result<Vec<u8>, AllocError>
    requires token { IsTokenOf text.now token.now }
    requires string { token.now.kind ≡ Text }
    ensures { IfOk result (λ value. value.items ≡ text_value text.now token.now) }
{
    unescaped(
        alloc,
        &text[token.start as usize + 1..token.end as usize - 1],
    )
}
