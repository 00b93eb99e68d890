//! Words of the grammar.

ghost use Rattle.std.specs.Prelude.{◌≡◌, ◌||◌, true, IfSome};
ghost use Rattle.std.specs.Option.{option_map};
ghost use Rattle.net_lexer.specs.Token.{is_name, is_signed};
ghost use Rattle.net_parser.specs.Reading as spec;

use crate::BlockKind;

/// The first word of a block.
#[derive(Clone, Copy)]
pub enum BlockWord {
    Net,
    Discrete,
    Node(BlockKind),
    Potential,
}

/// The word has no sign, so it is a name.
pub fn is_name(word: &[u8]) -> bool
    requires { (is_name word.now || is_signed word.now) ≡ true }
    ensures { result ≡ is_name word.now }
{
    !matches!(word, [b'+' | b'-', ..])
}

/// The word begins a block that is not read here.
pub fn is_foreign(word: &[u8]) -> bool
    ensures { result ≡ spec.is_foreign word.now }
{
    word == b"continuous".as_slice()
        || word == b"function".as_slice()
        || word == b"class".as_slice()
        || word == b"instance".as_slice()
}

/// The word names no attribute of a potential.
pub fn is_model_name(word: &[u8]) -> bool
    ensures { result ≡ spec.is_model_name word.now }
{
    word == b"model_nodes".as_slice() || word == b"model_data".as_slice()
}

/// The kind of node block that the word begins.
pub fn node_kind(word: &[u8]) -> Option<BlockKind>
    ensures { result ≡ spec.node_kind word.now }
{
    if word == b"node".as_slice() {
        Some(BlockKind::Node)
    } else if word == b"decision".as_slice() {
        Some(BlockKind::Decision)
    } else if word == b"utility".as_slice() {
        Some(BlockKind::Utility)
    } else {
        None
    }
}

/// A block's first word, if it is one. The text's first block alone may begin with `net`.
pub fn block_word(word: &[u8], first: bool) -> Option<BlockWord>
    ensures word { IfSome result (λ begins. spec.IsFirstWord first begins word.now) }
    ensures behind { option_map spec.behind result ≡ spec.block_word first word.now }
{
    if word == b"net".as_slice() && first {
        Some(BlockWord::Net)
    } else if word == b"discrete".as_slice() {
        Some(BlockWord::Discrete)
    } else if let Some(kind) = node_kind(word) {
        Some(BlockWord::Node(kind))
    } else if word == b"potential".as_slice() {
        Some(BlockWord::Potential)
    } else {
        None
    }
}
