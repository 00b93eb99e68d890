//! The attributes of a block: those that count, and the first of a name.

ghost use Rattle.std.specs.Prelude.{◌≡◌, All, IfSome, bytes_eq};
ghost use Rattle.std.specs.List.{list_any};
ghost use Rattle.net_build.specs.Blocks.{counts_about, is_counted, named, names_owners, topic_of, word_of, IsFirst, is_repeat};
ghost use Rattle.first_fault.specs.Answers.{Passes};
ghost use Rattle.net_build.specs.Passes.{build_fault};
ghost use Rattle.net_build.specs.Table.{repeats};
ghost use Rattle.net_parser.specs.Owned.{IsAttributeOf, IsBlockOf};
ghost use Rattle.net_build.specs.NodeCalls.{attribute_repeats};

use crate::faults::{BuildFault, BuildKind};
use net_parser::{Attribute, Block, BlockKind};

/// The attribute's bytes of its name.
pub fn word_of<'a>(text: &'a [u8], attribute: &Attribute<'_>) -> &'a [u8]
    requires { IsAttributeOf text.now attribute.now }
    ensures { result.now ≡ word_of text.now attribute.now }
{
    attribute.name().bytes(text)
}

/// The attribute has that name.
pub fn is_named(text: &[u8], attribute: &Attribute<'_>, word: &[u8]) -> bool
    requires { IsAttributeOf text.now attribute.now }
    ensures { result ≡ bytes_eq (word_of text.now attribute.now) word.now }
{
    word_of(text, attribute) == word
}

/// The first attribute of that name.
pub fn first_named<'a, 't>(
    text: &[u8],
    attributes: &'a [Attribute<'t>],
    word: &[u8],
) -> Option<&'a Attribute<'t>>
    requires { All (IsAttributeOf text.now) attributes.now }
    ensures first { IsFirst (named text.now word.now attributes.now) result }
    ensures own { IfSome result (λ a. IsAttributeOf text.now a.now) }
{
    for attribute in attributes {
        if is_named(text, attribute, word) {
            return Some(attribute);
        }
    }
    None
}

/// An attribute of that name tells the owners of such a node.
pub fn names_owners(kind: BlockKind, word: &[u8]) -> bool
    ensures { result ≡ names_owners kind word.now }
{
    match kind {
        BlockKind::Decision => word == b"agent".as_slice(),
        BlockKind::Utility => word == b"agent".as_slice() || word == b"agents".as_slice(),
        BlockKind::Net | BlockKind::Node | BlockKind::Potential => false,
    }
}

// An attribute of that name counts in a block of the kind.
fn counts(kind: BlockKind, word: &[u8]) -> bool
    ensures { result ≡ is_counted kind word.now }
{
    match kind {
        BlockKind::Net => false,
        BlockKind::Node => word == b"states".as_slice(),
        BlockKind::Decision => word == b"states".as_slice() || names_owners(kind, word),
        BlockKind::Utility => names_owners(kind, word),
        BlockKind::Potential => word == b"data".as_slice(),
    }
}

// What the attribute is about.
fn topic_of<'a>(text: &'a [u8], attribute: &Attribute<'_>) -> &'a [u8]
    requires { IsAttributeOf text.now attribute.now }
    ensures { result.now ≡ topic_of text.now attribute.now }
{
    if is_named(text, attribute, b"agents") {
        b"agent"
    } else {
        word_of(text, attribute)
    }
}

// The attribute counts and is about that topic.
fn counts_about(text: &[u8], kind: BlockKind, attribute: &Attribute<'_>, topic: &[u8]) -> bool
    requires { IsAttributeOf text.now attribute.now }
    ensures { result ≡ counts_about text.now kind topic.now attribute.now }
{
    counts(kind, word_of(text, attribute)) && topic_of(text, attribute) == topic
}

// One of the attributes counts and is about that topic.
fn has_counted(text: &[u8], kind: BlockKind, attributes: &[Attribute<'_>], topic: &[u8]) -> bool
    requires { All (IsAttributeOf text.now) attributes.now }
    ensures { result ≡ list_any (counts_about text.now kind topic.now) attributes.now }
{
    attributes
        .iter()
        .any(|attribute| counts_about(text, kind, attribute, topic))
}

// The attribute counts, and one that counts before it is about the same.
fn is_repeated(
    text: &[u8],
    kind: BlockKind,
    before: &[Attribute<'_>],
    attribute: &Attribute<'_>,
) -> bool
    requires before { All (IsAttributeOf text.now) before.now }
    requires own { IsAttributeOf text.now attribute.now }
    ensures { result ≡ is_repeat text.now kind before.now attribute.now }
{
    // In a block at most two topics count, and a second attribute of one is refused: so few are
    // compared with those before them.
    counts(kind, word_of(text, attribute))
        && has_counted(text, kind, before, topic_of(text, attribute))
}

// No attribute that counts stands a second time.
fn check_counted(
    text: &[u8],
    kind: BlockKind,
    attributes: &[Attribute<'_>],
) -> Result<(), BuildFault>
    requires { All (IsAttributeOf text.now) attributes.now }
    ensures { Passes build_fault (attribute_repeats text.now kind attributes.now) result }
{
    for (place, attribute) in attributes.iter().enumerate() {
        if is_repeated(text, kind, &attributes[..place], attribute) {
            return Err(BuildKind::DoubleAttribute.at(attribute.name().start));
        }
    }
    Ok(())
}

/// No attribute that counts in the block stands a second time.
pub fn check_repeats(text: &[u8], block: &Block<'_>) -> Result<(), BuildFault>
    requires { IsBlockOf text.now block.now }
    ensures { Passes build_fault (repeats text.now block.now) result }
{
    check_counted(text, block.kind, &block.attributes)
}
