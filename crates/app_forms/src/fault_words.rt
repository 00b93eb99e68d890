//! What is wrong with a tree, in words.

ghost use Rattle.std.specs.Prelude.{◌≡◌, ◌++◌, [], All, IfOk, OnOk, slice_index_or};
ghost use Rattle.net_lexer.specs.Token.{IsTokenOf};
ghost use Rattle.net_parser.specs.Owned.{IsBlockOf};
ghost use Rattle.app_forms.specs.Faults.{limit_words, count_words, cycle_words, passed_words};
ghost use Rattle.app_forms.specs.Words.{node_titles, tokens_bytes, AreBlockNames, AreCycleWords, AreKindWords, cycle_names_in};
ghost use Rattle.line_pieces.specs.Pushed.{PushAppends};

use line_pieces::Piece::{Number, Text};
use line_pieces::joined;
use net_build::{BuildKind, Limit};
use net_lexer::Token;
use net_parser::{Block, BlockKind, Syntax};
use std::alloc::{AllocError, Global};

fn limit_words(limit: Limit) -> &'static [u8]
    ensures { result.now ≡ limit_words limit }
{
    match limit {
        Limit::Nodes => b"nodes ",
        Limit::NameBytes => b"name bytes ",
        Limit::States => b"states ",
        Limit::Agents => b"agents ",
        Limit::Parents => b"parents ",
        Limit::Cells => b"cells ",
        Limit::Rules => b"rules ",
    }
}

// Appends the name of a node block.
fn push_title(text: &[u8], names: &mut Vec<Token>, block: &Block<'_>) -> Result<(), AllocError>
    requires { IsBlockOf text.now block.now }
    ensures { OnOk result (names.new.items ≡ names.old.items ++ node_titles block.now) }
{
    match block.kind {
        BlockKind::Node | BlockKind::Decision | BlockKind::Utility => {
            names.push(block.names[0])?;
        }
        BlockKind::Net | BlockKind::Potential => {}
    }
    Ok(())
}

// The names of the node blocks, in text order.
fn node_names(alloc: Global, text: &[u8], blocks: &[Block<'_>]) -> Result<Vec<Token>, AllocError>
    requires { All (IsBlockOf text.now) blocks.now }
    ensures own { IfOk result (λ names. All (IsTokenOf text.now) names.items) }
    ensures names { IfOk result (AreBlockNames text.now blocks.now) }
{
    let mut names = Vec::new(alloc);
    for block in blocks {
        push_title(text, &mut names, block)?;
    }
    Ok(names)
}

// The name of that number, or nothing behind the last.
fn name_at<'a>(text: &'a [u8], names: &[Token], v: usize) -> &'a [u8]
    requires { All (IsTokenOf text.now) names.now }
    ensures { result.now ≡ slice_index_or (tokens_bytes text.now names.now) v [] }
{
    match names.get(v) {
        Some(name) => name.bytes(text),
        None => &[],
    }
}

// Appends the name of each node of the cycle after one space.
#[tactic(auto, unfolding(crate::specs::Faults::cycle_names))]
fn push_cycle(
    out: &mut Vec<u8>,
    text: &[u8],
    names: &[Token],
    cycle: &[usize],
) -> Result<(), AllocError>
    requires { All (IsTokenOf text.now) names.now }
    ensures { PushAppends out.old out.new result (cycle_names_in text.now names.now cycle.now) }
{
    for v in cycle {
        out.push(b' ')?;
        out.extend_from_slice(name_at(text, names, *v))?;
    }
    Ok(())
}

// The words of a cycle of nodes.
fn cycle_words(
    alloc: Global,
    text: &[u8],
    blocks: &[Block<'_>],
    cycle: &[usize],
) -> Result<Vec<u8>, AllocError>
    requires { All (IsBlockOf text.now) blocks.now }
    ensures { IfOk result (AreCycleWords text.now blocks.now cycle.now) }
{
    let names = node_names(alloc, text, blocks)?;
    let mut words = Vec::from_slice(alloc, b"graph cycle:")?;
    push_cycle(&mut words, text, &names, cycle)?;
    Ok(words)
}

// The words of a table of another count of numbers.
fn count_words(alloc: Global, want: usize, got: usize) -> Result<Vec<u8>, AllocError>
    ensures { IfOk result (λ words. words.items ≡ count_words want got) }
{
    joined(
        alloc,
        &[
            Text(b"wrong count: want "),
            Number(want as u128),
            Text(b" got "),
            Number(got as u128),
        ],
    )
}

// The words of a limit that is passed.
fn passed_words(alloc: Global, which: Limit, got: u128) -> Result<Vec<u8>, AllocError>
    ensures { IfOk result (λ words. words.items ≡ passed_words which got) }
{
    joined(
        alloc,
        &[
            Text(b"limit passed: "),
            Text(limit_words(which)),
            Number(got),
        ],
    )
}

/// What is wrong with the tree of the text.
pub fn kind_words(
    alloc: Global,
    text: &[u8],
    tree: &Syntax<'_>,
    kind: &BuildKind,
) -> Result<Vec<u8>, AllocError>
    requires { All (IsBlockOf text.now) tree.now }
    ensures { IfOk result (AreKindWords text.now tree.now kind.now) }
{
    let words: &[u8] = match kind {
        BuildKind::GraphCycle { list } => return cycle_words(alloc, text, &tree.blocks, list),
        BuildKind::WrongCount { want, got } => return count_words(alloc, *want, *got),
        BuildKind::LimitPassed { which, got } => return passed_words(alloc, *which, *got),
        BuildKind::DoubleName => b"double name",
        BuildKind::DoubleAttribute => b"double attribute",
        BuildKind::MissingStates => b"missing states",
        BuildKind::BadStates => b"bad states",
        BuildKind::BadLabel => b"bad label",
        BuildKind::BadAgent => b"bad agent",
        BuildKind::RepeatedAgent => b"repeated agent",
        BuildKind::UnknownName => b"unknown name",
        BuildKind::DoublePotential => b"double potential",
        BuildKind::RepeatedParent => b"repeated parent",
        BuildKind::UtilityParent => b"utility parent",
        BuildKind::MissingTable => b"missing table",
        BuildKind::NotANumber => b"not a number",
        BuildKind::NumberTooLong => b"number too long",
        BuildKind::Negative => b"negative",
        BuildKind::ZeroRow => b"zero row",
        BuildKind::WideWeight => b"wide weight",
        BuildKind::WideValue => b"wide value",
    };
    Vec::from_slice(alloc, words)
}
