//! Tests of `net_parser`: small texts, parsed and refused.

use net_lexer::lex;
use net_parser::{Block, parse};
use std::alloc::{AllocError, Global};
use std::process::Abort;
use std::test::Fail;

// Adds a block to an outline, by its kind and how many names and attributes it has.
fn push_block(alloc: Global, outline: &mut String, block: &Block) -> Result<(), AllocError> {
    let kind = block.kind;
    let names = block.names.len();
    let attributes = block.attributes.len();
    let part = format!(in alloc; "{kind:?} {names} {attributes};")?;
    outline.push_str(part.as_str())
}

fn outline_of(alloc: Global, blocks: &[Block]) -> Result<String, AllocError> {
    let mut outline = String::new(alloc);
    for block in blocks {
        push_block(alloc, &mut outline, block)?;
    }
    Ok(outline)
}

// The blocks of a text, or its fault.
fn outline(alloc: Global, text: &[u8]) -> Result<String, Fail> {
    let tokens = lex(alloc, text)?;
    match parse(alloc, text, &tokens) {
        Ok(syntax) => Ok(outline_of(alloc, &syntax.blocks)?),
        Err(fault) => Ok(format!(in alloc; "{fault}")?),
    }
}

// A block with so many lists in one another.
fn nested(alloc: Global, depth: usize) -> Result<String, Fail> {
    let mut text = String::from_str(alloc, "node A{a=")?;
    for _ in 0..depth {
        text.push_str("(")?;
    }
    for _ in 0..depth {
        text.push_str(")")?;
    }
    text.push_str(";}")?;
    Ok(text)
}

// Whether the text has that outline.
fn has_outline(alloc: Global, text: &str, want: &str) -> Result<bool, Fail> {
    let found = outline(alloc, text.as_bytes())?;
    Ok(found.as_str() == want)
}

// Each of the texts has the outline of its row.
fn compare(rt: &impl Abort, alloc: Global, rows: &[(&str, &str)]) -> Result<(), Fail> {
    for &(text, want) in rows {
        assert!(rt; has_outline(alloc, text, want)?, "{text}");
    }
    Ok(())
}

// Each row has a text, and its outline.
const BLOCKS: &[(&str, &str)] = &[
    ("", ""),
    ("net{a=1;}", "Net 0 1;"),
    (
        "net{} discrete node A{states=(\"x\"\"y\");} decision D{} utility U{a=b;c=-d;}",
        "Net 0 0;Node 1 1;Decision 1 0;Utility 1 2;",
    ),
    (
        "potential(U|A D){data=((1 2)(3));}potential(A){}",
        "Potential 3 1;Potential 1 0;",
    ),
    ("potential(A |){}", "Potential 1 0;"),
    ("node A{states=();}", "Node 1 1;"),
    ("node net{node=node;}", "Node 1 1;"),
    (
        "node A{model_data=1;}potential(model_data){a=model_data;}",
        "Node 1 1;Potential 1 1;",
    ),
];

// Each row has a text, and its fault.
const UNEXPECTED: &[(&str, &str)] = &[
    ("net", "unexpected at 3"),
    ("node A{} net{}", "unexpected at 9"),
    ("net{a=1}", "unexpected at 7"),
    ("net{} net{}", "unexpected at 6"),
    ("net{}x", "unexpected at 5"),
    ("node A{data=;}", "unexpected at 12"),
    ("node A{a=1 2;}", "unexpected at 11"),
    ("node A{a=(;)}", "unexpected at 10"),
    ("node A{a=1;", "unexpected at 11"),
    ("node -A{}", "unexpected at 5"),
    ("potential(A|B|C){}", "unexpected at 13"),
    ("potential(){}", "unexpected at 10"),
    ("potential(A B){}", "unexpected at 12"),
    ("discrete potential(A){}", "unexpected at 9"),
    ("discrete class C{}", "unexpected at 9"),
];

// The same of texts with what is not supported.
const UNSUPPORTED: &[(&str, &str)] = &[
    ("discrete function F{}", "unsupported at 9"),
    ("function F{}", "unsupported at 0"),
    ("continuous node A{}", "unsupported at 0"),
    ("node A{} class C{}", "unsupported at 9"),
    ("net{} instance I{}", "unsupported at 6"),
    ("potential(A){model_data=1;}", "unsupported at 13"),
    ("potential(A){a=1;model_nodes=1;}", "unsupported at 17"),
];

#[test]
fn texts_have_their_blocks(rt: HostRuntime) -> Result<(), Fail> {
    compare(&rt, rt.alloc(), BLOCKS)
}

#[test]
fn texts_have_their_unexpected_token(rt: HostRuntime) -> Result<(), Fail> {
    compare(&rt, rt.alloc(), UNEXPECTED)
}

#[test]
fn texts_have_their_unsupported_token(rt: HostRuntime) -> Result<(), Fail> {
    compare(&rt, rt.alloc(), UNSUPPORTED)
}

#[test]
fn lists_have_their_depth(rt: HostRuntime) -> Result<(), Fail> {
    let alloc = rt.alloc();
    let deepest = nested(alloc, 32)?;
    assert!(rt; has_outline(alloc, deepest.as_str(), "Node 1 1;")?);
    let too_deep = nested(alloc, 33)?;
    assert!(rt; has_outline(alloc, too_deep.as_str(), "too deep at 41")?);
    Ok(())
}
