//! The line of the order, read.

ghost use Rattle.std.specs.Prelude.{◌<◌, ◌↔◌, ℕ, Contains, IsTrue, IfOk, IfSome, IfNone};
ghost use Rattle.maid_model.specs.Names.{NamesFit};
ghost use Rattle.maid_model.specs.Nodes.{IsDecision};
ghost use Rattle.report_text.specs.Reading.{AreTold};
ghost use Rattle.report_text.specs.Slots.{IsDecisionNamed, NamesNoDecision, TellsOrder};

use crate::cuts::{behind, front};
use maid_model::{Diagram, Kind, Names};
use std::alloc::{AllocError, Global};

// The decision of that name, if there is one.
fn decision_of(diagram: &Diagram, names: &Names, name: &[u8]) -> Option<usize>
    requires { NamesFit diagram.now names.now }
    ensures some { IfSome result (IsDecisionNamed diagram.now.nodes names.now name.now) }
    ensures none { IfNone result (NamesNoDecision diagram.now.nodes names.now name.now) }
{
    for node in 0..diagram.count() {
        if diagram.kind(node) == Kind::Decision && names.name(node) == name {
            return Some(node);
        }
    }
    None
}

// Whether each decision stands in the order.
fn has_all(diagram: &Diagram, order: &[usize]) -> bool
    ensures { IsTrue result ↔ ((v : ℕ) → IsDecision diagram.now.nodes v → Contains order.now v) }
{
    for node in 0..diagram.count() {
        if diagram.kind(node) == Kind::Decision && !order.contains(&node) {
            return false;
        }
    }
    true
}

/// The order that the line shows, if it shows one: each decision once. Each name is searched among
/// the nodes'.
pub(crate) fn read_order(
    alloc: Global,
    diagram: &Diagram,
    names: &Names,
    line: &[u8],
) -> Result<Option<Vec<usize>>, AllocError>
    requires fit { NamesFit diagram.now names.now }
    requires told { AreTold names.now }
    ensures { IfOk result (TellsOrder diagram.now.nodes names.now line.now) }
{
    let mut order = Vec::new(alloc);
    let Some(mut rest) = behind(line, b"order:") else {
        return Ok(None);
    };
    'words: while !rest.is_empty() {
        let Some(words) = behind(rest, b" ") else {
            return Ok(None);
        };
        let (name, others) = front(words, b' ');
        match decision_of(diagram, names, name) {
            Some(node) if !order.contains(&node) => order.push(node)?,
            _ => return Ok(None),
        }
        rest = others;
    }
    if has_all(diagram, &order) {
        Ok(Some(order))
    } else {
        Ok(None)
    }
}
