//! The lines of potentials.

ghost use Rattle.std.specs.Prelude.{◌≡◌, ◌<◌, ◌≤◌, length};
ghost use Rattle.maid_model.specs.declared.limits.TheConstants.{MOST_DECIMALS};
ghost use Rattle.maid_model.specs.declared.diagrams.Kind.TheVariants.{Chance};
ghost use Rattle.maid_model.specs.Names.{NamesFit};
ghost use Rattle.maid_model.specs.Nodes.{node_at};
ghost use Rattle.net_print.specs.Printed.{parted, potential_line, value_text, numbers_text_of, potentials_text, table_text_of};
ghost use Rattle.line_pieces.specs.Pushed.{PushAppends};
ghost use Rattle.net_print.specs.NodeTexts.{given_text_of, head_text_of, rows_text_of};

use crate::numbers::{push_reduced_row, push_value};
use crate::pieces::push_gap;
use line_pieces::push_names;
use maid_model::{Diagram, Kind, Names};
use std::alloc::AllocError;

// Appends a bar and the names of the parents, if there are any.
#[tactic(auto, using(std::proofs::Common::append_assoc))]
fn push_given(
    out: &mut Vec<u8>,
    diagram: &Diagram,
    names: &Names,
    node: usize,
) -> Result<(), AllocError>
    requires fit { NamesFit diagram.now names.now }
    requires node { node < length diagram.now.nodes }
    ensures { PushAppends out.old out.new result (given_text_of diagram.now.nodes names.now node) }
{
    let parents = diagram.parents(node);
    if parents.is_empty() {
        return Ok(());
    }
    out.extend_from_slice(b" |")?;
    push_names(out, names, parents)
}

// Appends the reduced rows of a chance node.
fn push_rows(out: &mut Vec<u8>, diagram: &Diagram, node: usize) -> Result<(), AllocError>
    requires node { node < length diagram.now.nodes }
    requires kind { (node_at diagram.now.nodes node).kind ≡ Chance }
    ensures { PushAppends out.old out.new result (rows_text_of diagram.now.nodes node) }
{
    let cells = diagram.cells(node);
    let states = diagram.states(node);
    for row in 0..diagram.rows(node) {
        let start = row * states;
        push_reduced_row(out, &cells[start..start + states], start)?;
    }
    Ok(())
}

// Appends the values of a utility.
fn push_values(out: &mut Vec<u8>, cells: &[i128], decimals: u32) -> Result<(), AllocError>
    requires { decimals ≤ MOST_DECIMALS }
    ensures { PushAppends out.old out.new result (parted (value_text decimals) cells.now) }
{
    for (place, cell) in cells.iter().enumerate() {
        push_gap(out, place)?;
        push_value(out, *cell, decimals)?;
    }
    Ok(())
}

// Appends the numbers of a chance node or a utility.
fn push_numbers(out: &mut Vec<u8>, diagram: &Diagram, node: usize) -> Result<(), AllocError>
    requires node { node < length diagram.now.nodes }
    ensures { PushAppends out.old out.new result (numbers_text_of diagram.now node) }
{
    match diagram.kind(node) {
        Kind::Chance => push_rows(out, diagram, node),
        Kind::Decision => Ok(()),
        Kind::Utility => push_values(out, diagram.cells(node), diagram.decimals()),
    }
}

// Appends the table of a node; a decision has none.
#[tactic(auto, using(std::proofs::Common::append_assoc))]
fn push_table(out: &mut Vec<u8>, diagram: &Diagram, node: usize) -> Result<(), AllocError>
    requires { node < length diagram.now.nodes }
    ensures { PushAppends out.old out.new result (table_text_of diagram.now node) }
{
    if diagram.kind(node) == Kind::Decision {
        return Ok(());
    }
    out.extend_from_slice(b"data = (")?;
    push_numbers(out, diagram, node)?;
    out.extend_from_slice(b"); ")
}

// Appends the head of a node's potential.
#[tactic(auto, using(std::proofs::Common::append_assoc))]
fn push_head(
    out: &mut Vec<u8>,
    diagram: &Diagram,
    names: &Names,
    node: usize,
) -> Result<(), AllocError>
    requires fit { NamesFit diagram.now names.now }
    requires node { node < length diagram.now.nodes }
    ensures { PushAppends out.old out.new result (head_text_of diagram.now.nodes names.now node) }
{
    out.extend_from_slice(b"potential (")?;
    out.extend_from_slice(names.name(node))?;
    push_given(out, diagram, names, node)?;
    out.push(b')')?;
    Ok(())
}

// Appends the line of a node's potential.
#[tactic(auto, using(std::proofs::Common::append_assoc))]
fn push_potential(
    out: &mut Vec<u8>,
    diagram: &Diagram,
    names: &Names,
    node: usize,
) -> Result<(), AllocError>
    requires fit { NamesFit diagram.now names.now }
    requires node { node < length diagram.now.nodes }
    ensures { PushAppends out.old out.new result (potential_line diagram.now names.now node) }
{
    push_head(out, diagram, names, node)?;
    out.extend_from_slice(b" { ")?;
    push_table(out, diagram, node)?;
    out.extend_from_slice(b"}\n")
}

/// Appends a line for each node's potential.
pub fn push_potentials(
    out: &mut Vec<u8>,
    diagram: &Diagram,
    names: &Names,
) -> Result<(), AllocError>
    requires { NamesFit diagram.now names.now }
    ensures { PushAppends out.old out.new result (potentials_text diagram.now names.now) }
{
    for node in 0..diagram.count() {
        push_potential(out, diagram, names, node)?;
    }
    Ok(())
}
