//! The lines of node blocks.

ghost use Rattle.std.specs.Prelude.{◌≡◌, ◌≢◌, ◌<◌, All, length};
ghost use Rattle.maid_model.specs.declared.diagrams.Kind.TheVariants.{Chance, Utility};
ghost use Rattle.maid_model.specs.Names.{NamesFit, labels_of};
ghost use Rattle.maid_model.specs.Nodes.{node_at};
ghost use Rattle.maid_model.specs.Reports.{quoted};
ghost use Rattle.net_print.specs.Printed.{agent_text, kind_word, node_line, parted, states_text, attributes_of, nodes_text};
ghost use Rattle.net_print.specs.Parts.{agents_text, more_agents_text};
ghost use Rattle.line_pieces.specs.Pushed.{PushAppends};
ghost use Rattle.net_print.specs.NodeTexts.{owners_text_of};

use crate::pieces::push_gap;
use line_pieces::Piece::{Quoted, Text};
use line_pieces::{push_pieces, push_quoted};
use maid_model::{Diagram, Kind, Names};
use std::alloc::AllocError;

// The word that begins a node's block.
fn kind_word(kind: Kind) -> &'static [u8]
    ensures { result.now ≡ kind_word kind }
{
    match kind {
        Kind::Chance => b"node",
        Kind::Decision => b"decision",
        Kind::Utility => b"utility",
    }
}

// Appends the labels of a chance node or a decision, parted by one space.
fn push_labels(
    out: &mut Vec<u8>,
    diagram: &Diagram,
    names: &Names,
    node: usize,
) -> Result<(), AllocError>
    requires fit { NamesFit diagram.now names.now }
    requires node { node < length diagram.now.nodes }
    requires kind { (node_at diagram.now.nodes node).kind ≢ Utility }
    ensures { PushAppends out.old out.new result (parted quoted (labels_of names.now node)) }
{
    for state in 0..diagram.states(node) {
        push_gap(out, state)?;
        push_quoted(out, names.label(node, state))?;
    }
    Ok(())
}

// Appends the states of a chance node or a decision.
#[tactic(auto, using(std::proofs::Common::append_assoc))]
fn push_states(
    out: &mut Vec<u8>,
    diagram: &Diagram,
    names: &Names,
    node: usize,
) -> Result<(), AllocError>
    requires fit { NamesFit diagram.now names.now }
    requires node { node < length diagram.now.nodes }
    requires kind { (node_at diagram.now.nodes node).kind ≢ Utility }
    ensures { PushAppends out.old out.new result (states_text (labels_of names.now node)) }
{
    out.extend_from_slice(b"states = (")?;
    push_labels(out, diagram, names, node)?;
    out.extend_from_slice(b"); ")
}

// Appends an agent's name.
#[tactic(auto, using(std::proofs::Common::append_assoc))]
fn push_agent(out: &mut Vec<u8>, agent: &[u8]) -> Result<(), AllocError>
    ensures { PushAppends out.old out.new result (agent_text agent.now) }
{
    push_pieces(out, &[Text(b"agent = "), Quoted(agent), Text(b"; ")])
}

// Appends the agents of these numbers, each behind a space.
fn push_others(out: &mut Vec<u8>, names: &Names, agents: &[usize]) -> Result<(), AllocError>
    requires { All (λ a. a < length names.now.agents) agents.now }
    ensures { PushAppends out.old out.new result (more_agents_text names.now agents.now) }
{
    for agent in agents {
        out.push(b' ')?;
        push_quoted(out, names.agent(*agent))?;
    }
    Ok(())
}

// Appends a list of agents.
#[tactic(auto, using(std::proofs::Common::append_assoc))]
fn push_agents(
    out: &mut Vec<u8>,
    names: &Names,
    first: &[u8],
    others: &[usize],
) -> Result<(), AllocError>
    requires { All (λ a. a < length names.now.agents) others.now }
    ensures { PushAppends out.old out.new result (agents_text names.now first.now others.now) }
{
    push_pieces(out, &[Text(b"agents = ("), Quoted(first)])?;
    push_others(out, names, others)?;
    out.extend_from_slice(b"); ")
}

// Appends the owners of a decision or a utility.
fn push_owners(
    out: &mut Vec<u8>,
    diagram: &Diagram,
    names: &Names,
    node: usize,
) -> Result<(), AllocError>
    requires fit { NamesFit diagram.now names.now }
    requires node { node < length diagram.now.nodes }
    requires kind { (node_at diagram.now.nodes node).kind ≢ Chance }
    ensures { PushAppends out.old out.new result (owners_text_of diagram.now.nodes names.now node) }
{
    let node = diagram.node(node);
    let first = names.agent(node.owner);
    let others = node.more.as_slice();
    if others.is_empty() {
        push_agent(out, first)
    } else {
        push_agents(out, names, first, others)
    }
}

// Appends the attributes of a node's block.
#[tactic(auto, using(std::proofs::Common::append_assoc))]
fn push_attributes(
    out: &mut Vec<u8>,
    diagram: &Diagram,
    names: &Names,
    node: usize,
) -> Result<(), AllocError>
    requires fit { NamesFit diagram.now names.now }
    requires node { node < length diagram.now.nodes }
    ensures { PushAppends out.old out.new result (attributes_of diagram.now.nodes names.now node) }
{
    match diagram.kind(node) {
        Kind::Chance => push_states(out, diagram, names, node),
        Kind::Decision => {
            push_states(out, diagram, names, node)?;
            push_owners(out, diagram, names, node)
        }
        Kind::Utility => push_owners(out, diagram, names, node),
    }
}

// Appends the line of a node's block.
#[tactic(auto, using(std::proofs::Common::append_assoc))]
fn push_block(
    out: &mut Vec<u8>,
    diagram: &Diagram,
    names: &Names,
    node: usize,
) -> Result<(), AllocError>
    requires fit { NamesFit diagram.now names.now }
    requires node { node < length diagram.now.nodes }
    ensures { PushAppends out.old out.new result (node_line diagram.now.nodes names.now node) }
{
    push_pieces(
        out,
        &[
            Text(kind_word(diagram.kind(node))),
            Text(b" "),
            Text(names.name(node)),
            Text(b" { "),
        ],
    )?;
    push_attributes(out, diagram, names, node)?;
    out.extend_from_slice(b"}\n")
}

/// Appends a line for each node's block.
pub fn push_blocks(out: &mut Vec<u8>, diagram: &Diagram, names: &Names) -> Result<(), AllocError>
    requires { NamesFit diagram.now names.now }
    ensures { PushAppends out.old out.new result (nodes_text diagram.now.nodes names.now) }
{
    for node in 0..diagram.count() {
        push_block(out, diagram, names, node)?;
    }
    Ok(())
}
