//! From a text's tree to its diagram and its names, or to its first fault.

ghost use Rattle.std.specs.Prelude.{◌≡◌, length, All, IfOk, None};
ghost use Rattle.maid_model.specs.Diagrams.{IsDiagram};
ghost use Rattle.maid_model.specs.Names.{NamesFit};
ghost use Rattle.net_build.specs.Blocks.{node_blocks};
ghost use Rattle.net_build.specs.Building.{IsDiagramOfTree, StandsFor};
ghost use Rattle.net_build.specs.Form.{HasTextForm};
ghost use Rattle.first_fault.specs.Answers.{Passes};
ghost use Rattle.net_build.specs.Passes.{build_fault};
ghost use Rattle.net_build.specs.Plain.{IsPlain};
ghost use Rattle.net_build.specs.Stages.{made_node, made_diagram, node_lists, nodes_from};
ghost use Rattle.net_build.specs.Table.{all_passes, node_pass};
ghost use Rattle.net_build.specs.TableCalls.{passes_behind_nodes};
ghost use Rattle.net_lexer.specs.Pieces.{IsTokens};
ghost use Rattle.net_parser.specs.Grammar.{Spells};
ghost use Rattle.net_parser.specs.Lexemes.{lexemes};
ghost use Rattle.net_parser.specs.Owned.{IsBlockOf};
ghost use Rattle.net_build.specs.Answered.{AnswersList};
ghost use Rattle.net_build.specs.NodeCalls.{names_from};

use crate::faults::BuildFault;
use crate::links::{Links, read_links};
use crate::nodes::{Head, Nodes, read_nodes};
use crate::tables::{Tables, read_tables};
use maid_model::{Diagram, Names, Node};
use net_lexer::Tokens;
use net_parser::{Syntax, blocks_stand_in_their_text};
use smallvec::SmallVec;
use std::alloc::{AllocError, Global};
use std::mem;

// A node of these parts.
fn make_node(
    alloc: Global,
    head: Head,
    more: &[usize],
    parents: &[usize],
    cells: Vec<i128>,
) -> Result<Node, AllocError>
    ensures { IfOk result (λ node. node ≡ made_node head more.now parents.now cells.items) }
{
    Ok(Node {
        kind: head.kind,
        owner: head.owner,
        more: SmallVec::from_slice(alloc, more)?,
        states: head.states,
        parents: SmallVec::from_slice(alloc, parents)?,
        cells,
    })
}

// The nodes of these parts. The tables are moved into them.
fn make_nodes(
    alloc: Global,
    heads: &[Head],
    more: &[Vec<usize>],
    parents: &[Vec<usize>],
    tables: &mut [Vec<i128>],
) -> Result<Vec<Node>, AllocError>
    requires more { length more.now ≡ length heads.now }
    requires parents { length parents.now ≡ length heads.now }
    requires tables { length tables.old ≡ length heads.now }
    ensures { AnswersList result (nodes_from heads.now more.now parents.now tables.old) }
{
    let mut nodes = Vec::with_capacity(alloc, heads.len())?;
    for (v, head) in heads.iter().enumerate() {
        let cells = mem::replace(&mut tables[v], Vec::new(alloc));
        nodes.push(make_node(alloc, *head, &more[v], &parents[v], cells)?)?;
    }
    Ok(nodes)
}

// The diagram of these parts. The tables are moved into it.
fn make_diagram(
    alloc: Global,
    nodes: &Nodes,
    links: &Links<'_, '_>,
    tables: Tables,
) -> Result<Diagram, AllocError>
    requires more { length nodes.now.more ≡ length nodes.now.heads }
    requires parents { length links.now.parents ≡ length nodes.now.heads }
    requires tables { length tables.cells ≡ length nodes.now.heads }
    requires diagram { IsDiagram (made_diagram nodes.now links.now tables) }
    ensures { IfOk result (λ diagram. diagram ≡ made_diagram nodes.now links.now tables) }
{
    let mut cells = tables.cells;
    let list = make_nodes(alloc, &nodes.heads, &nodes.more, &links.parents, &mut cells)?;
    Diagram::from_nodes(alloc, list, nodes.agents.len(), tables.decimals)
}

// The names, labels and agents of these nodes.
fn make_names(alloc: Global, nodes: Nodes) -> Result<Names, AllocError>
    ensures { IfOk result (λ names. names ≡ names_from nodes) }
{
    let node_names = nodes.names.into_list(alloc)?;
    Ok(Names::from_lists(node_names, nodes.labels, nodes.agents))
}

// The diagram of a tree whose nodes these are, or the first fault behind the nodes.
fn read_diagram(
    alloc: Global,
    text: &[u8],
    syntax: &Syntax<'_>,
    nodes: &Nodes,
) -> Result<Diagram, BuildFault>
    requires blocks { All (IsBlockOf text.now) syntax.now }
    requires nodes { nodes.now ≡ node_lists text.now (node_blocks syntax.now) }
    requires rows { node_pass text.now syntax.now None }
    ensures rows { Passes build_fault (passes_behind_nodes text.now syntax.now) result }
    ensures diagram { IfOk result (IsDiagramOfTree text.now syntax.now) }
{
    let links = read_links(alloc, text, syntax, nodes)?;
    let tables = read_tables(alloc, text, syntax, nodes, &links)?;
    Ok(make_diagram(alloc, nodes, &links, tables)?)
}

/// The diagram and the names that the tree of a text stands for, or the first fault of the table of
/// passes. It goes over the tree a few times.
pub fn build(
    alloc: Global,
    text: &[u8],
    tokens: &Tokens,
    syntax: &Syntax<'_>,
) -> Result<(Diagram, Names), BuildFault>
    requires tokens { IsTokens text.now tokens.now }
    requires tree { Spells syntax.now (lexemes text.now tokens.now) }
    ensures rows { Passes build_fault (all_passes text.now syntax.now) result }
    ensures stands { IfOk result (λ built. StandsFor text.now syntax.now built.0 built.1) }
    ensures diagram { IfOk result (λ built. IsDiagram built.0) }
    ensures fit { IfOk result (λ built. NamesFit built.0 built.1) }
    ensures form { IfOk result (λ built. HasTextForm built.0 built.1) }
    ensures plain { IfOk result (λ built. IsPlain built.0) }
{
    // Blocks that tokens of the text spell stand in it, which is all that is needed of the tokens.
    let _ = tokens;
    blocks_stand_in_their_text();
    let nodes = read_nodes(alloc, text, syntax)?;
    let diagram = read_diagram(alloc, text, syntax, &nodes)?;
    let names = make_names(alloc, nodes)?;
    Ok((diagram, names))
}
