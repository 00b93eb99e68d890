//! The node blocks of a text: names, labels, agents, kinds and counts of states.

ghost use Rattle.std.specs.Prelude.{◌≡◌, ◌<◌, ◌++◌, [], ◌∷◌, All, Contains, length, IfOk, OnOk};
ghost use Rattle.net_build.specs.Blocks.{is_node, kind_of, block_name, node_blocks, has_states, block_labels, block_states};
ghost use Rattle.maid_model.specs.Names.{list_of};
ghost use Rattle.first_fault.specs.Answers.{Passes};
ghost use Rattle.net_build.specs.Passes.{build_fault};
ghost use Rattle.net_build.specs.Stages.{node_lists};
ghost use Rattle.net_build.specs.Table.{name_rows, node_pass};
ghost use Rattle.net_parser.specs.Owned.{IsBlockOf};
ghost use Rattle.net_build.specs.NodeCalls.{AddsEntry, AddsOwners, AreLabelsOf, IsEntryOf, PassesNode, attribute_rows, lists_in};

use crate::attributes::check_repeats;
use crate::distinct_names::DistinctNames;
use crate::faults::{BuildFault, BuildKind, Limit};
use crate::labels::{read_labels, title};
use crate::owners::read_owners;
use maid_model::{Kind, MOST_NAME_BYTES, MOST_NODES};
use net_parser::{Block, BlockKind, Syntax};
use std::alloc::{AllocError, Global};
use std::marker::Model;

/// What a node block says in numbers: where its name stands, and the node's kind, the number of its
/// first owner (0 at a chance node) and the count of its states.
#[derive(Clone, Copy)]
pub struct Head {
    pub at: u32,
    pub kind: Kind,
    pub owner: usize,
    pub states: usize,
}

/// What the node blocks say, node by node, and the agents in order of first sight. `more` has the
/// numbers of each node's owners after the first.
#[derive(Drop)]
pub struct Nodes {
    pub names: DistinctNames,
    pub labels: Vec<Vec<Vec<u8>>>,
    pub agents: Vec<Vec<u8>>,
    pub heads: Vec<Head>,
    pub more: Vec<Vec<usize>>,
}

impl Model for Nodes {
    ghost use Rattle.maid_model.specs.Names.{list_of, lists_of};
    ghost use Rattle.net_build.specs.Lists.{numbers_of_lists};
    ghost use Rattle.net_build.specs.Stages.{NodeLists};

    ghost Value = { NodeLists };

    ghost view = { λ n.
        record {
          names = n.names;
          labels = lists_of n.labels.items;
          agents = list_of n.agents.items;
          heads = n.heads.items;
          more = numbers_of_lists n.more.items;
        } };
}

// What one node block says.
#[derive(Drop)]
struct Entry {
    name: Vec<u8>,
    labels: Vec<Vec<u8>>,
    head: Head,
    more: Vec<usize>,
}

// What the node blocks say beside names and agents, node by node.
#[derive(Drop)]
struct Columns {
    labels: Vec<Vec<Vec<u8>>>,
    heads: Vec<Head>,
    more: Vec<Vec<usize>>,
}

fn is_node(kind: BlockKind) -> bool
    ensures { result ≡ is_node kind }
{
    matches!(
        kind,
        BlockKind::Node | BlockKind::Decision | BlockKind::Utility
    )
}

fn has_states(kind: BlockKind) -> bool
    ensures { result ≡ has_states kind }
{
    matches!(kind, BlockKind::Node | BlockKind::Decision)
}

fn kind_of(kind: BlockKind) -> Kind
    ensures { result ≡ kind_of kind }
{
    match kind {
        BlockKind::Node => Kind::Chance,
        BlockKind::Decision => Kind::Decision,
        _ => Kind::Utility,
    }
}

// The name of a node behind those of these names.
fn read_name<'a>(
    text: &'a [u8],
    block: &Block<'_>,
    names: &DistinctNames,
) -> Result<&'a [u8], BuildFault>
    requires own { IsBlockOf text.now block.now }
    requires named { 0 < length block.now.names }
    ensures rows { Passes build_fault (name_rows text.now names.now block.now) result }
    ensures name { IfOk result (λ name. name.now ≡ block_name text.now block.now) }
{
    let title = title(block);
    if names.len() >= MOST_NODES {
        let passed = BuildKind::LimitPassed {
            which: Limit::Nodes,
            got: MOST_NODES as u128 + 1,
        };
        return Err(passed.at(title.start));
    }
    let name = title.bytes(text);
    if name.len() > MOST_NAME_BYTES {
        let passed = BuildKind::LimitPassed {
            which: Limit::NameBytes,
            got: name.len() as u128,
        };
        return Err(passed.at(title.start));
    }
    if names.place(name).is_some() {
        return Err(BuildKind::DoubleName.at(title.start));
    }
    Ok(name)
}

// The labels of a node whose attributes that count don't repeat; a utility has none.
fn node_labels(alloc: Global, text: &[u8], block: &Block<'_>) -> Result<Vec<Vec<u8>>, BuildFault>
    requires { IsBlockOf text.now block.now }
    ensures rows { Passes build_fault (attribute_rows text.now block.now) result }
    ensures labels { IfOk result (AreLabelsOf text.now block.now) }
{
    check_repeats(text, block)?;
    if has_states(block.kind) {
        read_labels(alloc, text, block)
    } else {
        Ok(Vec::new(alloc))
    }
}

// How many states a node with these labels has.
fn state_count(text: &[u8], block: &Block<'_>, labels: &[Vec<u8>]) -> usize
    requires { list_of labels.now ≡ block_labels text.now block.now }
    ensures { result ≡ block_states text.now block.now }
{
    if has_states(block.kind) {
        labels.len()
    } else {
        1
    }
}

// What a node block says behind those of these names and agents. Each owner is added to the agents
// where it is new.
fn read_entry(
    alloc: Global,
    text: &[u8],
    block: &Block<'_>,
    names: &DistinctNames,
    agents: &mut Vec<Vec<u8>>,
) -> Result<Entry, BuildFault>
    requires own { IsBlockOf text.now block.now }
    requires named { 0 < length block.now.names }
    ensures rows { PassesNode text.now names.now agents.old block.now result }
    ensures agents { AddsOwners text.now block.now agents.old agents.new result }
    ensures entry { IfOk result (IsEntryOf text.now agents.new block.now) }
{
    let name = read_name(text, block, names)?;
    let labels = node_labels(alloc, text, block)?;
    let owners = read_owners(alloc, text, block, agents)?;
    let head = Head {
        at: title(block).start,
        kind: kind_of(block.kind),
        owner: owners.first,
        states: state_count(text, block, &labels),
    };
    Ok(Entry {
        name: Vec::from_slice(alloc, name)?,
        labels,
        head,
        more: owners.more,
    })
}

// Adds what one node block says. It stands apart since each refusal in `add_blocks` would drop the
// entry, and each such drop is proved.
fn enter(names: &mut DistinctNames, columns: &mut Columns, entry: Entry) -> Result<(), AllocError>
    requires { ¬ Contains names.old entry.name.items }
    ensures names { OnOk result (names.new ≡ names.old ++ entry.name.items ∷ []) }
    ensures columns { OnOk result (AddsEntry entry columns.old columns.new) }
{
    names.add(entry.name)?;
    columns.labels.push(entry.labels)?;
    columns.heads.push(entry.head)?;
    columns.more.push(entry.more)?;
    Ok(())
}

// Adds what the node blocks among these say, where nothing was said before.
fn add_blocks(
    alloc: Global,
    text: &[u8],
    blocks: &[Block<'_>],
    names: &mut DistinctNames,
    agents: &mut Vec<Vec<u8>>,
    columns: &mut Columns,
) -> Result<(), BuildFault>
    requires blocks { All (IsBlockOf text.now) blocks.now }
    requires none { lists_in names.old agents.old columns.old ≡ node_lists text.now [] }
    ensures rows { Passes build_fault (node_pass text.now blocks.now) result }
    ensures nodes { OnOk result (lists_in names.new agents.new columns.new
        ≡ node_lists text.now (node_blocks blocks.now)) }
{
    for block in blocks {
        if is_node(block.kind) {
            let entry = read_entry(alloc, text, block, names, agents)?;
            enter(names, columns, entry)?;
        }
    }
    Ok(())
}

// What the node blocks among these say. The lists are made here and filled by a function that
// borrows them, since each refusal there would drop them, and each such drop is proved.
fn read_blocks(alloc: Global, text: &[u8], blocks: &[Block<'_>]) -> Result<Nodes, BuildFault>
    requires { All (IsBlockOf text.now) blocks.now }
    ensures rows { Passes build_fault (node_pass text.now blocks.now) result }
    ensures nodes { IfOk result (λ nodes. nodes ≡ node_lists text.now (node_blocks blocks.now)) }
{
    let mut names = DistinctNames::new(alloc);
    let mut agents = Vec::new(alloc);
    let mut columns = Columns {
        labels: Vec::new(alloc),
        heads: Vec::new(alloc),
        more: Vec::new(alloc),
    };
    add_blocks(alloc, text, blocks, &mut names, &mut agents, &mut columns)?;
    Ok(Nodes {
        names,
        labels: columns.labels,
        agents,
        heads: columns.heads,
        more: columns.more,
    })
}

/// What the node blocks of a text say, or the first fault among them. It goes over the blocks once.
pub fn read_nodes(alloc: Global, text: &[u8], syntax: &Syntax<'_>) -> Result<Nodes, BuildFault>
    requires { All (IsBlockOf text.now) syntax.now }
    ensures rows { Passes build_fault (node_pass text.now syntax.now) result }
    ensures nodes { IfOk result (λ nodes. nodes ≡ node_lists text.now (node_blocks syntax.now)) }
{
    read_blocks(alloc, text, &syntax.blocks)
}
