//! The tables of a text: the cells of each node, and the scale of the utilities.

ghost use Rattle.std.specs.Prelude.{◌≡◌, ◌↔◌, IsTrue, ◌<◌, ◌≤◌, All, map, length, None, IfOk};
ghost use Rattle.maid_model.specs.declared.limits.TheConstants.{MOST_DECIMALS};
ghost use Rattle.net_build.specs.Blocks.{node_blocks};
ghost use Rattle.net_build.specs.Building.{AreTables};
ghost use Rattle.net_build.specs.Lists.{cells_of_lists};
ghost use Rattle.first_fault.specs.Answers.{Passes};
ghost use Rattle.net_build.specs.Passes.{build_fault};
ghost use Rattle.net_build.specs.Stages.{AreLinks, TablesFit, link_lists, node_lists};
ghost use Rattle.net_build.specs.Table.{IsUtilityScale, missing_pass, node_pass, potential_pass};
ghost use Rattle.net_build.specs.TableParts.{AreDrafts, CanReadTables, FitsDraft, HasDecimalsAtMost, IsDraftAt, drafts_pass, finished};
ghost use Rattle.net_parser.specs.Owned.{IsBlockOf};
ghost use Rattle.net_build.specs.TableCalls.{AreNarrowValues, IsReachedByOne, IsValueScale, tables_pass, values_pass};
ghost use Rattle.net_build.specs.TableSteps.{AreDraftsIn, PassesDrafts, PassesNodeTable};

use crate::drafts::{Draft, draft_fits, finish_draft, most_in, read_draft};
use crate::faults::BuildFault;
use crate::links::Links;
use crate::nodes::Nodes;
use crate::scales::scale_of;
use crate::sizes::count_rows;
use crate::utilities::utility_numbers;
use net_parser::Syntax;
use std::alloc::{AllocError, Global};
use std::marker::Model;

/// The cells of each node (none at a decision), and by how many decimals the utilities are scaled.
#[derive(Drop)]
pub struct Tables {
    pub cells: Vec<Vec<i128>>,
    pub decimals: u32,
}

impl Model for Tables {
    ghost use Rattle.std.specs.Prelude.{map};
    ghost use Rattle.net_build.specs.Stages.{TableLists};

    ghost Value = { TableLists };

    ghost view = { λ t.
        record { cells = map (λ row. row.items) t.cells.items; decimals = t.decimals } };
}

// A node's table, before the scale of utilities is known.
fn read_node(
    alloc: Global,
    text: &[u8],
    nodes: &Nodes,
    links: &Links<'_, '_>,
    node: usize,
) -> Result<Draft, BuildFault>
    requires read { CanReadTables text.now nodes.now.heads links.now }
    requires within { node < length nodes.now.heads }
    ensures rows { PassesNodeTable text.now nodes.now.heads links.now node result }
    ensures draft { IfOk result (IsDraftAt text.now nodes.now.heads links.now node) }
{
    // The rows are within the limit of cells, so that their count was not cut off.
    let rows = count_rows(&nodes.heads, &links.parents[node]);
    read_draft(
        alloc,
        text,
        &nodes.heads[node],
        rows as usize,
        links.potentials[node],
    )
}

// The tables of all nodes, before the scale of utilities is known.
fn read_drafts(
    alloc: Global,
    text: &[u8],
    nodes: &Nodes,
    links: &Links<'_, '_>,
) -> Result<Vec<Draft>, BuildFault>
    requires { CanReadTables text.now nodes.now.heads links.now }
    ensures rows { Passes build_fault (drafts_pass text.now nodes.now.heads links.now) result }
    ensures drafts { IfOk result (λ all. AreDrafts text.now nodes.now.heads links.now all.items) }
{
    let mut drafts = Vec::with_capacity(alloc, nodes.heads.len())?;
    for node in 0..nodes.heads.len() {
        drafts.push(read_node(alloc, text, nodes, links, node)?)?;
    }
    Ok(drafts)
}

// The most decimals that one of the values has.
fn most_of(drafts: &[Draft]) -> u32
    requires few { All (HasDecimalsAtMost MOST_DECIMALS) drafts.now }
    ensures most { All (HasDecimalsAtMost result) drafts.now }
    ensures reached { 0 < result → IsReachedByOne drafts.now result }
    ensures few { result ≤ MOST_DECIMALS }
{
    let mut most = 0;
    for draft in drafts {
        let here = most_in(draft);
        if here > most {
            most = here;
        }
    }
    most
}

// Each value, to scale, lies within the limits.
fn drafts_fit(drafts: &[Draft], scale: u32) -> bool
    requires enough { All (HasDecimalsAtMost scale) drafts.now }
    requires few { scale ≤ MOST_DECIMALS }
    ensures { IsTrue result ↔ All (FitsDraft scale) drafts.now }
{
    for draft in drafts {
        if !draft_fits(draft, scale) {
            return false;
        }
    }
    true
}

// By how many decimals the utilities' values are scaled. Only where one of them doesn't fit are
// they read again, in text order, to find the first.
fn utility_scale(
    alloc: Global,
    text: &[u8],
    syntax: &Syntax<'_>,
    nodes: &Nodes,
    drafts: &[Draft],
) -> Result<u32, BuildFault>
    requires blocks { All (IsBlockOf text.now) syntax.now }
    requires nodes { nodes.now ≡ node_lists text.now (node_blocks syntax.now) }
    requires node_rows { node_pass text.now syntax.now None }
    requires potential_rows { potential_pass text.now syntax.now None }
    requires table_rows { PassesDrafts text.now nodes.now syntax.now }
    requires drafts { AreDraftsIn text.now nodes.now syntax.now drafts.now }
    ensures rows { Passes build_fault (values_pass text.now nodes.now syntax.now) result }
    ensures scale { IfOk result (IsValueScale text.now nodes.now syntax.now) }
    ensures narrow { IfOk result (AreNarrowValues text.now nodes.now syntax.now) }
    ensures few { IfOk result (λ scale. scale ≤ MOST_DECIMALS) }
{
    let most = most_of(drafts);
    if drafts_fit(drafts, most) {
        return Ok(most);
    }
    let numbers = utility_numbers(alloc, text, syntax, nodes)?;
    scale_of(alloc, text, &numbers)
}

// The cells of all nodes, the utilities' to that scale.
fn finish(alloc: Global, drafts: Vec<Draft>, scale: u32) -> Result<Vec<Vec<i128>>, AllocError>
    requires few { scale ≤ MOST_DECIMALS }
    requires fits { All (FitsDraft scale) drafts.items }
    ensures { IfOk result (λ all. cells_of_lists all.items ≡ map (finished scale) drafts.items) }
{
    let mut cells = Vec::with_capacity(alloc, drafts.len())?;
    for draft in drafts {
        cells.push(finish_draft(alloc, draft, scale)?)?;
    }
    Ok(cells)
}

/// The tables of chance nodes and utilities, in text order, and then the utilities' values to one
/// scale. A chance table is scaled row by row, and each utility value is multiplied by the least
/// power of ten that makes all of them whole. The cost is linear in the text. Where a value doesn't
/// fit, the head of each potential is looked up among the nodes besides.
pub fn read_tables(
    alloc: Global,
    text: &[u8],
    syntax: &Syntax<'_>,
    nodes: &Nodes,
    links: &Links<'_, '_>,
) -> Result<Tables, BuildFault>
    requires blocks { All (IsBlockOf text.now) syntax.now }
    requires nodes { nodes.now ≡ node_lists text.now (node_blocks syntax.now) }
    requires links { links.now ≡ link_lists text.now syntax.now }
    requires fit { AreLinks nodes.now.heads links.now.parents }
    requires node_rows { node_pass text.now syntax.now None }
    requires potential_rows { potential_pass text.now syntax.now None }
    requires missing_rows { missing_pass text.now syntax.now None }
    ensures rows { Passes build_fault (tables_pass text.now syntax.now) result }
    ensures scale { IfOk result (λ tables. IsUtilityScale text.now syntax.now tables.decimals) }
    ensures cells { IfOk result (λ made. AreTables text.now syntax.now made.decimals made.cells) }
    ensures few { IfOk result (λ tables. tables.decimals ≤ MOST_DECIMALS) }
    ensures fit { IfOk result (λ tables. TablesFit nodes.now.heads links.now.parents tables.cells) }
{
    let drafts = read_drafts(alloc, text, nodes, links)?;
    let decimals = utility_scale(alloc, text, syntax, nodes, &drafts)?;
    let cells = finish(alloc, drafts, decimals)?;
    Ok(Tables { cells, decimals })
}
