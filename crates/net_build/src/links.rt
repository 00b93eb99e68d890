//! What the potentials of a text say: each node's parents, and the potential of its table.

ghost use Rattle.std.specs.Prelude.{◌≡◌, None, length, All, IfOk, OnOk};
ghost use Rattle.net_parser.specs.Owned.{IsBlockOf};
ghost use Rattle.net_build.specs.Blocks.{node_blocks};
ghost use Rattle.net_build.specs.Linking.{AreParents};
ghost use Rattle.net_build.specs.Lists.{numbers_of_lists};
ghost use Rattle.first_fault.specs.Answers.{Passes};
ghost use Rattle.net_build.specs.Passes.{build_fault};
ghost use Rattle.net_build.specs.Stages.{node_lists, link_lists, AreLinks};
ghost use Rattle.net_build.specs.Table.{node_pass, links_pass};
ghost use Rattle.net_build.specs.LinkCalls.{PassesLinks};

use crate::cycles::check_graph;
use crate::faults::BuildFault;
use crate::nodes::{Head, Nodes};
use crate::potentials::{check_tables, read_potentials};
use crate::sizes::check_sizes;
use net_parser::{Block, Syntax};
use std::alloc::Global;
use std::marker::Model;

/// What the potentials say, node by node: the numbers of its parents in order, and its potential
/// where it has one.
#[derive(Drop)]
pub struct Links<'a, 't> {
    pub parents: Vec<Vec<usize>>,
    pub potentials: Vec<Option<&'a Block<'t>>>,
}

impl<'a, 't> Model for Links<'a, 't> {
    ghost use Rattle.std.specs.Prelude.{map};
    ghost use Rattle.std.specs.Option.{option_map};
    ghost use Rattle.net_build.specs.Lists.{numbers_of_lists};
    ghost use Rattle.net_build.specs.Stages.{LinkLists};
    ghost use Rattle.net_build.specs.LinkCode.{link_code};

    ghost Value = { LinkLists };

    ghost coded = { link_code };

    ghost view = { λ l.
        record {
          parents = numbers_of_lists l.parents.items;
          potentials = map (option_map (λ p. p.now)) l.potentials.items;
        } };
}

// The nodes of these heads with these parents and potentials: no table is missing, there is no
// cycle, and tables and rules keep their limits.
fn check_links(
    alloc: Global,
    heads: &[Head],
    parents: &[Vec<usize>],
    potentials: &[Option<&Block<'_>>],
) -> Result<(), BuildFault>
    requires parents { length parents.now ≡ length heads.now }
    requires potentials { length potentials.now ≡ length heads.now }
    requires fit { All (AreParents heads.now) (numbers_of_lists parents.now) }
    ensures rows { PassesLinks heads.now parents.now potentials.now result }
    ensures fit { OnOk result (AreLinks heads.now (numbers_of_lists parents.now)) }
{
    check_tables(heads, potentials)?;
    check_graph(alloc, heads, parents)?;
    check_sizes(heads, parents)?;
    Ok(())
}

/// What the potentials say. The passes are tried one after the other: the potentials, a potential
/// for each chance and utility node, no cycle, and the sizes of tables and rules. It goes over the
/// text once, and looks up each name in a potential among the names of the nodes.
pub fn read_links<'a, 't>(
    alloc: Global,
    text: &[u8],
    syntax: &'a Syntax<'t>,
    nodes: &Nodes,
) -> Result<Links<'a, 't>, BuildFault>
    requires blocks { All (IsBlockOf text.now) syntax.now }
    requires nodes { nodes.now ≡ node_lists text.now (node_blocks syntax.now) }
    requires rows { node_pass text.now syntax.now None }
    ensures rows { Passes build_fault (links_pass text.now syntax.now) result }
    ensures links { IfOk result (λ links. links ≡ link_lists text.now syntax.now) }
    ensures fit { IfOk result (λ links. AreLinks nodes.now.heads links.parents) }
{
    let names = &nodes.names;
    let heads = nodes.heads.as_slice();
    let links = read_potentials(alloc, text, syntax, names, heads)?;
    check_links(alloc, heads, &links.parents, &links.potentials)?;
    Ok(links)
}
