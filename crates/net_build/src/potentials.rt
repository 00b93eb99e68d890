//! The potentials of a text, node by node.

ghost use Rattle.std.specs.Prelude.{◌≡◌, ◌≢◌, ◌<◌, true, [], length, drop, replicate, None, All, AllPairs, IfOk, OnOk};
ghost use Rattle.net_parser.specs.Owned.{IsBlockOf};
ghost use Rattle.net_parser.specs.Grammar.{is_potential};
ghost use Rattle.net_build.specs.Blocks.{title, conditions, potentials};
ghost use Rattle.net_build.specs.Linking.{node_named, borrowed_trees, taken_row, many_row, missing_steps, AreParents};
ghost use Rattle.net_build.specs.Lists.{numbers_of_lists};
ghost use Rattle.first_fault.specs.Answers.{Passes};
ghost use Rattle.net_build.specs.Passes.{build_fault};
ghost use Rattle.net_build.specs.LinkCalls.{AreConditionNodes, AreLinksOf, HasParents, HasPotentials, PassesAbsent, PassesBlock, PassesMissing, PassesPotentials, SetsList};
ghost use Rattle.net_build.specs.TableSteps.{SetsPotential};

use crate::conditions::{read_conditions, read_name};
use crate::distinct_names::DistinctNames;
use crate::faults::{BuildFault, BuildKind, Limit};
use crate::labels::title;
use crate::links::Links;
use crate::nodes::Head;
use maid_model::{Kind, MOST_PARENTS};
use net_lexer::Token;
use net_parser::{Block, BlockKind, Syntax};
use std::alloc::{AllocError, Global};

// The node has no potential yet.
fn check_single(
    potentials: &[Option<&Block<'_>>],
    node: usize,
    head: &Token,
) -> Result<(), BuildFault>
    requires { node < length potentials.now }
    ensures { Passes build_fault (taken_row (borrowed_trees potentials.now) node head.now) result }
{
    match potentials[node] {
        Some(_) => Err(BuildKind::DoublePotential.at(head.start)),
        None => Ok(()),
    }
}

// There are no more names behind the bar than a node may have parents.
fn check_count(head: &Token, conditions: &[Token]) -> Result<(), BuildFault>
    ensures row { Passes build_fault (many_row head.now conditions.now) result }
{
    let count = conditions.len();
    if count > MOST_PARENTS {
        return Err(BuildKind::LimitPassed {
            which: Limit::Parents,
            got: count as u128,
        }
        .at(head.start));
    }
    Ok(())
}

fn is_potential(block: &Block<'_>) -> bool
    ensures { result ≡ is_potential block.now.kind }
{
    matches!(block.kind, BlockKind::Potential)
}

// All but the first.
fn behind_first(tokens: &[Token]) -> &[Token]
    requires { 0 < length tokens.now }
    ensures { result.now ≡ drop 1 tokens.now }
{
    &tokens[1..]
}

// The names behind a potential's bar.
fn conditions<'a>(potential: &'a Block<'_>) -> &'a [Token]
    requires { 0 < length potential.now.names }
    ensures { result.now ≡ conditions potential.now }
{
    behind_first(&potential.names)
}

// The node at the head of a potential, and its parents.
fn read_potential(
    alloc: Global,
    text: &[u8],
    names: &DistinctNames,
    heads: &[Head],
    potentials: &[Option<&Block<'_>>],
    block: &Block<'_>,
) -> Result<(usize, Vec<usize>), BuildFault>
    requires block { IsBlockOf text.now block.now }
    requires potential { is_potential block.now.kind ≡ true }
    requires heads { length heads.now ≡ length names.now }
    requires potentials { length potentials.now ≡ length names.now }
    ensures rows { PassesBlock text.now names.now heads.now potentials.now block.now result }
    ensures node { IfOk result (λ read. read.0 ≡ node_named text.now names.now (title block.now)) }
    ensures within { IfOk result (λ read. read.0 < length names.now) }
    ensures parents { IfOk result (λ read. AreConditionNodes text.now names.now block.now read.1) }
    ensures fit { IfOk result (λ read. AreParents heads.now read.1.items) }
{
    let head = title(block);
    let conditions = conditions(block);
    let node = read_name(text, names, &head)?;
    check_single(potentials, node, &head)?;
    let parents = read_conditions(alloc, text, names, heads, conditions)?;
    check_count(&head, conditions)?;
    Ok((node, parents))
}

// No parents for each of so many nodes.
fn no_parents(alloc: Global, count: usize) -> Result<Vec<Vec<usize>>, AllocError>
    ensures { IfOk result (λ lists. numbers_of_lists lists.items ≡ replicate count []) }
{
    let mut lists = Vec::with_capacity(alloc, count)?;
    for _node in 0..count {
        lists.push(Vec::new(alloc))?;
    }
    Ok(lists)
}

// Nothing for each of so many nodes.
fn nothing_each<P: Copy>(alloc: Global, count: usize) -> Result<Vec<Option<P>>, AllocError>
    ensures { IfOk result (λ found. found.items ≡ replicate count None) }
{
    vec![in alloc; None; count]
}

// The node has these parents, and this potential.
fn enter<P: Drop>(
    parents: &mut Vec<Vec<usize>>,
    potentials: &mut Vec<Option<P>>,
    node: usize,
    list: Vec<usize>,
    potential: P,
)
    requires parents { node < length parents.old.items }
    requires potentials { node < length potentials.old.items }
    ensures parents { SetsList parents.old.items parents.new.items node list }
    ensures potentials { SetsPotential potentials.old.items potentials.new.items node potential }
{
    parents[node] = list;
    potentials[node] = Some(potential);
}

// Enters the parents and the potential of each node that has a potential, where no node has any. It
// stands apart since each refusal in it would drop the lists, and each such drop is proved.
fn enter_potentials<'a, 't>(
    alloc: Global,
    text: &[u8],
    syntax: &'a Syntax<'t>,
    names: &DistinctNames,
    heads: &[Head],
    parents: &mut Vec<Vec<usize>>,
    potentials: &mut Vec<Option<&'a Block<'t>>>,
) -> Result<(), BuildFault>
    requires blocks { All (IsBlockOf text.now) syntax.now }
    requires heads { length heads.now ≡ length names.now }
    requires names { AllPairs (λ name later. name ≢ later) names.now }
    requires no_parents { numbers_of_lists parents.old.items ≡ replicate (length names.now) [] }
    requires no_potentials { borrowed_trees potentials.old.items
        ≡ replicate (length names.now) None }
    ensures rows { PassesPotentials text.now names.now heads.now syntax.now result }
    ensures links { OnOk result (AreLinksOf text.now names.now heads.now syntax.now
        parents.new potentials.new.items) }
{
    for block in &syntax.blocks {
        if is_potential(block) {
            let (node, list) = read_potential(alloc, text, names, heads, potentials, block)?;
            enter(parents, potentials, node, list, block);
        }
    }
    Ok(())
}

/// The parents and the potential of each node.
pub fn read_potentials<'a, 't>(
    alloc: Global,
    text: &[u8],
    syntax: &'a Syntax<'t>,
    names: &DistinctNames,
    heads: &[Head],
) -> Result<Links<'a, 't>, BuildFault>
    requires blocks { All (IsBlockOf text.now) syntax.now }
    requires heads { length heads.now ≡ length names.now }
    requires names { AllPairs (λ name later. name ≢ later) names.now }
    ensures rows { PassesPotentials text.now names.now heads.now syntax.now result }
    ensures potentials { IfOk result (HasPotentials text.now names.now syntax.now) }
    ensures parents { IfOk result (HasParents text.now names.now) }
    ensures fit { IfOk result (λ links. All (AreParents heads.now) links.parents) }
{
    let mut parents = no_parents(alloc, names.len())?;
    let mut potentials = nothing_each(alloc, names.len())?;
    enter_potentials(
        alloc,
        text,
        syntax,
        names,
        heads,
        &mut parents,
        &mut potentials,
    )?;
    Ok(Links {
        parents,
        potentials,
    })
}

// The node has a potential.
fn check_present(
    heads: &[Head],
    potentials: &[Option<&Block<'_>>],
    node: usize,
) -> Result<(), BuildFault>
    requires within { node < length heads.now }
    requires len { length potentials.now ≡ length heads.now }
    ensures { PassesAbsent heads.now potentials.now node result }
{
    match potentials[node] {
        Some(_) => Ok(()),
        None => Err(BuildKind::MissingTable.at(heads[node].at)),
    }
}

// The node has a potential if it is no decision.
fn check_table(
    heads: &[Head],
    potentials: &[Option<&Block<'_>>],
    node: usize,
) -> Result<(), BuildFault>
    requires within { node < length heads.now }
    requires len { length potentials.now ≡ length heads.now }
    ensures { PassesMissing heads.now potentials.now node result }
{
    match heads[node].kind {
        Kind::Chance | Kind::Utility => check_present(heads, potentials, node),
        Kind::Decision => Ok(()),
    }
}

/// Each chance and utility node has a potential.
pub fn check_tables(heads: &[Head], potentials: &[Option<&Block<'_>>]) -> Result<(), BuildFault>
    requires { length potentials.now ≡ length heads.now }
    ensures { Passes build_fault (missing_steps heads.now (borrowed_trees potentials.now)) result }
{
    for node in 0..heads.len() {
        check_table(heads, potentials, node)?;
    }
    Ok(())
}
