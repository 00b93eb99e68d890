//! What the nodes weigh, listed once so that no walk has to search for it.

ghost use Rattle.std.specs.Prelude.{◌≡◌, ◌*◌, ◌<◌, [], IfOk, length, pos, slice_index, slice_index_or};
ghost use Rattle.diagram_graph.specs.Cycles.{lists_in};
ghost use Rattle.maid_model.specs.declared.diagrams.Kind.TheVariants.{Decision};
ghost use Rattle.maid_model.specs.Profiles.{IsProfile};
ghost use Rattle.maid_model.specs.Tables.{weights_of};
ghost use Rattle.tree_checker.specs.Walks.{WhereDecision, factor_by_weights, HasAllFactors, HasCellsWhereDecision, HasFactors};
ghost use Rattle.diagram_graph.specs.Room.{cells_at};

use maid_model::{Diagram, Kind, Profile, profile_has_rules};
use std::alloc::{AllocError, Global};

/// The weights of the decision's rule; none at other nodes.
fn weights_at<'a>(diagram: &Diagram, profile: &'a Profile, v: usize) -> &'a [u128]
    requires node { v < length diagram.now.nodes }
    requires profile { IsProfile diagram.now.nodes profile.now }
    ensures weights { WhereDecision diagram.now.nodes v (result.now ≡ weights_of profile.now v) }
    ensures count { HasCellsWhereDecision diagram.now.nodes v result.now }
{
    // A profile has a rule for each decision.
    profile_has_rules();
    match diagram.kind(v) {
        Kind::Decision => &profile.rule(v).weights,
        Kind::Chance | Kind::Utility => &[],
    }
}

/// The node's factor in the weight of the worlds that pick this cell: the chance cell or the rule's
/// weight, and 1 at a utility and at the decision that is left out.
fn factor_of(diagram: &Diagram, weights: &[u128], left_out: usize, v: usize, cell: usize) -> u128
    requires node { v < length diagram.now.nodes }
    requires cell { cell < cells_at diagram.now.nodes v }
    requires weights { HasCellsWhereDecision diagram.now.nodes v weights.now }
    ensures { pos result ≡ factor_by_weights diagram.now.nodes weights.now left_out v cell }
{
    let kind = diagram.kind(v);
    if v == left_out {
        return 1;
    }
    match kind {
        Kind::Utility => 1,
        Kind::Chance => diagram.cells(v)[cell] as u128,
        Kind::Decision => weights[cell],
    }
}

/// The node's factor at each of its cells.
fn factors_of(
    alloc: Global,
    diagram: &Diagram,
    profile: &Profile,
    left_out: usize,
    v: usize,
) -> Result<Vec<u128>, AllocError>
    requires node { v < length diagram.now.nodes }
    requires profile { IsProfile diagram.now.nodes profile.now }
    ensures { IfOk result (HasFactors diagram.now.nodes profile.now left_out v) }
{
    let weights = weights_at(diagram, profile, v);
    let cells = diagram.rows(v) * diagram.states(v);
    let mut list = Vec::with_capacity(alloc, cells)?;
    for cell in 0..cells {
        list.push(factor_of(diagram, weights, left_out, v, cell))?;
    }
    Ok(list)
}

/// For each node its factors. They take as much memory as the diagram's tables and the profile's
/// rules.
pub(crate) fn all_factors(
    alloc: Global,
    diagram: &Diagram,
    profile: &Profile,
    left_out: usize,
) -> Result<Vec<Vec<u128>>, AllocError>
    requires { IsProfile diagram.now.nodes profile.now }
    ensures { IfOk result (HasAllFactors diagram.now.nodes profile.now left_out) }
{
    let mut all = Vec::with_capacity(alloc, diagram.count())?;
    for v in 0..diagram.count() {
        all.push(factors_of(alloc, diagram, profile, left_out, v)?)?;
    }
    Ok(all)
}

/// The node's factor at the cell.
pub(crate) fn factor(factors: &[Vec<u128>], v: usize, cell: usize) -> u128
    requires node { v < length factors.now }
    requires cell { cell < length (slice_index_or (lists_in factors.now) v []) }
    ensures { result ≡ slice_index (slice_index_or (lists_in factors.now) v []) cell }
{
    factors[v][cell]
}
