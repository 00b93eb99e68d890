//! First tables of nodes: of a chance node, of a decision's rule, and of a utility.

ghost use Rattle.std.specs.Prelude.{◌≡◌, ◌+◌, ◌*◌, ◌<◌, ◌≤◌, All, ◌++◌, [], ◌∷◌, if◌then◌else◌, length, take, nat_abs};
ghost use Rattle.maid_model.specs.declared.limits.TheConstants.{MOST_PLAN_CELLS};
ghost use Rattle.maid_model.specs.declared.diagrams.Kind.{Kind};
ghost use Rattle.maid_model.specs.Nodes.{counts_of, node_at, IsDecision};
ghost use Rattle.maid_model.specs.Profiles.{IsProfile, HasRule};
ghost use Rattle.maid_model.specs.Tables.{weights_of};
ghost use Rattle.factor_core.specs.Operations.{NumbersFit, first_count};
ghost use Rattle.factor_core.specs.Slots.{AppendsUtility, Behind, HasSpareForFirst, HasSpareForNode, HasSpareForUtility, space, WritesChance, WritesFirst, WritesNode};

use crate::orders::push_held;
use crate::slots::Slot;
use crate::sources::{ChanceCells, RuleCells, ValueCells};
use crate::tables::{Listed, write_table};
use crate::walks::before;
use cell_rings::Cell;
use maid_model::{Diagram, Kind, MOST_PARENTS, Profile};

/// Writes the parents, and the node behind them where it is asked for. Gives how many there are.
fn list_family(list: &mut [usize], parents: &[usize], own: bool, v: usize) -> usize
    requires { length parents.now < length list.old }
    ensures list { take result list.new ≡ parents.now ++ (if own then v ∷ [] else []) }
    ensures within { result ≤ length list.new }
{
    for i in 0..parents.len() {
        list[i] = parents[i];
    }
    push_held(list, parents.len(), v, own)
}

/// The weights of the decision's rule.
fn rule_weights(profile: &Profile, decision: usize) -> &[u128]
    requires { HasRule profile.now decision }
    ensures { result.now ≡ weights_of profile.now decision }
{
    let rule = profile.rule(decision);
    rule.weights.as_slice()
}

/// How many cells the first table of the node has.
pub fn first_size(diagram: &Diagram, profile: &Profile, v: usize) -> usize
    requires profile { IsProfile diagram.now.nodes profile.now }
    requires node { v < length diagram.now.nodes }
    ensures { result ≡ first_count diagram.now.nodes v }
{
    match diagram.kind(v) {
        Kind::Decision => rule_weights(profile, v).len(),
        Kind::Chance | Kind::Utility => diagram.cells(v).len(),
    }
}

/// The table of a chance node, behind the first `used` cells.
fn chance_table<C: Cell>(
    diagram: &Diagram,
    counts: &[usize],
    v: usize,
    all: &mut [C],
    used: usize,
) -> Slot
    requires counts { counts.now ≡ counts_of diagram.now.nodes }
    requires used { used ≤ length all.old }
    requires short { length all.old ≤ MOST_PLAN_CELLS }
    requires node { v < length diagram.now.nodes }
    requires kind { (node_at diagram.now.nodes v).kind ≡ Kind.Chance }
    requires fit { All (λ z. 2 * nat_abs z ≤ C.ring.most) (node_at diagram.now.nodes v).cells }
    requires room { HasSpareForNode C.Cell diagram.now.nodes [] v (space all.old used) }
    ensures start { result.start ≡ used }
    ensures len { used + result.len ≤ length all.new }
    ensures table { WritesChance C.Cell diagram.now.nodes v all.old all.new used result }
{
    let mut list = [0; MOST_PARENTS + 1];
    let n = list_family(&mut list, diagram.parents(v), true, v);
    let source = ChanceCells {
        cells: diagram.cells(v),
    };
    let listed = Listed {
        list: before(&list, n),
        source: &source,
    };
    write_table(diagram, counts, &listed, all, used)
}

/// The table of a decision's rule, behind the first `used` cells.
fn rule_table<C: Cell>(
    diagram: &Diagram,
    counts: &[usize],
    profile: &Profile,
    v: usize,
    all: &mut [C],
    used: usize,
) -> Slot
    requires counts { counts.now ≡ counts_of diagram.now.nodes }
    requires used { used ≤ length all.old }
    requires short { length all.old ≤ MOST_PLAN_CELLS }
    requires profile { IsProfile diagram.now.nodes profile.now }
    requires node { IsDecision diagram.now.nodes v }
    requires fit { All (λ w. 2 * w ≤ C.ring.most) (weights_of profile.now v) }
    requires room { HasSpareForNode C.Cell diagram.now.nodes profile.now v (space all.old used) }
    ensures start { result.start ≡ used }
    ensures len { used + result.len ≤ length all.new }
    ensures table { WritesNode C.Cell diagram.now.nodes profile.now v all.old all.new used result }
{
    let mut list = [0; MOST_PARENTS + 1];
    let n = list_family(&mut list, diagram.parents(v), true, v);
    let source = RuleCells {
        cells: rule_weights(profile, v),
    };
    let listed = Listed {
        list: before(&list, n),
        source: &source,
    };
    write_table(diagram, counts, &listed, all, used)
}

/// The table of a utility, behind the first `used` cells.
fn value_table<C: Cell>(
    diagram: &Diagram,
    counts: &[usize],
    v: usize,
    all: &mut [C],
    used: usize,
) -> Slot
    requires counts { counts.now ≡ counts_of diagram.now.nodes }
    requires used { used ≤ length all.old }
    requires short { length all.old ≤ MOST_PLAN_CELLS }
    requires node { v < length diagram.now.nodes }
    requires kind { (node_at diagram.now.nodes v).kind ≡ Kind.Utility }
    requires fit { All (λ z. 2 * nat_abs z ≤ C.ring.most) (node_at diagram.now.nodes v).cells }
    requires room { HasSpareForUtility C.Cell diagram.now.nodes v (space all.old used) }
    ensures start { result.start ≡ used }
    ensures len { used + result.len ≤ length all.new }
    ensures table { Behind all.old all.new used result (AppendsUtility C.Cell diagram.now.nodes v) }
{
    let source = ValueCells {
        cells: diagram.cells(v),
    };
    let listed = Listed {
        list: diagram.parents(v),
        source: &source,
    };
    write_table(diagram, counts, &listed, all, used)
}

/// The first table of a node, behind the first `used` cells.
pub fn table_behind<C: Cell>(
    diagram: &Diagram,
    counts: &[usize],
    profile: &Profile,
    v: usize,
    all: &mut [C],
    used: usize,
) -> Slot
    requires counts { counts.now ≡ counts_of diagram.now.nodes }
    requires used { used ≤ length all.old }
    requires short { length all.old ≤ MOST_PLAN_CELLS }
    requires profile { IsProfile diagram.now.nodes profile.now }
    requires node { v < length diagram.now.nodes }
    requires fit { NumbersFit C.ring.most diagram.now.nodes profile.now v }
    requires room { HasSpareForFirst C.Cell diagram.now.nodes profile.now v (space all.old used) }
    ensures start { result.start ≡ used }
    ensures len { used + result.len ≤ length all.new }
    ensures table { WritesFirst C.Cell diagram.now.nodes profile.now v all.old all.new used result }
{
    match diagram.kind(v) {
        Kind::Chance => chance_table(diagram, counts, v, all, used),
        Kind::Decision => rule_table(diagram, counts, profile, v, all, used),
        Kind::Utility => value_table(diagram, counts, v, all, used),
    }
}
