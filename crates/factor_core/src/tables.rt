//! First tables of nodes, behind the first cells of a list.

ghost use Rattle.std.specs.Prelude.{◌≡◌, ◌+◌, ◌-◌, ◌^◌, ◌↔◌, IsTrue, ◌<◌, ◌≤◌, ℕ, All, Contains, drop, length};
ghost use Rattle.maid_model.specs.declared.limits.TheConstants.{MOST_PARENTS, MOST_PLAN_CELLS};
ghost use Rattle.node_sets.specs.declared.sets.TheConstants.{MOST_NODES};
ghost use Rattle.node_sets.specs.Sets.{holds};
ghost use Rattle.maid_model.specs.Graph.{AllDifferent};
ghost use Rattle.maid_model.specs.Diagrams.{IsDiagram};
ghost use Rattle.maid_model.specs.Nodes.{counts_of, rows_under};
ghost use Rattle.plan_sums.specs.Plans.{has};
ghost use Rattle.factor_core.specs.Copies.{list_stride, AreListSteps, CanCopyListOf, CopiesStraight, CopiesTo, HasCellsOver, HasCellsOfList, HasSpareForList, WritesList};
ghost use Rattle.factor_core.specs.Slots.{space};
ghost use Rattle.factor_core.specs.Tables.{AreCounts, states_in};

use crate::copies::{Step, copy_from};
use crate::orders::list_nodes;
use crate::slots::Slot;
use crate::sources::Source;
use crate::walks::before;
use cell_rings::Cell;
use maid_model::{Diagram, MOST_PARENTS};
use node_sets::NodeSet;

/// Nodes, and a source that has a cell for each choice of their states, the first node slowest.
#[derive(Drop)]
pub struct Listed<'a, S> {
    pub list: &'a [usize],
    pub source: &'a S,
}

/// How many choices of states the nodes of the list have from a place on.
fn rows_after(counts: &[usize], list: &[usize], from: usize) -> usize
    requires counts { AreCounts counts.now }
    requires list { All (λ v. v < length counts.now) list.now }
    requires from { from ≤ length list.now }
    requires fits { rows_under (states_in counts.now) list.now ≤ 2 ^ 32 }
    ensures { result ≡ rows_under (states_in counts.now) (drop from list.now) }
{
    let mut rows = 1;
    let mut i = list.len();
    while i > from {
        i -= 1;
        rows *= counts[list[i]];
    }
    rows
}

/// How far apart the cells of neighbouring states of the node stand, in cells with the first node
/// of the list slowest.
fn stride_in(counts: &[usize], list: &[usize], node: usize) -> usize
    requires counts { AreCounts counts.now }
    requires list { All (λ v. v < length counts.now) list.now }
    requires fits { rows_under (states_in counts.now) list.now ≤ 2 ^ 32 }
    ensures { result ≡ list_stride (states_in counts.now) list.now node }
{
    for i in 0..list.len() {
        if list[i] == node {
            return rows_after(counts, list, i + 1);
        }
    }
    0
}

/// Writes the steps of the nodes, with the strides of cells that stand with the first node of the
/// list slowest.
fn set_list_steps(steps: &mut [Step], counts: &[usize], list: &[usize], order: &[usize])
    requires counts { AreCounts counts.now }
    requires list { All (λ v. v < length counts.now) list.now }
    requires order { All (λ v. v < length counts.now) order.now }
    requires room { length order.now ≤ length steps.old }
    requires fits { rows_under (states_in counts.now) list.now ≤ 2 ^ 32 }
    ensures { AreListSteps counts.now list.now order.now steps.new }
{
    for i in 0..order.len() {
        steps[i] = Step {
            states: counts[order[i]],
            stride: stride_in(counts, list, order[i]),
        };
    }
}

/// Whether the lists are the same.
fn is_same(one: &[usize], other: &[usize]) -> bool
    ensures { IsTrue result ↔ (one.now ≡ other.now) }
{
    one == other
}

/// Copies the cells of a source to the places from `at` on, in the order in which they stand.
fn copy_straight<C: Cell, S: Source<C>>(
    counts: &[usize],
    list: &[usize],
    source: &S,
    all: &mut [C],
    at: usize,
)
    requires counts { AreCounts counts.now }
    requires list { All (λ v. v < length counts.now) list.now }
    requires once { AllDifferent list.now }
    requires fits { rows_under (states_in counts.now) list.now ≤ 2 ^ 32 }
    requires at { at ≤ length all.old }
    requires fit { S.is_fit source.now }
    requires cells { HasCellsOver S.Source source.now (states_in counts.now) list.now }
    requires room { rows_under (states_in counts.now) list.now ≤ length all.old - at }
    ensures { CopiesStraight C.ring S.Source source.now counts.now list.now at all.old all.new }
{
    let run = [Step {
        states: rows_after(counts, list, 0),
        stride: 1,
    }];
    copy_from(&run, source, all, at);
}

/// Copies the cells of a source, which has them with the first node of the list slowest, to the
/// places from `at` on, there with the first node of the order slowest.
fn copy_listed<C: Cell, S: Source<C>>(
    counts: &[usize],
    list: &[usize],
    order: &[usize],
    source: &S,
    all: &mut [C],
    at: usize,
)
    requires counts { AreCounts counts.now }
    requires list { All (λ v. v < length counts.now) list.now }
    requires order { All (λ v. v < length counts.now) order.now }
    requires few { length order.now ≤ MOST_PARENTS + 2 }
    requires once { AllDifferent list.now }
    requires fits { rows_under (states_in counts.now) list.now ≤ 2 ^ 32 }
    requires at { at ≤ length all.old }
    requires fit { S.is_fit source.now }
    requires cells { HasCellsOver S.Source source.now (states_in counts.now) list.now }
    requires room { rows_under (states_in counts.now) list.now ≤ length all.old - at }
    requires can { CanCopyListOf S.Source source.now counts.now list.now order.now all.old at }
    ensures { CopiesTo C.ring S.Source source.now counts.now list.now order.now at all.old all.new }
{
    if is_same(list, order) {
        copy_straight(counts, list, source, all, at);
        return;
    }
    let mut steps = [Step {
        states: 1,
        stride: 0,
    }; MOST_PARENTS + 2];
    set_list_steps(&mut steps, counts, list, order);
    copy_from(before(&steps, order.len()), source, all, at);
}

/// The nodes of the list.
fn scope_of(list: &[usize]) -> NodeSet
    requires { (v : ℕ) → Contains list.now v → v < MOST_NODES }
    ensures { (v : ℕ) → holds result v ≡ has list.now v }
{
    let mut scope = NodeSet::empty();
    scope.insert_all(list);
    scope
}

/// The table over the listed nodes, behind the first `used` cells.
pub fn write_table<C: Cell, S: Source<C>>(
    diagram: &Diagram,
    counts: &[usize],
    listed: &Listed<S>,
    all: &mut [C],
    used: usize,
) -> Slot
    requires diagram { IsDiagram diagram.now }
    requires counts { counts.now ≡ counts_of diagram.now.nodes }
    requires used { used ≤ length all.old }
    requires short { length all.old ≤ MOST_PLAN_CELLS }
    requires few { length listed.now.list.now ≤ MOST_PARENTS + 1 }
    requires once { AllDifferent listed.now.list.now }
    requires known { (v : ℕ) → Contains listed.now.list.now v → v < length diagram.now.nodes }
    requires fit { S.is_fit listed.now.source.now }
    requires cells { HasCellsOfList S.Source diagram.now listed.now }
    requires room { HasSpareForList diagram.now listed.now (space all.old used) }
    ensures start { result.start ≡ used }
    ensures len { used + result.len ≤ length all.new }
    ensures table { WritesList C.ring S.Source diagram.now listed.now all.old all.new used result }
{
    let scope = scope_of(listed.list);
    let len = rows_after(counts, listed.list, 0);
    let mut order = [0; MOST_PARENTS + 2];
    let n = list_nodes(&mut order, counts.len(), &scope);
    let order = before(&order, n);
    copy_listed(counts, listed.list, order, listed.source, all, used);
    Slot {
        start: used,
        len,
        scope,
    }
}
