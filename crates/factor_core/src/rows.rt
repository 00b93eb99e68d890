//! The strides that a walk begins with: a row for each node, with the stride of each slot.

ghost use Rattle.std.specs.Prelude.{◌≡◌, ◌+◌, ◌-◌, ◌*◌, ◌^◌, ◌<◌, ◌≤◌, All, length};
ghost use Rattle.factor_core.specs.Rows.{HasStrideRow, HasNodes, row_beside, AreRowsOf, HaveRows, KeepRows, MayBeOf, AreRowsWith, AreSizesFrom};
ghost use Rattle.factor_core.specs.Scopes.{united, united_but};
ghost use Rattle.factor_core.specs.Tables.{AreCounts, size_of, listed, stride_over, size_onward};

use crate::slots::Slot;

/// The slot's stride at the node, whose states its size takes in.
fn take_in(size: &mut usize, counts: &[usize], slot: &Slot, node: usize) -> usize
    requires counts { AreCounts counts.now }
    requires node { node < length counts.now }
    requires fits { size_of counts.now slot.now.scope ≤ 2 ^ 32 }
    requires behind { size.old ≡ size_onward counts.now slot.now.scope (node + 1) }
    ensures stride { result ≡ stride_over counts.now slot.now.scope node }
    ensures size { size.new ≡ size_onward counts.now slot.now.scope node }
{
    if !slot.scope.holds(node) {
        return 0;
    }
    let stride = *size;
    *size = stride * counts[node];
    stride
}

/// Writes the row of the node, whose states the slots' sizes take in.
fn set_row(
    strides: &mut [usize],
    row: usize,
    sizes: &mut [usize],
    counts: &[usize],
    slots: &[Slot],
    node: usize,
)
    requires counts { AreCounts counts.now }
    requires node { node < length counts.now }
    requires room { (row + 1) * length slots.now ≤ length strides.old }
    requires sizes { length slots.now ≤ length sizes.old }
    requires fits { All (λ s. size_of counts.now s.scope ≤ 2 ^ 32) slots.now }
    requires behind { AreSizesFrom counts.now slots.now (node + 1) sizes.old }
    ensures row { HasStrideRow counts.now slots.now strides.new row node }
    ensures others { KeepRows counts.now slots.now strides.old strides.new (λ r v. r ≡ row → ⊥) }
    ensures sizes { AreSizesFrom counts.now slots.now node sizes.new }
{
    let from = row * slots.len();
    for j in 0..slots.len() {
        strides[from + j] = take_in(&mut sizes[j], counts, &slots[j], node);
    }
}

/// The row of the i-th node where one more node has the row `at`.
fn place_beside(at: usize, i: usize) -> usize
    requires { i < 256 }
    ensures { result ≡ row_beside at i }
{
    if i < at { i } else { i + 1 }
}

/// Writes the rows of those of the nodes that are from `low` on and below `high`, from the last to
/// the first, where one more node has the row `at`.
fn set_rows(
    strides: &mut [usize],
    sizes: &mut [usize],
    counts: &[usize],
    slots: &[Slot],
    kept: &[usize],
    at: usize,
    low: usize,
    high: usize,
)
    requires counts { AreCounts counts.now }
    requires range { (low ≤ high) × (high ≤ length counts.now) }
    requires kept { HasNodes counts.now slots.now low high kept.now }
    requires room { (length kept.now + 1) * length slots.now ≤ length strides.old }
    requires sizes { length slots.now ≤ length sizes.old }
    requires fits { All (λ s. size_of counts.now s.scope ≤ 2 ^ 32) slots.now }
    requires behind { AreSizesFrom counts.now slots.now high sizes.old }
    ensures rows { HaveRows counts.now slots.now strides.new at low high kept.now }
    ensures others { KeepRows counts.now slots.now strides.old strides.new (MayBeOf at kept.now) }
    ensures sizes { AreSizesFrom counts.now slots.now low sizes.new }
{
    for i in (0..kept.len()).rev() {
        let node = kept[i];
        if low <= node && node < high {
            set_row(strides, place_beside(at, i), sizes, counts, slots, node);
        }
    }
}

/// Writes that each slot has one cell behind the last node.
fn set_ones(sizes: &mut [usize], counts: &[usize], slots: &[Slot])
    requires { length slots.now ≤ length sizes.old }
    ensures { AreSizesFrom counts.now slots.now (length counts.now) sizes.new }
{
    for j in 0..slots.len() {
        sizes[j] = 1;
    }
}

/// Writes the strides of the slots at each of their nodes. The list of sizes is left with what the
/// walk needed.
pub fn set_strides(
    strides: &mut [usize],
    sizes: &mut [usize],
    counts: &[usize],
    slots: &[Slot],
    kept: &[usize],
)
    requires counts { AreCounts counts.now }
    requires kept { kept.now ≡ listed (united slots.now) 0 (length counts.now) }
    requires room { (length kept.now + 1) * length slots.now ≤ length strides.old }
    requires sizes { length slots.now ≤ length sizes.old }
    requires fits { All (λ s. size_of counts.now s.scope ≤ 2 ^ 32) slots.now }
    ensures { AreRowsOf counts.now slots.now kept.now (length kept.now) strides.new }
{
    set_ones(sizes, counts, slots);
    set_rows(
        strides,
        sizes,
        counts,
        slots,
        kept,
        kept.len(),
        0,
        counts.len(),
    );
}

/// Writes the strides of the slots at each of their nodes, with those at one node in the row `at`,
/// and those at the other ones in ascending order beside it.
pub fn set_strides_with(
    strides: &mut [usize],
    sizes: &mut [usize],
    counts: &[usize],
    slots: &[Slot],
    kept: &[usize],
    at: usize,
    node: usize,
)
    requires counts { AreCounts counts.now }
    requires node { node < length counts.now }
    requires at { at ≤ length kept.now }
    requires kept { kept.now ≡ listed (united_but slots.now node) 0 (length counts.now) }
    requires room { (length kept.now + 1) * length slots.now ≤ length strides.old }
    requires sizes { length slots.now ≤ length sizes.old }
    requires fits { All (λ s. size_of counts.now s.scope ≤ 2 ^ 32) slots.now }
    ensures { AreRowsWith counts.now slots.now at node kept.now strides.new }
{
    set_ones(sizes, counts, slots);
    set_rows(
        strides,
        sizes,
        counts,
        slots,
        kept,
        at,
        node + 1,
        counts.len(),
    );
    set_row(strides, at, sizes, counts, slots, node);
    set_rows(strides, sizes, counts, slots, kept, at, 0, node);
}
