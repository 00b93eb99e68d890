//! The order in which a walk goes over the nodes.

ghost use Rattle.std.specs.Prelude.{◌≡◌, ◌+◌, ◌<◌, ◌≤◌, length, take, [], ◌∷◌, ◌++◌, if◌then◌else◌};
ghost use Rattle.node_sets.specs.Sets.{holds};
ghost use Rattle.factor_core.specs.Tables.{listed, with_extra};

use crate::short_walks::{FEW, LONG};
use crate::slots::Slot;
use crate::walks::Axis;
use node_sets::NodeSet;

/// Writes the node behind the first n, where it is held. Gives how many there are now.
pub fn push_held(order: &mut [usize], n: usize, node: usize, held: bool) -> usize
    requires { n < length order.old }
    ensures list { take result order.new ≡ take n order.old ++ (if held then node ∷ [] else []) }
    ensures few { result ≤ n + 1 }
{
    if held {
        order[n] = node;
        n + 1
    } else {
        n
    }
}

/// Puts the axis behind the first `at` of the first n, before the last of them or behind them all.
pub fn insert_axis(axes: &mut [Axis], n: usize, at: usize, axis: Axis)
    requires room { n < length axes.old }
    requires at { (at ≤ n) × (n ≤ at + 1) }
    ensures { take (n + 1) axes.new ≡ with_extra at axis (take n axes.old) }
{
    axes[n] = axes[at];
    axes[at] = axis;
}

/// One more where the node is held.
pub fn counted(n: usize, held: bool) -> usize
    requires { n < 256 }
    ensures { result ≡ n + (if held then 1 else 0) }
{
    if held { n + 1 } else { n }
}

/// How many nodes the scope holds.
pub fn count_nodes(count: usize, scope: &NodeSet) -> usize
    requires { count ≤ 256 }
    ensures count { result ≡ length (listed (holds scope.now) 0 count) }
    ensures few { result ≤ count }
{
    let mut n = 0;
    let mut next = 0;
    'nodes: while let Some(v) = scope.first_between(next, count) {
        n += 1;
        next = v + 1;
    }
    n
}

/// Lists the nodes of the scope in ascending order. Gives how many there are.
pub fn list_nodes(order: &mut [usize], count: usize, scope: &NodeSet) -> usize
    requires few { count ≤ 256 }
    requires room { length (listed (holds scope.now) 0 count) < length order.old }
    ensures list { take result order.new ≡ listed (holds scope.now) 0 count }
    ensures within { result < length order.old }
{
    let mut n = 0;
    let mut next = 0;
    'nodes: while let Some(v) = scope.first_between(next, count) {
        order[n] = v;
        n += 1;
        next = v + 1;
    }
    n
}

/// Whether the node has few states, so that a run along it is not worth its set-up.
fn is_short(counts: &[usize], node: usize) -> bool {
    match counts.get(node) {
        Some(count) => *count < LONG,
        None => false,
    }
}

/// Where the summed node stands among the n nodes of the result. Behind them all where the walk
/// goes cell by cell, so that each sum is written once, and where it is the highest and the last
/// slot holds it, so that all slots that hold it move cell by cell along it; otherwise before the
/// last.
pub fn summed_place(
    counts: &[usize],
    order: &[usize],
    n: usize,
    slots: &[Slot],
    node: usize,
) -> usize
    requires few { n ≤ length order.now }
    requires node { node < 256 }
    ensures { (result ≤ n) × (n ≤ result + 1) }
{
    if n == 0 {
        return 0;
    }
    let last = n - 1;
    if slots.len() <= FEW && is_short(counts, node) && is_short(counts, order[last]) {
        return n;
    }
    if order[last] > node || slots.is_empty() {
        return last;
    }
    if slots[slots.len() - 1].scope.holds(node) {
        n
    } else {
        last
    }
}
