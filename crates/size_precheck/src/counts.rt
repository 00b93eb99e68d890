//! Counts that stop at 10^18, and the cells of sets of nodes.

ghost use Rattle.std.specs.Prelude.{◌≡◌, ◌↔◌, ◌<◌, ◌+◌, ◌*◌, ◌/◌, ◌≤◌, ℕ, IsTrue, length};
ghost use Rattle.maid_model.specs.declared.limits.TheConstants.{COUNT_END};
ghost use Rattle.node_sets.specs.declared.sets.TheConstants.{MOST_NODES};
ghost use Rattle.node_sets.specs.Sets.{holds, IsIn};
ghost use Rattle.maid_model.specs.Bounds.{stopped};
ghost use Rattle.size_precheck.specs.Joints.{member_count, counted_over, CanBeDivided, CountsPut, CountsWithout};

use maid_model::COUNT_END;
use node_sets::NodeSet;

/// Where counts stop, in 64 bits.
const END: u64 = COUNT_END as u64;

/// The sum of two counts.
pub fn add(a: u64, b: u64) -> u64
    requires a { a ≤ COUNT_END }
    requires b { b ≤ COUNT_END }
    ensures { result ≡ stopped (a + b) }
{
    (a + b).min(END)
}

/// The product of two counts.
pub fn multiply(a: u64, b: u64) -> u64
    ensures { result ≡ stopped (a * b) }
{
    a.saturating_mul(b).min(END)
}

/// How many nodes the set has.
pub fn count_members(set: &NodeSet) -> usize
    ensures { result ≡ member_count set.now }
{
    let mut count = 0;
    let mut from = 0;
    'members: while let Some(v) = set.first_from(from) {
        count += 1;
        from = v + 1;
    }
    count
}

/// The cells of a table over the set, by the counts of states of all numbers.
pub fn count_cells(states: &[u64], set: &NodeSet) -> u64
    requires { length states.now ≡ MOST_NODES }
    ensures { result ≡ counted_over states.now (holds set.now) }
{
    let mut cells = 1;
    let mut from = 0;
    'members: while let Some(v) = set.first_from(from) {
        cells = multiply(cells, states[v]);
        from = v + 1;
    }
    cells
}

/// The count divided by a node's count of states. Where that is one of the most common, the
/// compiler has less to do than a division.
fn divide(cells: u64, states: u64) -> u64
    requires { 0 < states }
    ensures { result ≡ cells / states }
{
    match states {
        2 => cells / 2,
        3 => cells / 3,
        4 => cells / 4,
        _ => cells / states,
    }
}

/// Whether the states of v can be divided out of the cells of the set. A count that has stopped
/// says nothing of what is left.
fn can_divide(states: &[u64], set: &NodeSet, v: usize, cells: u64) -> bool
    requires len { length states.now ≡ MOST_NODES }
    requires small { v < MOST_NODES }
    ensures { IsTrue result ↔ CanBeDivided states.now set.now v cells }
{
    set.holds(v) && 0 < states[v] && cells < END
}

/// The cells of the set `after`, which is `before` without v, where `before` has `cells`.
pub fn count_less(states: &[u64], before: &NodeSet, after: &NodeSet, v: usize, cells: u64) -> u64
    requires len { length states.now ≡ MOST_NODES }
    requires small { v < MOST_NODES }
    ensures few { result ≤ COUNT_END }
    ensures counted { CountsWithout states.now before.now after.now v cells result }
{
    if can_divide(states, before, v, cells) {
        divide(cells, states[v])
    } else {
        count_cells(states, after)
    }
}

/// The cells of a joined set after a table's nodes have come and the node v, which `out` has, has
/// left, where it had `cells` before. The states of v are divided out, and those of the nodes that
/// came multiplied.
pub fn count_put(
    states: &[u64],
    before: &NodeSet,
    scope: &NodeSet,
    out: &NodeSet,
    v: usize,
    cells: u64,
) -> u64
    requires len { length states.now ≡ MOST_NODES }
    requires small { v < MOST_NODES }
    requires out { (x : ℕ) → IsIn out.now x ↔ (x ≡ v) }
    ensures { CountsPut states.now before.now scope.now out.now cells result }
{
    if can_divide(states, before, v, cells) {
        let came = scope.difference(before);
        multiply(divide(cells, states[v]), count_cells(states, &came))
    } else {
        let after = before.union(scope).difference(out);
        count_cells(states, &after)
    }
}
