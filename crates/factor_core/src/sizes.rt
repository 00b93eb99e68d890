//! Sizes of tables, and how far apart their cells stand.

ghost use Rattle.std.specs.Prelude.{◌≡◌, ◌+◌, ◌-◌, ◌*◌, ◌^◌, ◌<◌, ◌≤◌, length};
ghost use Rattle.node_sets.specs.Sets.{holds};
ghost use Rattle.factor_core.specs.Tables.{AreCounts, states_in, size_of, stride_of, size_onward};

use node_sets::NodeSet;

/// How many cells a table has over those of the nodes from one on that the scope holds.
pub fn size_after(counts: &[usize], scope: &NodeSet, from: usize) -> usize
    requires counts { AreCounts counts.now }
    requires from { from ≤ length counts.now }
    requires fits { size_onward counts.now scope.now from ≤ 2 ^ 32 }
    ensures { result ≡ size_onward counts.now scope.now from }
{
    let mut size = 1;
    let mut next = from;
    'nodes: while let Some(v) = scope.first_between(next, counts.len()) {
        size *= counts[v];
        next = v + 1;
    }
    size
}

/// How many cells a table has over the nodes of the scope.
pub fn table_size(counts: &[usize], scope: &NodeSet) -> usize
    requires counts { AreCounts counts.now }
    requires fits { size_of counts.now scope.now ≤ 2 ^ 32 }
    ensures { result ≡ size_of counts.now scope.now }
{
    size_after(counts, scope, 0)
}

/// How far apart the cells of neighbouring states of the node stand, and 0 where the scope lacks
/// the node.
pub fn stride(counts: &[usize], scope: &NodeSet, node: usize) -> usize
    requires counts { AreCounts counts.now }
    requires node { node < length counts.now }
    requires fits { size_of counts.now scope.now ≤ 2 ^ 32 }
    ensures { result ≡ stride_of (states_in counts.now) (length counts.now) (holds scope.now) node }
{
    if scope.holds(node) {
        size_after(counts, scope, node + 1)
    } else {
        0
    }
}
