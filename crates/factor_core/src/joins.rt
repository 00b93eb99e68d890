//! Joins of slots, with a node summed out, as walks.

ghost use Rattle.std.specs.Prelude.{◌≤◌, ◌<◌, ◌+◌, ◌*◌, length};
ghost use Rattle.factor_core.specs.Tables.{CanJoin, HasJoin, node_count};
ghost use Rattle.factor_core.specs.Rows.{HasRoomForRows};

use crate::narrow::find_narrow;
use crate::orders::{count_nodes, insert_axis, list_nodes, summed_place};
use crate::rows::set_strides_with;
use crate::setting::{set_axes, set_places};
use crate::short_walks::walk_over;
use crate::slots::Slot;
use crate::walks::{Axis, before};
use cell_rings::Cell;
use node_sets::NodeSet;

/// The join with these lists to write its order, axes, strides and places into.
fn join_in<C: Cell>(
    counts: &[usize],
    slots: &[Slot],
    node: usize,
    scope: &NodeSet,
    cells: &[C],
    out: &mut [C],
    order: &mut [usize],
    axes: &mut [Axis],
    strides: &mut [usize],
    places: &mut [usize],
)
    requires order { node_count counts.now scope.now < length order.old }
    requires axes { node_count counts.now scope.now < length axes.old }
    requires strides { HasRoomForRows counts.now scope.now slots.now strides.old }
    requires places { length slots.now ≤ length places.old }
    requires can { CanJoin C.ring cells.now counts.now slots.now node scope.now out.old }
    ensures { HasJoin C.ring cells.now counts.now slots.now node scope.now out.new }
{
    let kept = list_nodes(order, counts.len(), scope);
    let at = summed_place(counts, order, kept, slots, node);
    let last = if at < kept { order[at] } else { node };
    let order = before(order, kept);
    set_axes(axes, counts, scope, order);
    insert_axis(
        axes,
        kept,
        at,
        Axis {
            states: counts[node],
            out: 0,
        },
    );
    set_strides_with(strides, places, counts, slots, order, at, node);
    set_places(places, slots);
    let n = kept + 1;
    let axes = before(axes, n);
    let strides = before(strides, n * slots.len());
    let joined = out.len().saturating_mul(counts[node]);
    let narrow = find_narrow(slots, last, joined, cells);
    let places = &mut places[..slots.len()];
    walk_over(narrow, axes, strides, cells, places, out, 0);
}

/// A join over fewer than `NODES` nodes, of up to `SLOTS` slots, with `STRIDES` strides at most.
#[inline(never)]
fn join_sized<C: Cell, const NODES: usize, const SLOTS: usize, const STRIDES: usize>(
    counts: &[usize],
    slots: &[Slot],
    node: usize,
    scope: &NodeSet,
    cells: &[C],
    out: &mut [C],
)
    requires sizes { (NODES ≤ 257) × (SLOTS ≤ 256) × (STRIDES ≤ 65792) }
    requires nodes { node_count counts.now scope.now < NODES }
    requires slots { length slots.now ≤ SLOTS }
    requires strides { (node_count counts.now scope.now + 1) * length slots.now ≤ STRIDES }
    requires can { CanJoin C.ring cells.now counts.now slots.now node scope.now out.old }
    ensures { HasJoin C.ring cells.now counts.now slots.now node scope.now out.new }
{
    let mut order = [0; NODES];
    let mut axes = [Axis { states: 1, out: 0 }; NODES];
    let mut strides = [0; STRIDES];
    let mut places = [0; SLOTS];
    join_in(
        counts,
        slots,
        node,
        scope,
        cells,
        out,
        &mut order,
        &mut axes,
        &mut strides,
        &mut places,
    );
}

/// Adds the join of the slots to a result of noughts over the scope: each cell is the sum over the
/// node's states of the product of the slots' cells. It takes no memory.
pub fn join_into<C: Cell>(
    counts: &[usize],
    slots: &[Slot],
    node: usize,
    scope: &NodeSet,
    cells: &[C],
    out: &mut [C],
)
    requires few { length slots.now ≤ 256 }
    requires can { CanJoin C.ring cells.now counts.now slots.now node scope.now out.old }
    ensures { HasJoin C.ring cells.now counts.now slots.now node scope.now out.new }
{
    let n = count_nodes(counts.len(), scope);
    let size = (n + 1) * slots.len();
    if n < 8 && slots.len() <= 4 && size <= 32 {
        join_sized::<C, 8, 4, 32>(counts, slots, node, scope, cells, out);
        return;
    }
    if n < 16 && slots.len() <= 8 && size <= 64 {
        join_sized::<C, 16, 8, 64>(counts, slots, node, scope, cells, out);
        return;
    }
    if size <= 1028 {
        join_sized::<C, 257, 256, 1028>(counts, slots, node, scope, cells, out);
        return;
    }
    join_sized::<C, 257, 256, 65792>(counts, slots, node, scope, cells, out);
}
