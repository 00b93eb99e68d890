//! Products of slots as walks.

ghost use Rattle.std.specs.Prelude.{◌≤◌, ◌<◌, ◌+◌, ◌*◌, length};
ghost use Rattle.factor_core.specs.Tables.{CanMultiply, HasProduct, node_count};
ghost use Rattle.factor_core.specs.Rows.{HasRoomForRows};

use crate::narrow::Narrow;
use crate::orders::{count_nodes, list_nodes};
use crate::rows::set_strides;
use crate::setting::{set_axes, set_places};
use crate::short_walks::walk_over;
use crate::slots::Slot;
use crate::walks::{Axis, before};
use cell_rings::Cell;
use node_sets::NodeSet;

/// The product with these lists to write its order, axes, strides and places into.
fn multiply_in<C: Cell>(
    counts: &[usize],
    slots: &[Slot],
    scope: &NodeSet,
    cells: &[C],
    out: &mut [C],
    order: &mut [usize],
    axes: &mut [Axis],
    strides: &mut [usize],
    places: &mut [usize],
)
    requires order { node_count counts.now scope.now < length order.old }
    requires axes { node_count counts.now scope.now < length axes.old }
    requires strides { HasRoomForRows counts.now scope.now slots.now strides.old }
    requires places { length slots.now ≤ length places.old }
    requires can { CanMultiply C.ring cells.now counts.now slots.now scope.now out.old }
    ensures { HasProduct C.ring cells.now counts.now slots.now scope.now out.new }
{
    let n = list_nodes(order, counts.len(), scope);
    let order = before(order, n);
    set_axes(axes, counts, scope, order);
    set_strides(strides, places, counts, slots, order);
    set_places(places, slots);
    let axes = before(axes, n);
    let strides = before(strides, n * slots.len());
    let places = &mut places[..slots.len()];
    walk_over(Narrow::none(), axes, strides, cells, places, out, 0);
}

/// A product over fewer than `NODES` nodes, of up to `SLOTS` slots, with `STRIDES` strides at most.
#[inline(never)]
fn multiply_sized<C: Cell, const NODES: usize, const SLOTS: usize, const STRIDES: usize>(
    counts: &[usize],
    slots: &[Slot],
    scope: &NodeSet,
    cells: &[C],
    out: &mut [C],
)
    requires sizes { (NODES ≤ 257) × (SLOTS ≤ 256) × (STRIDES ≤ 65792) }
    requires nodes { node_count counts.now scope.now < NODES }
    requires slots { length slots.now ≤ SLOTS }
    requires strides { (node_count counts.now scope.now + 1) * length slots.now ≤ STRIDES }
    requires can { CanMultiply C.ring cells.now counts.now slots.now scope.now out.old }
    ensures { HasProduct C.ring cells.now counts.now slots.now scope.now out.new }
{
    let mut order = [0; NODES];
    let mut axes = [Axis { states: 1, out: 0 }; NODES];
    let mut strides = [0; STRIDES];
    let mut places = [0; SLOTS];
    multiply_in(
        counts,
        slots,
        scope,
        cells,
        out,
        &mut order,
        &mut axes,
        &mut strides,
        &mut places,
    );
}

/// Adds the product of the slots to a result of noughts over the scope: each cell is the product of
/// the slots' cells. It takes no memory.
pub fn multiply_into<C: Cell>(
    counts: &[usize],
    slots: &[Slot],
    scope: &NodeSet,
    cells: &[C],
    out: &mut [C],
)
    requires few { length slots.now ≤ 256 }
    requires can { CanMultiply C.ring cells.now counts.now slots.now scope.now out.old }
    ensures { HasProduct C.ring cells.now counts.now slots.now scope.now out.new }
{
    let n = count_nodes(counts.len(), scope);
    let size = (n + 1) * slots.len();
    if n < 16 && slots.len() <= 8 && size <= 64 {
        multiply_sized::<C, 16, 8, 64>(counts, slots, scope, cells, out);
        return;
    }
    if size <= 1028 {
        multiply_sized::<C, 257, 256, 1028>(counts, slots, scope, cells, out);
        return;
    }
    multiply_sized::<C, 257, 256, 65792>(counts, slots, scope, cells, out);
}
