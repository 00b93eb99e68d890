//! Joins and products written behind the cells that they read.

ghost use Rattle.std.specs.Prelude.{◌≡◌, ◌≤◌, ◌+◌, ◌^◌, ℕ, length, take};
ghost use Rattle.cell_rings.specs.Sums.{cell_at};
ghost use Rattle.factor_core.specs.Tables.{IsJoinScope, IsUnion, size_of, HasJoinAt, HasProductAt};
ghost use Rattle.factor_core.specs.Spaces.{CanJoinIn, CanMultiplyIn};

use crate::joins::join_into;
use crate::products::multiply_into;
use crate::slots::Slot;
use cell_rings::Cell;
use node_sets::NodeSet;

/// Makes each cell nought.
fn set_zero<C: Cell>(cells: &mut [C])
    ensures { (p : ℕ) → cell_at C.ring cells.new p ≡ C.ring.nought }
{
    for i in 0..cells.len() {
        cells[i] = C::zero();
    }
}

/// Joins the slots, whose cells stand before `start`, into the cells from there on.
pub fn join_at<C: Cell>(
    counts: &[usize],
    slots: &[Slot],
    node: usize,
    scope: &NodeSet,
    all: &mut [C],
    start: usize,
    len: usize,
)
    requires few { length slots.now ≤ 256 }
    requires within { start + len ≤ length all.old }
    requires short { length all.old ≤ 2 ^ 32 }
    requires len { len ≡ size_of counts.now scope.now }
    requires scope { IsJoinScope counts.now slots.now node scope.now }
    requires can { CanJoinIn C.ring (take start all.old) counts.now slots.now node }
    ensures kept { take start all.new ≡ take start all.old }
    ensures cells { HasJoinAt C.ring counts.now slots.now node scope.now start all.old all.new }
{
    let (cells, rest) = all.split_at_mut(start);
    let (out, _) = rest.split_at_mut(len);
    set_zero(out);
    join_into(counts, slots, node, scope, cells, out);
}

/// Multiplies the slots, whose cells stand before `start`, into the cells from there on.
pub fn multiply_at<C: Cell>(
    counts: &[usize],
    slots: &[Slot],
    scope: &NodeSet,
    all: &mut [C],
    start: usize,
    len: usize,
)
    requires few { length slots.now ≤ 256 }
    requires within { start + len ≤ length all.old }
    requires short { length all.old ≤ 2 ^ 32 }
    requires len { len ≡ size_of counts.now scope.now }
    requires scope { IsUnion counts.now slots.now scope.now }
    requires can { CanMultiplyIn C.ring (take start all.old) counts.now slots.now }
    ensures kept { take start all.new ≡ take start all.old }
    ensures cells { HasProductAt C.ring counts.now slots.now scope.now start all.old all.new }
{
    let (cells, rest) = all.split_at_mut(start);
    let (out, _) = rest.split_at_mut(len);
    set_zero(out);
    multiply_into(counts, slots, scope, cells, out);
}
