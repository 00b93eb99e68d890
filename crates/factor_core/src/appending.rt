//! Tables written into slots behind the first cells of a list.

ghost use Rattle.std.specs.Prelude.{◌≡◌, ◌+◌, ◌<◌, ◌≤◌, ℕ, All, length, take};
ghost use Rattle.maid_model.specs.declared.limits.TheConstants.{MOST_PLAN_CELLS};
ghost use Rattle.node_sets.specs.Sets.{holds, IsIn};
ghost use Rattle.maid_model.specs.Diagrams.{IsDiagram};
ghost use Rattle.maid_model.specs.Nodes.{counts_of};
ghost use Rattle.factor_core.specs.Scopes.{united, united_but};
ghost use Rattle.factor_core.specs.Slots.{space, IsLiveSlot, JoinOfFits, ProductOfFits, WritesJoin, WritesProduct};
ghost use Rattle.factor_core.specs.Tables.{size_of};

use crate::slots::Slot;
use crate::writes::{join_at, multiply_at};
use cell_rings::Cell;
use maid_model::Diagram;

/// Writes the join of the slots with the node summed out of it into the slot behind them, whose
/// cells are there.
pub fn join_behind<C: Cell>(
    diagram: &Diagram,
    counts: &[usize],
    slots: &[Slot],
    node: usize,
    slot: &Slot,
    all: &mut [C],
)
    requires diagram { IsDiagram diagram.now }
    requires counts { counts.now ≡ counts_of diagram.now.nodes }
    requires short { length all.old ≤ MOST_PLAN_CELLS }
    requires few { length slots.now ≤ 256 }
    requires some { 0 < length slots.now }
    requires live { All (IsLiveSlot diagram.now.nodes (take slot.now.start all.old)) slots.now }
    requires hold { All (λ s. IsIn s.scope node) slots.now }
    requires fits { JoinOfFits C.ring diagram.now.nodes node slots.now
        (space all.old slot.now.start) }
    requires scope { (v : ℕ) → holds slot.now.scope v ≡ united_but slots.now node v }
    requires size { slot.now.len ≡ size_of counts.now slot.now.scope }
    requires within { slot.now.start + slot.now.len ≤ length all.old }
    ensures { WritesJoin C.ring diagram.now.nodes node slots.now all.old all.new slot.now }
{
    join_at(counts, slots, node, &slot.scope, all, slot.start, slot.len);
}

/// Writes the product of the slots into the slot behind them, whose cells are there.
pub fn product_behind<C: Cell>(
    diagram: &Diagram,
    counts: &[usize],
    slots: &[Slot],
    slot: &Slot,
    all: &mut [C],
)
    requires diagram { IsDiagram diagram.now }
    requires counts { counts.now ≡ counts_of diagram.now.nodes }
    requires short { length all.old ≤ MOST_PLAN_CELLS }
    requires few { length slots.now ≤ 256 }
    requires live { All (IsLiveSlot diagram.now.nodes (take slot.now.start all.old)) slots.now }
    requires fits { ProductOfFits C.ring diagram.now.nodes slots.now
        (space all.old slot.now.start) }
    requires scope { (v : ℕ) → holds slot.now.scope v ≡ united slots.now v }
    requires size { slot.now.len ≡ size_of counts.now slot.now.scope }
    requires within { slot.now.start + slot.now.len ≤ length all.old }
    ensures { WritesProduct C.ring diagram.now.nodes slots.now all.old all.new slot.now }
{
    multiply_at(counts, slots, &slot.scope, all, slot.start, slot.len);
}
