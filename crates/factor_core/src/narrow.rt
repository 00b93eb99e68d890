//! Stretches of narrow cells, which are multiplied faster.

ghost use Rattle.std.specs.Prelude.{◌≡◌, ◌+◌, ◌≤◌, ◌↔◌, IsTrue};
ghost use Rattle.factor_core.specs.Narrow.{AreNarrow};

use crate::slots::Slot;
use cell_rings::Cell;

/// How many cells a join has to have before it looks whether those of the slot that it runs along
/// are narrow.
const MANY: usize = 4096;

/// How often it has to use each of these.
const OFTEN: usize = 4;

/// The places of cells that are narrow, from one on and below another.
#[derive(Clone, Copy)]
pub struct Narrow {
    pub from: usize,
    pub end: usize,
}

impl Narrow {
    /// No place.
    pub fn none() -> Narrow
        ensures from { result.from ≡ 0 }
        ensures end { result.end ≡ 0 }
    {
        Narrow { from: 0, end: 0 }
    }

    /// Whether the n places from one on are among them.
    pub fn has(self, from: usize, n: usize) -> bool
        ensures { IsTrue result ↔ ((self.from ≤ from) × (from + n ≤ self.end)) }
    {
        self.from <= from && from <= self.end && n <= self.end - from
    }
}

/// Where the slot's cells are narrow, their places.
fn narrow_slot<C: Cell>(slot: &Slot, cells: &[C]) -> Narrow
    ensures { AreNarrow C.ring C.bits C.narrow cells.now result }
{
    match slot.start.checked_add(slot.len) {
        Some(end) if end <= cells.len() && C::are_narrow(cells, slot.start, slot.len) => Narrow {
            from: slot.start,
            end,
        },
        _ => Narrow::none(),
    }
}

/// Where a join of so many cells uses each of the slot's cells often, and these are narrow, their
/// places.
fn often_used<C: Cell>(slot: &Slot, joined: usize, cells: &[C]) -> Narrow
    ensures { AreNarrow C.ring C.bits C.narrow cells.now result }
{
    if joined / OFTEN < slot.len {
        return Narrow::none();
    }
    narrow_slot(slot, cells)
}

/// Where a join of many cells uses each cell of the last slot over this node often, and these are
/// narrow, their places.
pub fn find_narrow<C: Cell>(slots: &[Slot], node: usize, joined: usize, cells: &[C]) -> Narrow
    ensures { AreNarrow C.ring C.bits C.narrow cells.now result }
{
    if joined < MANY {
        return Narrow::none();
    }
    for i in 0..slots.len() {
        let slot = &slots[slots.len() - 1 - i];
        if slot.holds(node) {
            return often_used(slot, joined, cells);
        }
    }
    Narrow::none()
}
