//! The cell of a slot at states of its nodes.

ghost use Rattle.std.specs.Prelude.{◌≡◌, ◌+◌, ◌*◌, ◌^◌, ◌<◌, ◌≤◌, IsTrue, if◌then◌else◌, slice_index, length, take};
ghost use Rattle.maid_model.specs.declared.limits.TheConstants.{MOST_PLAN_CELLS};
ghost use Rattle.factor_core.specs.Slots.{IsLiveSlot, AreStatesOf, IsCellAt};
ghost use Rattle.factor_core.specs.Tables.{AreCounts, AreScopeStates, size_of, IsPlaceAt};

use crate::orders::counted;
use crate::slots::Slot;
use cell_rings::Cell;
use maid_model::Diagram;
use node_sets::NodeSet;

/// The place with one state more, where the node is held.
fn next_place(place: usize, held: bool, states: &[usize], i: usize, count: usize) -> usize
    requires small { place < 2 ^ 32 }
    requires count { count ≤ 256 }
    requires state { IsTrue held → (i < length states.now) × (slice_index states.now i < count) }
    ensures { result ≡ (if held then place * count + slice_index states.now i else place) }
{
    if held {
        place * count + states[i]
    } else {
        place
    }
}

/// Where the cell stands in a table of the scope at these states of its nodes.
pub fn place_for(counts: &[usize], scope: &NodeSet, states: &[usize]) -> usize
    requires counts { AreCounts counts.now }
    requires fits { size_of counts.now scope.now ≤ 2 ^ 32 }
    requires states { AreScopeStates counts.now scope.now states.now }
    ensures within { result < size_of counts.now scope.now }
    ensures place { IsPlaceAt counts.now scope.now states.now result }
{
    let mut place = 0;
    let mut i = 0;
    for v in 0..counts.len() {
        let held = scope.holds(v);
        place = next_place(place, held, states, i, counts[v]);
        i = counted(i, held);
    }
    place
}

/// The slot's cell at these states of its nodes, the slot standing in the first `used` cells.
pub fn read_cell<C: Cell>(
    diagram: &Diagram,
    slot: &Slot,
    states: &[usize],
    all: &[C],
    used: usize,
) -> C
    requires used { used ≤ length all.now }
    requires short { length all.now ≤ MOST_PLAN_CELLS }
    requires live { IsLiveSlot diagram.now.nodes (take used all.now) slot.now }
    requires states { AreStatesOf diagram.now.nodes slot.now states.now }
    ensures { IsCellAt C.ring diagram.now.nodes (take used all.now) slot.now states.now result }
{
    let counts = diagram.state_counts();
    all[slot.start + place_for(counts, &slot.scope, states)]
}
