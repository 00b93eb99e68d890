//! Tables copied behind the first cells of a list: at one state of a node, and in another order of
//! nodes.

ghost use Rattle.std.specs.Prelude.{◌≡◌, ◌+◌, ◌*◌, ◌^◌, ◌<◌, ◌≤◌, ℕ, length, take, not, ◌&&◌, ◌==◌, ◌↔◌, Contains};
ghost use Rattle.maid_model.specs.declared.limits.TheConstants.{MOST_PLAN_CELLS};
ghost use Rattle.node_sets.specs.declared.sets.TheConstants.{MOST_NODES};
ghost use Rattle.node_sets.specs.Sets.{holds, IsIn};
ghost use Rattle.maid_model.specs.Graph.{AllDifferent};
ghost use Rattle.maid_model.specs.Nodes.{counts_of, states_of};
ghost use Rattle.factor_core.specs.Slots.{space, IsLiveSlot, WritesState, MovesBehind};
ghost use Rattle.factor_core.specs.Tables.{AreCounts, size_of, stride_over};

use crate::copies::{Step, copy_at};
use crate::orders::list_nodes;
use crate::setting::set_steps;
use crate::sizes::stride;
use crate::slots::{Slot, Strip};
use crate::walks::before;
use cell_rings::Cell;
use maid_model::{Diagram, MOST_NODES};
use node_sets::NodeSet;

/// Where the slot's cells of that state of the node start.
fn first_of_state(counts: &[usize], slot: &Slot, node: usize, state: usize) -> usize
    requires counts { AreCounts counts.now }
    requires node { node < length counts.now }
    requires state { state < 256 }
    requires start { slot.now.start ≤ 2 ^ 32 }
    requires fits { size_of counts.now slot.now.scope ≤ 2 ^ 32 }
    requires near { stride_over counts.now slot.now.scope node
        ≤ 2 ^ 32 }
    ensures { result
        ≡ slot.now.start
        + state
        * stride_over counts.now slot.now.scope node }
{
    slot.start + state * stride(counts, &slot.scope, node)
}

/// The scope without the node.
pub fn without(scope: &NodeSet, node: usize) -> NodeSet
    requires { node < MOST_NODES }
    ensures { (v : ℕ) → holds result v ≡ (holds scope.now v && not (v == node)) }
{
    let mut rest = *scope;
    rest.remove(node);
    rest
}

/// Writes the slot's cells at one state of the node into the target behind it, whose cells are
/// there.
pub fn restrict_behind<C: Cell>(
    diagram: &Diagram,
    slot: &Slot,
    node: usize,
    state: usize,
    target: &Slot,
    all: &mut [C],
)
    requires short { length all.old ≤ MOST_PLAN_CELLS }
    requires live { IsLiveSlot diagram.now.nodes (take target.now.start all.old) slot.now }
    requires hold { IsIn slot.now.scope node }
    requires state { state < states_of diagram.now.nodes node }
    requires scope { (v : ℕ) → holds target.now.scope v
        ≡ (holds slot.now.scope v && not (v == node)) }
    requires size { target.now.len ≡ size_of (counts_of diagram.now.nodes) target.now.scope }
    requires within { target.now.start + target.now.len ≤ length all.old }
    ensures { WritesState C.ring diagram.now node state slot.now all.old all.new target.now }
{
    let counts = diagram.state_counts();
    let mut order = [0; MOST_NODES + 1];
    let n = list_nodes(&mut order, counts.len(), &target.scope);
    let order = before(&order, n);
    let mut steps = [Step {
        states: 1,
        stride: 0,
    }; MOST_NODES + 1];
    set_steps(&mut steps, counts, &slot.scope, order);
    let from = first_of_state(counts, slot, node, state);
    copy_at(before(&steps, n), from, all, target.start);
}

/// The slot's cells with the first of these nodes slowest, behind the first `used` cells.
pub fn reorder_behind<C: Cell>(
    diagram: &Diagram,
    slot: &Slot,
    nodes: &[usize],
    all: &mut [C],
    used: usize,
) -> Strip
    requires used { used ≤ length all.old }
    requires short { length all.old ≤ MOST_PLAN_CELLS }
    requires live { IsLiveSlot diagram.now.nodes (space all.old used).cells slot.now }
    requires once { AllDifferent nodes.now }
    requires scope { (v : ℕ) → Contains nodes.now v ↔ IsIn slot.now.scope v }
    requires room { slot.now.len ≤ (space all.old used).spare }
    ensures start { result.start ≡ used }
    ensures len { used + result.len ≤ length all.new }
    ensures same { result.len ≡ slot.now.len }
    ensures moves { MovesBehind C.ring diagram.now nodes.now slot.now all.old all.new used result }
{
    let counts = diagram.state_counts();
    let mut steps = [Step {
        states: 1,
        stride: 0,
    }; MOST_NODES + 1];
    set_steps(&mut steps, counts, &slot.scope, nodes);
    copy_at(before(&steps, nodes.len()), slot.start, all, used);
    Strip {
        start: used,
        len: slot.len,
    }
}
