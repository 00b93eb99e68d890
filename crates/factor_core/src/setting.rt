//! The axes, strides and places that a walk begins with.

ghost use Rattle.std.specs.Prelude.{◌≡◌, ◌^◌, ◌<◌, ◌≤◌, All, length, take};
ghost use Rattle.node_sets.specs.Sets.{holds};
ghost use Rattle.factor_core.specs.Tables.{AreCounts, size_of, listed, starts_of, stride_over, AreAxesOf};
ghost use Rattle.factor_core.specs.Copies.{AreStepsOf};

use crate::copies::Step;
use crate::sizes::stride;
use crate::slots::Slot;
use crate::walks::Axis;
use node_sets::NodeSet;

/// Writes the axes of the scope's nodes, from the last to the first: how many cells there are over
/// the nodes behind one is its stride in the result.
pub fn set_axes(axes: &mut [Axis], counts: &[usize], scope: &NodeSet, kept: &[usize])
    requires counts { AreCounts counts.now }
    requires kept { kept.now ≡ listed (holds scope.now) 0 (length counts.now) }
    requires room { length kept.now ≤ length axes.old }
    requires fits { size_of counts.now scope.now ≤ 2 ^ 32 }
    ensures { AreAxesOf counts.now scope.now kept.now axes.new }
{
    let mut size = 1;
    for i in (0..kept.len()).rev() {
        let states = counts[kept[i]];
        axes[i] = Axis { states, out: size };
        size *= states;
    }
}

/// Writes where the slots start.
pub fn set_places(places: &mut [usize], slots: &[Slot])
    requires { length slots.now ≤ length places.old }
    ensures { take (length slots.now) places.new ≡ starts_of slots.now }
{
    for j in 0..slots.len() {
        places[j] = slots[j].start;
    }
}

/// Writes the steps of the nodes, with the strides of a table over the scope.
pub fn set_steps(steps: &mut [Step], counts: &[usize], scope: &NodeSet, order: &[usize])
    requires counts { AreCounts counts.now }
    requires order { All (λ v. v < length counts.now) order.now }
    requires room { length order.now ≤ length steps.old }
    requires fits { size_of counts.now scope.now ≤ 2 ^ 32 }
    ensures { AreStepsOf counts.now (stride_over counts.now scope.now) order.now steps.new }
{
    for i in 0..order.len() {
        steps[i] = Step {
            states: counts[order[i]],
            stride: stride(counts, scope, order[i]),
        };
    }
}
