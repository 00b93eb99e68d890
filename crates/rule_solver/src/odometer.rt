//! The choices of states of some of a diagram's nodes, one after another.

ghost use Rattle.std.specs.Prelude.{◌<◌, ℕ, Contains, length};
ghost use Rattle.maid_model.specs.Graph.{AllDifferent};
ghost use Rattle.maid_model.specs.Nodes.{counts_of};
ghost use Rattle.maid_model.specs.Worlds.{IsWorld};
ghost use Rattle.rule_solver.specs.Reading.{IsNextRow, KeepsOtherStates};

use maid_model::{Diagram, World};

/// Goes on to the next choice of states of these nodes, the last one fastest, and from their last
/// choice to the first again. The other nodes keep their states. It takes no memory.
pub(crate) fn next_over(world: &mut World, diagram: &Diagram, nodes: &[usize])
    requires world { IsWorld (counts_of diagram.now.nodes) world.old }
    requires once { AllDifferent nodes.now }
    requires known { (v : ℕ) → Contains nodes.now v → v < length diagram.now.nodes }
    ensures world { IsWorld (counts_of diagram.now.nodes) world.new }
    ensures row { IsNextRow diagram.now.nodes nodes.now world.old world.new }
    ensures others { KeepsOtherStates nodes.now world.old world.new }
{
    let mut i = nodes.len();
    while i > 0 {
        i -= 1;
        let v = nodes[i];
        let last = diagram.states(v) - 1;
        let state = world.states[v];
        if state < last {
            world.states[v] = state + 1;
            return;
        }
        world.states[v] = 0;
    }
}
