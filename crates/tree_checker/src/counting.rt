//! How many worlds a check goes through.

ghost use Rattle.std.specs.Prelude.{◌≡◌};
ghost use Rattle.maid_model.specs.Bounds.{stopped, world_count};

use maid_model::{COUNT_END, Diagram};

/// How many worlds the diagram has: the product of the state counts of all chance nodes and
/// decisions, or 10^18 where that is less. It takes no memory.
pub fn leaves(diagram: &Diagram) -> u128
    ensures { result ≡ stopped (world_count diagram.now.nodes) }
{
    let mut count: u128 = 1;
    for v in 0..diagram.count() {
        count = COUNT_END.min(count * diagram.states(v) as u128);
    }
    count
}
