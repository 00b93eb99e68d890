//! Limits on cells and work, and what is left of them.

ghost use Rattle.std.specs.Prelude.{◌≡◌, ◌*◌};
ghost use Rattle.node_sets.specs.Sets.{holds};
ghost use Rattle.size_precheck.specs.Counts.{counted_cells};
ghost use Rattle.eliminate.specs.Limits.{Spends};

use maid_model::{COUNT_END, Diagram};
use node_sets::NodeSet;

/// How many cells a call may append, and how much work it may do: at each step the cells of the
/// joined set times the number of tables joined, and at the end the cells of the product times the
/// number of tables multiplied.
#[derive(Clone, Copy, Debug, PartialEq, Eq)]
pub struct Limits {
    pub cells: usize,
    pub work: u64,
}

/// Where counts stop.
const END: usize = COUNT_END as usize;

/// How many cells a table over the scope has. The count stops at its end, and goes over no node
/// that the scope lacks.
pub fn count_cells(diagram: &Diagram, scope: &NodeSet) -> usize
    ensures { result ≡ counted_cells diagram.now.nodes (holds scope.now) }
{
    let counts = diagram.state_counts();
    let mut cells: usize = 1;
    let mut next = 0;
    'nodes: while let Some(v) = scope.first_from(next) {
        if v >= counts.len() {
            break;
        }
        cells = cells.saturating_mul(counts[v]).min(END);
        next = v + 1;
    }
    cells
}

/// What is left after a table of so many cells, for which a join of so many cells goes over so many
/// tables.
pub fn spend(left: Limits, cells: usize, joined: usize, tables: usize) -> Option<Limits>
    ensures { Spends left cells (joined * tables) result }
{
    let work = (joined as u64).checked_mul(tables as u64)?;
    Some(Limits {
        cells: left.cells.checked_sub(cells)?,
        work: left.work.checked_sub(work)?,
    })
}
