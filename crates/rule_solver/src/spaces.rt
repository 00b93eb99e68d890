//! The room in which plans run.

ghost use Rattle.std.specs.Prelude.{◌≤◌, All, IfOk};
ghost use Rattle.maid_model.specs.declared.limits.TheConstants.{MOST_PLAN_CELLS};
ghost use Rattle.rule_solver.specs.Rooms.{AreLeft, AreNeededForPlans, AreReady, AreThoseLeft};

use cell_rings::{Both, Gain, SmallGain};
use eliminate::RunLists;
use factor_core::Workspace;
use size_precheck::{Plan, pair_room};
use std::alloc::{AllocError, Global};

/// Three workspaces: one for the plans whose numbers surely fit cells of 64 bits, one for all
/// others, and one for goals that are summed together, in pairs of a mass and a gain. Reserved
/// once, they serve any number of plans, one after another.
#[derive(Drop)]
pub struct Workspaces {
    pub small: Workspace<SmallGain>,
    pub wide: Workspace<Gain>,
    pub pairs: Workspace<Both>,
    /// What the runs in any of the three write their places and slots into.
    pub lists: RunLists,
    /// How many cells `small` and `wide` have room for.
    pub cells: usize,
    /// How many cells `pairs` has room for.
    pub pair_cells: usize,
}

impl Workspaces {
    /// Workspaces without a table: two with room for so many cells each, and that of pairs with the
    /// room that `pair_room` tells of.
    pub fn reserve(alloc: Global, cells: usize) -> Result<Workspaces, AllocError>
        requires { cells ≤ MOST_PLAN_CELLS }
        ensures { IfOk result (AreReady cells) }
    {
        let pair_cells = pair_room(cells);
        Ok(Workspaces {
            small: Workspace::reserve(alloc, cells)?,
            wide: Workspace::reserve(alloc, cells)?,
            pairs: Workspace::reserve(alloc, pair_cells)?,
            lists: RunLists::reserve(alloc)?,
            cells,
            pair_cells,
        })
    }

    /// The workspaces that another run has left, where they have room for so many cells, and else
    /// new ones.
    pub(crate) fn with_room(
        alloc: Global,
        left: Option<Workspaces>,
        cells: usize,
    ) -> Result<Workspaces, AllocError>
        requires limit { cells ≤ MOST_PLAN_CELLS }
        requires left { AreLeft left }
        ensures ready { IfOk result (λ spaces. AreReady spaces.cells spaces) }
        ensures room { IfOk result (λ spaces. cells ≤ spaces.cells) }
        ensures same { IfOk result (AreThoseLeft left cells) }
    {
        if let Some(spaces) = left {
            if spaces.cells >= cells {
                return Ok(spaces);
            }
        }
        Workspaces::reserve(alloc, cells)
    }
}

/// How many cells the largest of the plans has, and no fewer than `fewest`.
pub(crate) fn most_cells(fewest: u128, plans: &[Plan]) -> u128
    ensures fewest { fewest ≤ result }
    ensures plans { All (λ plan. plan.size.cells ≤ result) plans.now }
    ensures least { AreNeededForPlans fewest plans.now result }
{
    let mut most = fewest;
    for plan in plans {
        most = most.max(plan.size().cells);
    }
    most
}
