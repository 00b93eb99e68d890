//! The gains and masses of a decision, listed.

ghost use Rattle.std.specs.Prelude.{◌≡◌, ◌∷◌, ◌*◌, ◌<◌, length, IfOk};
ghost use Rattle.maid_model.specs.Nodes.{IsDecision};
ghost use Rattle.maid_model.specs.Profiles.{IsProfile};
ghost use Rattle.maid_model.specs.Scopes.{KeepsScopedBounds, goals_of};
ghost use Rattle.part_laws.specs.ScopeLaws.{HasSmallRules};
ghost use Rattle.tree_checker.specs.Judged.{HoldsScopeSums, HoldsSums, HasFirstCells, HasMassEachRow};
ghost use Rattle.diagram_graph.specs.Room.{cells_at};
ghost use Rattle.tree_checker.specs.Walks.{HasRoomWithout};

use crate::parts::{place_of, ruled_part};
use crate::walks::cells_over;
use maid_model::{Diagram, Profile, descent_is_tested, goals_of};
use part_laws::{parts_are_diagrams, scoped_sums_fit, scopes_are_parts};
use std::alloc::{AllocError, Global};

/// What the states of a decision gain in each row, and how much mass each row has.
#[derive(Drop)]
pub(crate) struct RowSums {
    /// A gain for each row and state, the first parent slowest and the decision's own state
    /// fastest.
    pub gains: Vec<i128>,
    /// A mass for each row.
    pub masses: Vec<u128>,
}

/// The decision, and then its goals in text order.
fn ends_of(alloc: Global, diagram: &Diagram, decision: usize) -> Result<Vec<usize>, AllocError>
    requires { IsDecision diagram.now.nodes decision }
    ensures { IfOk result (λ ends. ends.items ≡ decision ∷ goals_of diagram.now.nodes decision) }
{
    // The test of descent says where a path leads.
    descent_is_tested();
    let goals = goals_of(diagram, decision);
    let mut ends = Vec::new(alloc);
    ends.push(decision)?;
    for v in 0..diagram.count() {
        if goals.holds(v) {
            ends.push(v)?;
        }
    }
    Ok(ends)
}

/// The masses of the rows: of the cells, one for each row and state, those at the first state.
fn row_masses(
    alloc: Global,
    diagram: &Diagram,
    decision: usize,
    cells: &[u128],
) -> Result<Vec<u128>, AllocError>
    requires decision { decision < length diagram.now.nodes }
    requires cells { length cells.now
        ≡ cells_at diagram.now.nodes decision }
    ensures count { IfOk result (HasMassEachRow diagram.now.nodes decision) }
    ensures masses { IfOk result (HasFirstCells diagram.now.nodes decision cells.now) }
{
    let states = diagram.states(decision);
    let mut masses = Vec::new(alloc);
    for row in 0..diagram.rows(decision) {
        masses.push(cells[row * states])?;
    }
    Ok(masses)
}

/// The gains and masses of the decision against the profile, over all worlds of the diagram, by one
/// walk.
fn sums_over(
    alloc: Global,
    diagram: &Diagram,
    profile: &Profile,
    decision: usize,
) -> Result<RowSums, AllocError>
    requires decision { IsDecision diagram.now.nodes decision }
    requires profile { IsProfile diagram.now.nodes profile.now }
    requires fits { HasRoomWithout diagram.now profile.now decision }
    ensures { IfOk result (HoldsSums diagram.now profile.now decision) }
{
    let _count = diagram.count();
    let goals = goals_of(diagram, decision);
    let sums = cells_over(alloc, diagram, profile, &goals, decision)?;
    let masses = row_masses(alloc, diagram, decision, &sums.masses)?;
    Ok(RowSums {
        gains: sums.gains,
        masses,
    })
}

/// The gains and masses of the decision against the base, over the worlds of the part that the
/// decision's scope makes.
pub(crate) fn scope_sums(
    alloc: Global,
    diagram: &Diagram,
    base: &Profile,
    decision: usize,
) -> Result<RowSums, AllocError>
    requires decision { IsDecision diagram.now.nodes decision }
    requires base { IsProfile diagram.now.nodes base.now }
    requires rules { HasSmallRules diagram.now.nodes base.now decision }
    requires bound { KeepsScopedBounds diagram.now }
    ensures { IfOk result (HoldsScopeSums diagram.now base.now decision) }
{
    // The part is a diagram with the decision in it, and its sums have room.
    parts_are_diagrams();
    scopes_are_parts();
    scoped_sums_fit();
    let _count = diagram.count();
    let ends = ends_of(alloc, diagram, decision)?;
    let ruled = ruled_part(alloc, diagram, base, &ends)?;
    let place = place_of(&ruled.part.nodes, decision);
    sums_over(alloc, &ruled.part.diagram, &ruled.rules, place)
}
