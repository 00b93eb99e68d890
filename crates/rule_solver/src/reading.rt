//! The last table of a plan, read into a decision's gains and masses.

ghost use Rattle.std.specs.Prelude.{◌≡◌, ◌↔◌, ◌<◌, ◌≤◌, ◌*◌, [], ◌∷◌, ◌++◌, IfOk, IsTrue, OnErr, OnOk, length, nat_abs, slice_set};
ghost use Rattle.factor_core.specs.Slots.{nodes_in};
ghost use Rattle.maid_model.specs.Diagrams.{greatest_number};
ghost use Rattle.maid_model.specs.Nodes.{IsDecision, rows_of};
ghost use Rattle.node_sets.specs.Sets.{holds};
ghost use Rattle.rule_solver.specs.Reading.{AddsEach, AddsSlot, FitEach, FitsSlot, HasGainForEach, HasLiveSlot, HasRoomAtPlace, HasRoomForEach, HasRoomForSlot, IsOverRows, IsOverStates, PutsSlot, added_at, last_cells, number_in_cell, PutsCells};

use crate::numbers::{HasNumber, Number};
use crate::odometer::next_over;
use cell_rings::Cell;
use factor_core::{Slot, Strip, Workspace};
use maid_model::{Diagram, World};
use node_sets::NodeSet;
use std::alloc::{AllocError, Global};

/// The last table of a plan, over a decision's parents and perhaps itself, and by how much its
/// numbers are to be multiplied.
#[derive(Drop)]
pub(crate) struct LastTable<'a, C> {
    pub diagram: &'a Diagram,
    pub decision: usize,
    /// Where its cells stand.
    pub work: &'a Workspace<C>,
    pub slot: &'a Slot,
    pub factor: u128,
}

impl<'a, C: Cell> LastTable<'a, C> {
    /// The cells, as they stand in the workspace.
    fn cells(&self) -> &[C]
        requires { HasLiveSlot self.now }
        ensures { result.now ≡ last_cells self.now }
    {
        self.work.strip(&Strip {
            start: self.slot.start,
            len: self.slot.len,
        })
    }
}

/// The nodes of the scope in ascending order.
pub(crate) fn list_scope(
    alloc: Global,
    diagram: &Diagram,
    scope: &NodeSet,
) -> Result<Vec<usize>, AllocError>
    ensures { IfOk result (λ v. v.items ≡ nodes_in diagram.now.nodes (holds scope.now)) }
{
    let count = diagram.count();
    let mut nodes = Vec::new(alloc);
    let mut from = 0;
    'listing: while let Some(v) = scope.first_between(from, count) {
        nodes.push(v)?;
        from = v + 1;
    }
    Ok(nodes)
}

/// Adds the number times the factor to the gain at that place.
fn add_number(gains: &mut [i128], at: usize, number: i128, factor: u128)
    requires at { at < length gains.old }
    requires factor { factor ≤ greatest_number }
    requires room { HasRoomAtPlace gains.old at number factor }
    ensures { gains.new ≡ slice_set gains.old at (added_at gains.old at number factor) }
{
    gains[at] += number * factor as i128;
}

/// Whether the lists are the same.
fn is_same(one: &[usize], other: &[usize]) -> bool
    ensures { IsTrue result ↔ (one.now ≡ other.now) }
{
    one == other
}

/// Whether the list is the parents and then the decision.
fn is_own_order(list: &[usize], parents: &[usize], decision: usize) -> bool
    ensures { IsTrue result ↔ (list.now ≡ parents.now ++ decision ∷ []) }
{
    match list.split_last() {
        Some((last, front)) => *last == decision && is_same(front, parents),
        None => false,
    }
}

/// Adds each cell, times the factor, to the gain at its place.
fn add_cells<C: HasNumber>(cells: &[C], factor: u128, gains: &mut [i128])
    requires len { length cells.now ≡ length gains.old }
    requires factor { factor ≤ greatest_number }
    requires room { HasRoomForEach (number_in_cell C.number C.ring cells.now) factor gains.old }
    ensures len { length gains.new ≡ length gains.old }
    ensures each { AddsEach (number_in_cell C.number C.ring cells.now) factor gains.old gains.new }
{
    for (at, cell) in cells.iter().enumerate() {
        add_number(gains, at, cell.number(), factor);
    }
}

/// What `add_gains` does, by the place of the gain that each cell's states pick.
///
/// # Errors
///
/// Where memory ran out the gains are as they were.
fn add_by_worlds<C: HasNumber>(
    alloc: Global,
    table: &LastTable<C>,
    gains: &mut [i128],
) -> Result<(), AllocError>
    requires decision { IsDecision table.now.diagram.now.nodes table.now.decision }
    requires live { HasLiveSlot table.now }
    requires scope { IsOverStates table.now }
    requires gains { HasGainForEach table.now.diagram.now.nodes table.now.decision gains.old }
    requires factor { table.now.factor ≤ greatest_number }
    requires room { HasRoomForSlot C.number C.ring table.now gains.old }
    ensures adds { OnOk result (AddsSlot C.number C.ring table.now gains.old gains.new) }
    ensures stays { OnErr result (gains.new ≡ gains.old) }
    ensures len { length gains.new ≡ length gains.old }
{
    let scope = list_scope(alloc, table.diagram, &table.slot.scope)?;
    let mut world = World::first(alloc, table.diagram)?;
    for cell in table.cells() {
        let at = world.cell(table.diagram, table.decision);
        add_number(gains, at, cell.number(), table.factor);
        next_over(&mut world, table.diagram, scope.as_slice());
    }
    Ok(())
}

/// Adds the cells of a table over the decision and its parents, times the factor, to the decision's
/// gains: one for each row and state, the state fastest. It goes over the cells once, in the order
/// in which they stand, which is mostly that of the gains.
///
/// # Errors
///
/// Where memory ran out the gains are as they were.
pub(crate) fn add_gains<C: HasNumber>(
    alloc: Global,
    table: &LastTable<C>,
    gains: &mut [i128],
) -> Result<(), AllocError>
    requires decision { IsDecision table.now.diagram.now.nodes table.now.decision }
    requires live { HasLiveSlot table.now }
    requires scope { IsOverStates table.now }
    requires gains { HasGainForEach table.now.diagram.now.nodes table.now.decision gains.old }
    requires factor { table.now.factor ≤ greatest_number }
    requires room { HasRoomForSlot C.number C.ring table.now gains.old }
    ensures adds { OnOk result (AddsSlot C.number C.ring table.now gains.old gains.new) }
    ensures stays { OnErr result (gains.new ≡ gains.old) }
    ensures len { length gains.new ≡ length gains.old }
{
    let scope = list_scope(alloc, table.diagram, &table.slot.scope)?;
    if is_own_order(
        scope.as_slice(),
        table.diagram.parents(table.decision),
        table.decision,
    ) {
        add_cells(table.cells(), table.factor, gains);
        return Ok(());
    }
    add_by_worlds(alloc, table, gains)
}

/// The mass that a number from 0 on makes: the number times the factor.
fn mass_of(number: i128, factor: u128) -> u128
    requires { nat_abs number * factor ≤ greatest_number }
    ensures { result ≡ nat_abs number * factor }
{
    number.unsigned_abs() * factor
}

/// Writes each cell, times the factor, as the mass at its place.
fn put_cells<C: Number>(cells: &[C], factor: u128, masses: &mut [u128])
    requires len { length cells.now ≡ length masses.old }
    requires room { FitEach (number_in_cell C.number C.ring cells.now) factor (length masses.old) }
    ensures len { length masses.new ≡ length masses.old }
    ensures each { PutsCells C.number C.ring cells.now factor masses.old masses.new }
{
    for (at, cell) in cells.iter().enumerate() {
        let mass = mass_of(cell.number(), factor);
        masses[at] = mass;
    }
}

/// What `put_masses` does, by the row that each cell's states pick.
///
/// # Errors
///
/// Where memory ran out the masses are as they were.
fn put_by_worlds<C: Number>(
    alloc: Global,
    table: &LastTable<C>,
    masses: &mut [u128],
) -> Result<(), AllocError>
    requires decision { IsDecision table.now.diagram.now.nodes table.now.decision }
    requires live { HasLiveSlot table.now }
    requires scope { IsOverRows table.now }
    requires masses { length masses.old ≡ rows_of table.now.diagram.now.nodes table.now.decision }
    requires room { FitsSlot C.number C.ring table.now }
    ensures puts { OnOk result (PutsSlot C.number C.ring table.now masses.new) }
    ensures stays { OnErr result (masses.new ≡ masses.old) }
    ensures len { length masses.new ≡ length masses.old }
{
    let scope = list_scope(alloc, table.diagram, &table.slot.scope)?;
    let mut world = World::first(alloc, table.diagram)?;
    for cell in table.cells() {
        let mass = mass_of(cell.number(), table.factor);
        masses[world.row(table.diagram, table.decision)] = mass;
        next_over(&mut world, table.diagram, scope.as_slice());
    }
    Ok(())
}

/// Writes the cells of a table over the decision's parents, none of them below 0, times the factor,
/// as the decision's masses, one for each row. It goes over the cells once, in the order in which
/// they stand, which is mostly that of the rows.
///
/// # Errors
///
/// Where memory ran out the masses are as they were.
pub(crate) fn put_masses<C: Number>(
    alloc: Global,
    table: &LastTable<C>,
    masses: &mut [u128],
) -> Result<(), AllocError>
    requires decision { IsDecision table.now.diagram.now.nodes table.now.decision }
    requires live { HasLiveSlot table.now }
    requires scope { IsOverRows table.now }
    requires masses { length masses.old ≡ rows_of table.now.diagram.now.nodes table.now.decision }
    requires room { FitsSlot C.number C.ring table.now }
    ensures puts { OnOk result (PutsSlot C.number C.ring table.now masses.new) }
    ensures stays { OnErr result (masses.new ≡ masses.old) }
    ensures len { length masses.new ≡ length masses.old }
{
    let scope = list_scope(alloc, table.diagram, &table.slot.scope)?;
    if is_same(scope.as_slice(), table.diagram.parents(table.decision)) {
        put_cells(table.cells(), table.factor, masses);
        return Ok(());
    }
    put_by_worlds(alloc, table, masses)
}
