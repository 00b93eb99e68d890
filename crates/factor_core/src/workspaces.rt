//! Workspaces: tables one behind another in one vector of cells.

ghost use Rattle.std.specs.Prelude.{vec_capacity, ◌≡◌, ◌≤◌, ◌<◌, ◌+◌, ◌^◌, ℕ, All, length, IfOk, [], ◌∷◌, ◌↔◌, Contains};
ghost use Rattle.maid_model.specs.declared.limits.TheConstants.{MOST_PLAN_CELLS};
ghost use Rattle.node_sets.specs.Sets.{IsIn};
ghost use Rattle.maid_model.specs.Graph.{AllDifferent};
ghost use Rattle.maid_model.specs.Nodes.{states_of};
ghost use Rattle.maid_model.specs.Profiles.{IsProfile};
ghost use Rattle.factor_core.specs.Operations.{NumbersFit};
ghost use Rattle.factor_core.specs.Slots.{part, IsLiveSlot, Appends, AreStatesOf, IsCellAt, AllStayLive, AppendsFirst, AppendsJoin, AppendsProduct, AppendsState, HasCellsOf, HasSpareForFirst, HasSpareForJoin, HasSpareForProduct, HasSpareForState, JoinOfFits, ProductOfFits, SumOfFits, WorkspaceView, AppendsSumOf};
ghost use Rattle.factor_core.specs.Spaces.{IsBlankedTo, IsSlotAt};
ghost use Rattle.factor_core.specs.Tables.{AreCounts, size_of};

use crate::appending::{join_behind, product_behind};
use crate::firsts::{first_size, table_behind};
use crate::reading::read_cell;
use crate::reorders::{reorder_behind, restrict_behind, without};
use crate::sizes::table_size;
use crate::slots::{Slot, Strip, joined_scope, united_scope};
use cell_rings::Cell;
use maid_model::{Diagram, Profile};
use node_sets::NodeSet;
use std::alloc::{AllocError, Global};
use std::marker::Model;

/// Tables one behind another in one vector of cells, for which all memory is taken when it is made.
/// A cell is written once a table needs it, so that a workspace touches no more of its memory than
/// its tables take.
#[derive(Drop)]
pub struct Workspace<C> {
    cells: Vec<C>,
    used: usize,
    room: usize,
}

impl<C> Model for Workspace<C> {
    ghost use Rattle.std.specs.Prelude.{◌≤◌, ◌-◌, take, vec_capacity, vec_len};
    ghost use Rattle.maid_model.specs.declared.limits.TheConstants.{MOST_PLAN_CELLS};
    ghost use Rattle.factor_core.specs.Slots.{WorkspaceView};

    ghost Value = { WorkspaceView C };

    ghost view = { λ w. record { cells = take w.used w.cells.items; spare = w.room - w.used } };

    ghost invariant = { λ w. (w.used ≤ vec_len w.cells) × (vec_len w.cells ≤ w.room)
        × (w.room ≤ MOST_PLAN_CELLS) × (w.room ≤ vec_capacity w.cells) };
}

/// Writes cells up to that place, where they have not been written yet. The memory is there.
fn blank<C: Cell>(cells: &mut Vec<C>, end: usize)
    requires { end ≤ vec_capacity cells.old }
    ensures { IsBlankedTo end cells.old cells.new }
{
    if cells.len() < end {
        cells.resize(end, C::zero()).unwrap();
    }
}

/// A slot over the scope, behind the used cells. Cells are written to its end.
fn lay_out<C: Cell>(cells: &mut Vec<C>, used: usize, counts: &[usize], scope: NodeSet) -> Slot
    requires counts { AreCounts counts.now }
    requires fits { size_of counts.now scope ≤ 2 ^ 32 }
    requires room { used + size_of counts.now scope ≤ vec_capacity cells.old }
    ensures slot { IsSlotAt counts.now scope used result }
    ensures blank { IsBlankedTo (used + result.len) cells.old cells.new }
{
    let len = table_size(counts, &scope);
    blank(cells, used + len);
    Slot {
        start: used,
        len,
        scope,
    }
}

impl<C: Cell> Workspace<C> {
    /// A workspace without a table, with room for so many cells. It takes all of its memory.
    pub fn reserve(alloc: Global, cells: usize) -> Result<Workspace<C>, AllocError>
        requires { cells ≤ MOST_PLAN_CELLS }
        ensures { IfOk result (λ w. w ≡ record { cells = []; spare = cells }) }
    {
        Ok(Workspace {
            cells: Vec::with_capacity(alloc, cells)?,
            used: 0,
            room: cells,
        })
    }

    /// Ends all tables.
    pub fn clear(&mut self)
        ensures { self.new ≡ record { cells = []; spare = self.old.spare + length self.old.cells } }
    {
        self.used = 0;
    }

    /// The first table of a node: a chance node's cells and the weights of a decision's rule by
    /// `Cell::weight`, over the node and its parents, and a utility's cells by `Cell::value`, over
    /// its parents.
    pub fn table(&mut self, diagram: &Diagram, profile: &Profile, node: usize) -> Slot
        requires profile { IsProfile diagram.now.nodes profile.now }
        requires node { node < length diagram.now.nodes }
        requires fit { NumbersFit C.ring.most diagram.now.nodes profile.now node }
        requires room { HasSpareForFirst C.Cell diagram.now.nodes profile.now node self.old }
        ensures { AppendsFirst C.Cell diagram.now.nodes profile.now node self.old self.new result }
    {
        let counts = diagram.state_counts();
        blank(
            &mut self.cells,
            self.used + first_size(diagram, profile, node),
        );
        let slot = table_behind(
            diagram,
            counts,
            profile,
            node,
            self.cells.as_mut_slice(),
            self.used,
        );
        self.used += slot.len;
        slot
    }

    /// The join of the slots with the node summed out of it: over their nodes but this one, and in
    /// each world the sum over the node's states of the product of the slots' cells. The joined
    /// table is never stored. It goes over each of its cells once.
    pub fn join_out(&mut self, diagram: &Diagram, slots: &[Slot], node: usize) -> Slot
        requires few { length slots.now ≤ 256 }
        requires some { 0 < length slots.now }
        requires live { All (IsLiveSlot diagram.now.nodes self.old.cells) slots.now }
        requires hold { All (λ s. IsIn s.scope node) slots.now }
        requires fits { JoinOfFits C.ring diagram.now.nodes node slots.now self.old }
        requires room { HasSpareForJoin C.ring diagram.now.nodes node slots.now self.old }
        ensures { AppendsJoin C.ring diagram.now.nodes node slots.now self.old self.new result }
    {
        let counts = diagram.state_counts();
        let scope = joined_scope(slots, node);
        let slot = lay_out(&mut self.cells, self.used, counts, scope);
        join_behind(
            diagram,
            counts,
            slots,
            node,
            &slot,
            self.cells.as_mut_slice(),
        );
        self.used += slot.len;
        slot
    }

    /// The product of the slots: over their nodes, and in each world the product of their cells.
    /// Without a slot it has the one cell `one`.
    pub fn product(&mut self, diagram: &Diagram, slots: &[Slot]) -> Slot
        requires few { length slots.now ≤ 256 }
        requires live { All (IsLiveSlot diagram.now.nodes self.old.cells) slots.now }
        requires fits { ProductOfFits C.ring diagram.now.nodes slots.now self.old }
        requires room { HasSpareForProduct C.ring diagram.now.nodes slots.now self.old }
        ensures { AppendsProduct C.ring diagram.now.nodes slots.now self.old self.new result }
    {
        let counts = diagram.state_counts();
        let slot = lay_out(&mut self.cells, self.used, counts, united_scope(slots));
        product_behind(diagram, counts, slots, &slot, self.cells.as_mut_slice());
        self.used += slot.len;
        slot
    }

    /// The slot with the node summed out of it: over its other nodes, and in each world the sum of
    /// its cells over the node's states.
    pub fn sum_out(&mut self, diagram: &Diagram, slot: &Slot, node: usize) -> Slot
        requires live { IsLiveSlot diagram.now.nodes self.old.cells slot.now }
        requires hold { IsIn slot.now.scope node }
        requires fits { SumOfFits C.ring diagram.now.nodes node slot.now self.old }
        requires room { HasSpareForJoin C.ring diagram.now.nodes node (slot.now ∷ []) self.old }
        ensures { AppendsSumOf C.ring diagram.now.nodes node slot.now self.old self.new result }
    {
        self.join_out(diagram, &[*slot], node)
    }

    /// The slot's cells at one state of the node, over its other nodes. It copies them.
    pub fn restrict(&mut self, diagram: &Diagram, slot: &Slot, node: usize, state: usize) -> Slot
        requires live { IsLiveSlot diagram.now.nodes self.old.cells slot.now }
        requires hold { IsIn slot.now.scope node }
        requires state { state < states_of diagram.now.nodes node }
        requires room { HasSpareForState C.ring diagram.now node state slot.now self.old }
        ensures { AppendsState C.ring diagram.now node state slot.now self.old self.new result }
    {
        let counts = diagram.state_counts();
        let rest = lay_out(
            &mut self.cells,
            self.used,
            counts,
            without(&slot.scope, node),
        );
        restrict_behind(diagram, slot, node, state, &rest, self.cells.as_mut_slice());
        self.used += rest.len;
        rest
    }

    /// The slot's cells in another order: the first of these nodes, which are the slot's, slowest.
    /// It copies them.
    pub fn reorder(&mut self, diagram: &Diagram, slot: &Slot, nodes: &[usize]) -> Strip
        requires live { IsLiveSlot diagram.now.nodes self.old.cells slot.now }
        requires once { AllDifferent nodes.now }
        requires scope { (v : ℕ) → Contains nodes.now v ↔ IsIn slot.now.scope v }
        requires room { slot.now.len ≤ self.old.spare }
        ensures len { result.len ≡ slot.now.len }
        ensures appends { Appends self.old self.new result.start result.len }
        ensures cells { HasCellsOf C.ring diagram.now nodes.now slot.now self.old self.new result }
        ensures stays { AllStayLive C.ring diagram.now.nodes self.old.cells self.new.cells }
    {
        blank(&mut self.cells, self.used + slot.len);
        let strip = reorder_behind(diagram, slot, nodes, self.cells.as_mut_slice(), self.used);
        self.used += strip.len;
        strip
    }

    /// The slot's cell at these states of its nodes, the lowest node first.
    pub fn at(&self, diagram: &Diagram, slot: &Slot, states: &[usize]) -> C
        requires live { IsLiveSlot diagram.now.nodes self.now.cells slot.now }
        requires states { AreStatesOf diagram.now.nodes slot.now states.now }
        ensures { IsCellAt C.ring diagram.now.nodes self.now.cells slot.now states.now result }
    {
        read_cell(diagram, slot, states, self.cells.as_slice(), self.used)
    }

    /// The cells of the strip.
    pub fn strip(&self, strip: &Strip) -> &[C]
        requires { strip.now.start + strip.now.len ≤ length self.now.cells }
        ensures { result.now ≡ part self.now.cells strip.now.start strip.now.len }
    {
        &self.cells[strip.start..strip.start + strip.len]
    }
}
