//! The cells of small tables, over each kind of cell.

ghost use Rattle.std.specs.Prelude.{◌≡◌, ◌+◌, ◌*◌, ◌<◌, ◌≤◌, ℕ, All, IfOk, length, true, []};
ghost use Rattle.node_sets.specs.Sets.{IsIn};
ghost use Rattle.factor_core.specs.Scopes.{united};
ghost use Rattle.sum_tests.specs.Trials.{coins_diagram, IsSmallSlot, GrowsByFour, AllStaySmall};

use cell_rings::{Both, Can, Cell, Gain, Mass};
use factor_core::{Slot, Strip, Workspace};
use maid_model::{Diagram, Profile};
use sample_diagrams::{chance, sample_diagram};
use std::alloc::{AllocError, Global};
use std::process::Abort;
use std::test::Fail;

/// Two coins, of weights 2 and 3 and of weights 5 and 7.
fn coins(alloc: Global) -> Result<Diagram, AllocError>
    ensures { IfOk result (λ d. d ≡ coins_diagram) }
{
    let nodes = [chance(2, &[], &[2, 3]), chance(2, &[], &[5, 7])];
    sample_diagram(alloc, &nodes, 1, 0)
}

fn first<C: Cell>(
    work: &mut Workspace<C>,
    diagram: &Diagram,
    profile: &Profile,
    node: usize,
) -> Slot
    requires diagram { diagram.now ≡ coins_diagram }
    requires profile { profile.now ≡ [] }
    requires node { node < 2 }
    requires most { 16777216 ≤ C.ring.most }
    requires room { 4 ≤ work.old.spare }
    ensures grows { GrowsByFour C.ring work.old work.new result 49 }
    ensures own { IsIn result.scope node }
{
    work.table(diagram, profile, node)
}

fn multiply<C: Cell>(work: &mut Workspace<C>, diagram: &Diagram, slots: &[Slot]) -> Slot
    requires diagram { diagram.now ≡ coins_diagram }
    requires two { length slots.now ≤ 2 }
    requires small { All (λ s. IsSmallSlot C.ring work.old.cells s 49) slots.now }
    requires most { 16777216 ≤ C.ring.most }
    requires room { 4 ≤ work.old.spare }
    ensures grows { GrowsByFour C.ring work.old work.new result 2401 }
    ensures own { (v : ℕ) → united slots.now v ≡ true → IsIn result.scope v }
{
    work.product(diagram, slots)
}

fn add_up<C: Cell>(work: &mut Workspace<C>, diagram: &Diagram, slots: &[Slot], node: usize) -> Slot
    requires diagram { diagram.now ≡ coins_diagram }
    requires two { length slots.now ≤ 2 }
    requires some { 0 < length slots.now }
    requires small { All (λ s. IsSmallSlot C.ring work.old.cells s 2401) slots.now }
    requires hold { All (λ s. IsIn s.scope node) slots.now }
    requires node { node < 2 }
    requires most { 16777216 ≤ C.ring.most }
    requires room { 4 ≤ work.old.spare }
    ensures { GrowsByFour C.ring work.old work.new result 11529602 }
{
    work.join_out(diagram, slots, node)
}

fn sum_one<C: Cell>(work: &mut Workspace<C>, diagram: &Diagram, slot: &Slot, node: usize) -> Slot
    requires diagram { diagram.now ≡ coins_diagram }
    requires small { IsSmallSlot C.ring work.old.cells slot.now 2401 }
    requires hold { IsIn slot.now.scope node }
    requires node { node < 2 }
    requires most { 16777216 ≤ C.ring.most }
    requires room { 4 ≤ work.old.spare }
    ensures { GrowsByFour C.ring work.old work.new result 11529602 }
{
    work.sum_out(diagram, slot, node)
}

fn keep_state<C: Cell>(
    work: &mut Workspace<C>,
    diagram: &Diagram,
    slot: &Slot,
    node: usize,
    state: usize,
) -> Slot
    requires diagram { diagram.now ≡ coins_diagram }
    requires small { IsSmallSlot C.ring work.old.cells slot.now 2401 }
    requires hold { IsIn slot.now.scope node }
    requires node { node < 2 }
    requires state { state < 2 }
    requires room { 4 ≤ work.old.spare }
    ensures { GrowsByFour C.ring work.old work.new result 2401 }
{
    work.restrict(diagram, slot, node, state)
}

/// The slot's cells with the second coin slowest.
fn turn<C: Cell>(work: &mut Workspace<C>, diagram: &Diagram, slot: &Slot) -> Slot
    requires diagram { diagram.now ≡ coins_diagram }
    requires small { IsSmallSlot C.ring work.old.cells slot.now 2401 }
    requires first { IsIn slot.now.scope 0 }
    requires second { IsIn slot.now.scope 1 }
    requires room { 4 ≤ work.old.spare }
    ensures within { result.start + result.len ≤ length work.new.cells }
    ensures spare { work.old.spare ≤ work.new.spare + 4 }
    ensures stays { AllStaySmall C.ring work.old work.new }
{
    let strip = work.reorder(diagram, slot, &[1, 0]);
    Slot {
        start: strip.start,
        len: strip.len,
        scope: slot.scope,
    }
}

/// The slot's cell at the second state of the first coin and the first of the second.
fn look<C: Cell>(work: &Workspace<C>, diagram: &Diagram, slot: &Slot) -> C
    requires diagram { diagram.now ≡ coins_diagram }
    requires small { IsSmallSlot C.ring work.now.cells slot.now 2401 }
    requires first { IsIn slot.now.scope 0 }
    requires second { IsIn slot.now.scope 1 }
{
    work.at(diagram, slot, &[1, 0])
}

/// Compares the slot's cells with those of these weights.
fn compare<C: Cell + PartialEq>(rt: &impl Abort, work: &Workspace<C>, slot: &Slot, weights: &[u128])
    requires within { slot.now.start + slot.now.len ≤ length work.now.cells }
    requires fits { All (λ x. 2 * x ≤ C.ring.most) weights.now }
{
    let cells = work.strip(&Strip {
        start: slot.start,
        len: slot.len,
    });
    assert!(rt; cells.len() == weights.len());
    for i in 0..weights.len() {
        let same = cells[i] == C::weight(weights[i]);
        assert!(rt; same);
    }
}

/// Products and sums of the coins' tables.
fn rows<C: Cell + PartialEq>(
    rt: &impl Abort,
    alloc: Global,
    diagram: &Diagram,
    profile: &Profile,
) -> Result<(), AllocError>
    requires diagram { diagram.now ≡ coins_diagram }
    requires profile { profile.now ≡ [] }
    requires most { 16777216 ≤ C.ring.most }
{
    let mut work = Workspace::<C>::reserve(alloc, 64)?;
    let left = first(&mut work, diagram, profile, 0);
    let right = first(&mut work, diagram, profile, 1);
    let both = multiply(&mut work, diagram, &[left, right]);
    compare(rt, &work, &both, &[10, 14, 15, 21]);
    let summed = add_up(&mut work, diagram, &[both], 0);
    compare(rt, &work, &summed, &[25, 35]);
    let joined = add_up(&mut work, diagram, &[left, both], 0);
    compare(rt, &work, &joined, &[65, 91]);
    let summed = sum_one(&mut work, diagram, &both, 0);
    compare(rt, &work, &summed, &[25, 35]);
    let kept = keep_state(&mut work, diagram, &both, 0, 1);
    compare(rt, &work, &kept, &[15, 21]);
    let turned = turn(&mut work, diagram, &both);
    compare(rt, &work, &turned, &[10, 15, 14, 21]);
    let same = look(&work, diagram, &both) == C::weight(15);
    assert!(rt; same);
    let none = multiply(&mut work, diagram, &[]);
    compare(rt, &work, &none, &[1]);
    Ok(())
}

#[test]
fn gives_rows(rt: HostRuntime) -> Result<(), Fail> {
    let alloc = rt.alloc();
    let diagram = coins(alloc)?;
    let profile = Profile::from_rules(Vec::new(alloc));
    rows::<Mass>(&rt, alloc, &diagram, &profile)?;
    rows::<Gain>(&rt, alloc, &diagram, &profile)?;
    rows::<Can>(&rt, alloc, &diagram, &profile)?;
    rows::<Both>(&rt, alloc, &diagram, &profile)?;
    Ok(())
}
