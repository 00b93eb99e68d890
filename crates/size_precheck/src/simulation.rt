//! The steps of a plan, simulated on the scopes of its tables.

ghost use Rattle.std.specs.Prelude.{◌≡◌, ◌↔◌, ℕ, ◌<◌, ◌≤◌, ◌+◌, length, IfOk, OnOk};
ghost use Rattle.maid_model.specs.declared.limits.TheConstants.{COUNT_END};
ghost use Rattle.node_sets.specs.declared.sets.TheConstants.{MOST_NODES};
ghost use Rattle.node_sets.specs.Sets.{IsIn};
ghost use Rattle.size_precheck.specs.Classes.{StayIn, StayWithAll};
ghost use Rattle.size_precheck.specs.Joints.{AllStayCounted, ArePutIn, HasPlace, HasPlaces, IsCounted, IsListOf, IsPut, IsRunFrom, IsStartOfSome, KeepsOthers, KeepsPlaces, MakesStep};

use crate::classes::{Class, find_next, list_classes, move_node, take_node};
use crate::counts::{add, count_cells, count_less, count_members, count_put, multiply};
use crate::joints::{Counted, Known, Table, counted_of};
use node_sets::NodeSet;
use std::alloc::{AllocError, Global};

/// What is known before the first step.
#[derive(Drop)]
pub struct Start {
    /// Of each node that waits, where the first tables are live.
    pub known: Known,
    /// How many tables are live.
    pub live: usize,
    /// The cells of all first tables.
    pub cells: u64,
}

/// What a step makes.
#[derive(Clone, Copy)]
pub struct Made {
    /// The cells of the table that it makes.
    pub cells: u64,
    /// The cells of the joined set times the number of tables joined.
    pub work: u64,
    /// How many tables are joined.
    pub tables: usize,
}

/// What is known after the last step.
#[derive(Drop)]
pub struct Run {
    /// The nodes in the order in which they were eliminated.
    pub steps: Vec<usize>,
    /// How many tables are live.
    pub live: usize,
    /// The cells of all first tables and of those that the steps made.
    pub cells: u64,
    /// The work of the steps.
    pub work: u64,
    /// The lists of what was known, which are left to a next plan.
    pub left: Known,
}

/// The members of the set, in text order.
pub fn list_members(alloc: Global, set: &NodeSet) -> Result<Vec<usize>, AllocError>
    ensures { IfOk result (λ list. IsListOf set.now list.items) }
{
    let mut list = Vec::with_capacity(alloc, count_members(set))?;
    let mut from = 0;
    'members: while let Some(v) = set.first_from(from) {
        list.push(v)?;
        from = v + 1;
    }
    Ok(list)
}

/// Puts a first table to what is known of a node, and counts the cells of the joined set.
fn put_first_at(states: &[u64], held: &mut Counted, table: &Table, none: &NodeSet)
    requires states { length states.now ≡ MOST_NODES }
    requires tag { table.now.tag < MOST_NODES }
    ensures put { IsPut table.now (IsIn none.now) (IsIn none.now) held.old.joint held.new.joint }
    ensures counted { IsCounted states.now held.new.joint held.new.cells }
{
    held.joint.put(table, none, none);
    held.cells = count_cells(states, &held.joint.set);
}

/// Puts the table to what is known of a node, after the tables `gone` and the node of its tag,
/// which `out` has, have left, and counts the cells of the joined set anew.
fn put_at(states: &[u64], held: &mut Counted, table: &Table, gone: &NodeSet, out: &NodeSet)
    requires states { length states.now ≡ MOST_NODES }
    requires tag { table.now.tag < MOST_NODES }
    requires out { (x : ℕ) → IsIn out.now x ↔ (x ≡ table.now.tag) }
    ensures put { IsPut table.now (IsIn gone.now) (IsIn out.now) held.old.joint held.new.joint }
    ensures counted { IsCounted states.now held.old.joint held.old.cells
        → IsCounted states.now held.new.joint held.new.cells }
{
    held.cells = count_put(
        states,
        &held.joint.set,
        &table.scope,
        out,
        table.tag,
        held.cells,
    );
    held.joint.put(table, gone, out);
}

/// Puts a first table to each of these nodes.
pub fn put_first(states: &[u64], known: &mut Known, at: &NodeSet, table: &Table, none: &NodeSet)
    requires states { length states.now ≡ MOST_NODES }
    requires tag { table.now.tag < MOST_NODES }
    requires places { HasPlaces (IsIn at.now) known.old }
    ensures places { KeepsPlaces known.old known.new }
    ensures put { ArePutIn at.now table.now none.now none.now known.old known.new }
    ensures counted { AllStayCounted states.now at.now known.old known.new }
    ensures same { KeepsOthers (IsIn at.now) known.old known.new }
{
    let mut from = 0;
    'nodes: while let Some(y) = at.first_from(from) {
        let place = known.places[y] as usize;
        put_first_at(states, &mut known.held[place], table, none);
        from = y + 1;
    }
}

/// Puts the table that v's step makes to each of these nodes, after the tables `gone` and the nodes
/// `out` have left, and moves those of other cells than before to the classes of these.
fn put_made(
    states: &[u64],
    known: &mut Known,
    classes: &mut Vec<Class>,
    at: &NodeSet,
    table: &Table,
    gone: &NodeSet,
    out: &NodeSet,
) -> Result<(), AllocError>
    requires states { length states.now ≡ MOST_NODES }
    requires tag { table.now.tag < MOST_NODES }
    requires out { (x : ℕ) → IsIn out.now x ↔ (x ≡ table.now.tag) }
    requires places { HasPlaces (IsIn at.now) known.old }
    ensures places { KeepsPlaces known.old known.new }
    ensures put { OnOk result (ArePutIn at.now table.now gone.now out.now known.old known.new) }
    ensures counted { OnOk result (AllStayCounted states.now at.now known.old known.new) }
    ensures same { KeepsOthers (IsIn at.now) known.old known.new }
    ensures classes { OnOk result (StayWithAll at.now known.old classes.old known.new classes.new) }
{
    let mut from = 0;
    'nodes: while let Some(y) = at.first_from(from) {
        let place = known.places[y] as usize;
        let held = &mut known.held[place];
        let before = held.cells;
        put_at(states, held, table, gone, out);
        move_node(classes, y, before, held.cells)?;
        from = y + 1;
    }
    Ok(())
}

/// Joins the tables that hold v, which waits no more, and puts the table over their joined set
/// without v in their place.
pub fn eliminate(
    states: &[u64],
    known: &mut Known,
    classes: &mut Vec<Class>,
    waiting: &NodeSet,
    v: usize,
) -> Result<Made, AllocError>
    requires states { length states.now ≡ MOST_NODES }
    requires small { v < MOST_NODES }
    requires here { HasPlace known.old v }
    requires places { HasPlaces (IsIn waiting.now) known.old }
    requires apart { IsIn waiting.now v → ⊥ }
    ensures places { KeepsPlaces known.old known.new }
    ensures few { IfOk result (λ made. made.cells ≤ COUNT_END) }
    ensures little { IfOk result (λ made. made.work ≤ COUNT_END) }
    ensures classes { OnOk result (StayIn waiting.now known.old classes.old known.new classes.new) }
    ensures step { IfOk result (MakesStep states.now waiting.now v known.old known.new) }
{
    let held = *counted_of(known, v);
    let own = NodeSet::of(v);
    let scope = held.joint.set.difference(&own);
    let at = scope.intersection(waiting);
    let tables = count_members(&held.joint.tables);
    put_made(
        states,
        known,
        classes,
        &at,
        &Table { tag: v, scope },
        &held.joint.tables,
        &own,
    )?;
    Ok(Made {
        cells: count_less(states, &held.joint.set, &scope, v, held.cells),
        work: multiply(held.cells, tables as u64),
        tables,
    })
}

/// Eliminates the nodes that wait, each time the first whose joined set has fewest cells.
pub fn eliminate_all(
    alloc: Global,
    states: &[u64],
    start: Start,
    waiting: NodeSet,
) -> Result<Run, AllocError>
    requires states { length states.now ≡ MOST_NODES }
    requires small { (y : ℕ) → IsIn waiting y → y < MOST_NODES }
    requires places { HasPlaces (IsIn waiting) start.known }
    requires few { start.live ≤ MOST_NODES + 1 }
    requires started { IsStartOfSome states.now waiting start }
    ensures run { IfOk result (IsRunFrom states.now waiting start) }
    ensures few { IfOk result (λ run. run.cells ≤ COUNT_END) }
    ensures little { IfOk result (λ run. run.work ≤ COUNT_END) }
{
    let mut rest: NodeSet = waiting;
    let mut steps = Vec::with_capacity(alloc, count_members(&rest))?;
    let Start {
        mut known,
        mut live,
        mut cells,
    } = start;
    let mut classes = list_classes(alloc, &known, &rest)?;
    let mut work = 0;
    'steps: while let Some(v) = find_next(&classes) {
        take_node(&mut classes, v, counted_of(&known, v).cells);
        rest.remove(v);
        steps.push(v)?;
        let made = eliminate(states, &mut known, &mut classes, &rest, v)?;
        live = live + 1 - made.tables;
        cells = add(cells, made.cells);
        work = add(work, made.work);
    }
    Ok(Run {
        steps,
        live,
        cells,
        work,
        left: known,
    })
}
