//! What all plans of a diagram share.

ghost use Rattle.std.specs.Prelude.{◌≡◌, ◌<◌, ◌↔◌, ℕ, length, IfOk, OnOk};
ghost use Rattle.maid_model.specs.Diagrams.{IsDiagram};
ghost use Rattle.node_sets.specs.declared.sets.TheConstants.{MOST_NODES};
ghost use Rattle.node_sets.specs.Sets.{IsIn};
ghost use Rattle.size_precheck.specs.Above.{AreAllAbove};
ghost use Rattle.size_precheck.specs.Families.{AreFamilies, AreJointsOfAll, IsFamily, IsOfFamily, IsPlanner, TakesFamily};
ghost use Rattle.size_precheck.specs.Joints.{AreCounted};

use crate::counts::count_cells;
use crate::joints::{Joint, Table, put_table};
use crate::nodes_above::list_above;
use crate::starts::{list_states, node_table};
use maid_model::{Diagram, Kind};
use node_sets::NodeSet;
use std::alloc::{AllocError, Global};

/// What is known of a node, whatever the plan.
#[derive(Clone, Copy)]
pub struct Family {
    /// The table over the node and its parents.
    pub table: Table,
    /// The cells of that table.
    pub cells: u64,
    /// The node, and all from which a path of arcs leads to it.
    pub above: NodeSet,
}

/// What is known of a diagram, whatever the plan. A caller that makes several plans makes it once.
#[derive(Drop)]
pub struct Planner {
    /// The counts of states of all numbers, 1 where there is no node.
    pub(crate) states: Vec<u64>,
    /// One for each node.
    pub(crate) families: Vec<Family>,
    /// For each node the tables of chance and decision nodes that hold it.
    pub(crate) joints: Vec<Joint>,
    /// The cells of the joined sets of these.
    pub(crate) counts: Vec<u64>,
}

/// What is known of the node, by the sets of what stands above.
fn family_of(diagram: &Diagram, states: &[u64], above: &[NodeSet], v: usize) -> Family
    requires within { v < length diagram.now.nodes }
    requires states { length states.now ≡ MOST_NODES }
    requires all { length above.now ≡ length diagram.now.nodes }
    requires above { AreAllAbove diagram.now.nodes above.now }
    ensures { IsFamily diagram.now.nodes states.now v result }
{
    let table = node_table(diagram, v);
    Family {
        table,
        cells: count_cells(states, &table.scope),
        above: above[v],
    }
}

/// What is known of each node.
fn list_families(
    alloc: Global,
    diagram: &Diagram,
    states: &[u64],
) -> Result<Vec<Family>, AllocError>
    requires { length states.now ≡ MOST_NODES }
    ensures len { IfOk result (λ families. length families.items ≡ length diagram.now.nodes) }
    ensures families { IfOk result (λ list. AreFamilies diagram.now.nodes states.now list.items) }
{
    let above = list_above(alloc, diagram)?;
    let mut families = Vec::with_capacity(alloc, diagram.count())?;
    for v in 0..diagram.count() {
        families.push(family_of(diagram, states, &above, v))?;
    }
    Ok(families)
}

/// Puts the table over the node and its parents, unless the node is a utility.
fn put_family(diagram: &Diagram, joints: &mut [Joint], table: &Table, v: usize)
    requires within { v < length diagram.now.nodes }
    requires len { length joints.old ≡ length diagram.now.nodes }
    requires tag { table.now.tag ≡ v }
    requires scope { (u : ℕ) → IsIn table.now.scope u ↔ IsOfFamily diagram.now.nodes v u }
    ensures len { length joints.new ≡ length joints.old }
    ensures joined { TakesFamily diagram.now.nodes v joints.old joints.new }
{
    match diagram.kind(v) {
        Kind::Utility => {}
        Kind::Chance | Kind::Decision => {
            let none = NodeSet::empty();
            put_table(joints, &table.scope, table, &none, &none);
        }
    }
}

/// For each node the tables of chance and decision nodes that hold it.
fn list_joints(
    alloc: Global,
    diagram: &Diagram,
    states: &[u64],
    families: &[Family],
) -> Result<Vec<Joint>, AllocError>
    requires len { length families.now ≡ length diagram.now.nodes }
    requires families { AreFamilies diagram.now.nodes states.now families.now }
    ensures len { IfOk result (λ joints. length joints.items ≡ length diagram.now.nodes) }
    ensures joints { IfOk result (λ joints. AreJointsOfAll diagram.now.nodes joints.items) }
{
    let mut joints = vec![in alloc; Joint::empty(); diagram.count()]?;
    for v in 0..diagram.count() {
        put_family(diagram, &mut joints, &families[v].table, v);
    }
    Ok(joints)
}

/// The cells of the joined sets, each at the place of its node.
fn list_counts(alloc: Global, states: &[u64], joints: &[Joint]) -> Result<Vec<u64>, AllocError>
    requires { length states.now ≡ MOST_NODES }
    ensures len { IfOk result (λ counts. length counts.items ≡ length joints.now) }
    ensures counted { IfOk result (λ counts. AreCounted states.now joints.now counts.items) }
{
    let mut counts = Vec::with_capacity(alloc, joints.len())?;
    for joint in joints {
        counts.push(count_cells(states, &joint.set))?;
    }
    Ok(counts)
}

impl Planner {
    /// What is known of the diagram. It goes over the arcs a few times, and once more for each arc
    /// of a path that leads back in text order, up to sixteen times. It takes memory for a few
    /// lists of as many entries as there are nodes.
    ///
    /// # Errors
    ///
    /// Only where memory runs out.
    pub fn new(alloc: Global, diagram: &Diagram) -> Result<Planner, AllocError>
        ensures planner { IfOk result (IsPlanner diagram.now.nodes) }
        ensures diagram { OnOk result (IsDiagram diagram.now) }
    {
        let states = list_states(alloc, diagram)?;
        let families = list_families(alloc, diagram, &states)?;
        let joints = list_joints(alloc, diagram, &states, &families)?;
        let counts = list_counts(alloc, &states, &joints)?;
        Ok(Planner {
            states,
            families,
            joints,
            counts,
        })
    }
}
