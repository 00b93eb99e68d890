//! The nodes of a plan and its first tables.

ghost use Rattle.std.specs.Prelude.{◌≡◌, ◌↔◌, ℕ, ◌<◌, ◌≤◌, ◌+◌, length, Contains, Some, None, IsTrue, IfOk, OnOk};
ghost use Rattle.maid_model.specs.Diagrams.{IsDiagram};
ghost use Rattle.maid_model.specs.Nodes.{parents_of};
ghost use Rattle.node_sets.specs.declared.sets.TheConstants.{MOST_NODES};
ghost use Rattle.node_sets.specs.Sets.{IsIn};
ghost use Rattle.plan_sums.specs.Sizes.{IsPlan};
ghost use Rattle.size_precheck.specs.Families.{AreAbove, IsAboveOne, IsInTableOf, IsNarrowed, IsNarrowedFrom, IsOfFamily, IsPlanner, IsRuled, IsBegun};
ghost use Rattle.size_precheck.specs.Joints.{AllStayCounted, AreStateCounts, HasPlaces, KeepsPlaces, TellsOneMore};
ghost use Rattle.size_precheck.specs.Sizes.{plan_of, IsOfPlan};

use crate::counts::{add, count_cells, count_members};
use crate::joints::{Counted, Joint, Known, Table, empty_lists, give_place};
use crate::planners::{Family, Planner};
use crate::simulation::{Start, put_first};
use maid_model::{Diagram, MOST_NODES};
use node_sets::NodeSet;
use plan_sums::plan_scopes;
use std::alloc::{AllocError, Global};

/// The counts of states of all numbers, 1 where there is no node.
pub fn list_states(alloc: Global, diagram: &Diagram) -> Result<Vec<u64>, AllocError>
    ensures len { IfOk result (λ states. length states.items ≡ MOST_NODES) }
    ensures states { IfOk result (λ states. AreStateCounts diagram.now.nodes states.items) }
    ensures diagram { OnOk result (IsDiagram diagram.now) }
{
    let mut states = vec![in alloc; 1; MOST_NODES]?;
    for v in 0..diagram.count() {
        states[v] = diagram.states(v) as u64;
    }
    Ok(states)
}

/// The set of these nodes.
pub fn set_of(list: &[usize]) -> NodeSet
    requires { (v : ℕ) → Contains list.now v → v < MOST_NODES }
    ensures { (v : ℕ) → IsIn result v ↔ Contains list.now v }
{
    let mut set = NodeSet::empty();
    set.insert_all(list);
    set
}

/// These nodes, and all from which a path of arcs leads to one of them.
fn nodes_above_all(families: &[Family], ends: &NodeSet) -> NodeSet
    requires { (t : ℕ) → IsIn ends.now t → t < length families.now }
    ensures { (v : ℕ) → IsIn result v ↔ IsAboveOne families.now ends.now v }
{
    let mut nodes = NodeSet::empty();
    let mut from = 0;
    'ends: while let Some(to) = ends.first_from(from) {
        nodes = nodes.union(&families[to].above);
        from = to + 1;
    }
    nodes
}

/// The nodes of a plan: those that are kept, and those from which a path of arcs leads to one of
/// them or to the utility.
pub fn plan_nodes(
    diagram: &Diagram,
    families: &[Family],
    keep: &[usize],
    utility: Option<usize>,
) -> NodeSet
    requires diagram { IsDiagram diagram.now }
    requires all { length families.now ≡ length diagram.now.nodes }
    requires above { AreAbove diagram.now.nodes families.now }
    requires plan { IsPlan diagram.now.nodes (plan_of keep.now None utility) }
    requires known { (u : ℕ) → utility ≡ Some u → u < length diagram.now.nodes }
    ensures { (v : ℕ) → IsIn result v ↔ IsOfPlan diagram.now.nodes keep.now utility v }
{
    plan_scopes();
    let mut ends = set_of(keep);
    match utility {
        Some(u) => {
            ends.insert(u);
            let mut nodes = nodes_above_all(families, &ends);
            nodes.remove(u);
            nodes
        }
        None => nodes_above_all(families, &ends),
    }
}

/// Those whose own rules are not left out.
pub fn ruled_nodes(nodes: &NodeSet, without: Option<usize>) -> NodeSet
    requires { (d : ℕ) → without ≡ Some d → d < MOST_NODES }
    ensures { (v : ℕ) → IsIn result v ↔ (IsIn nodes.now v × (without ≡ Some v → ⊥)) }
{
    let mut ruled = *nodes;
    if let Some(d) = without {
        ruled.remove(d);
    }
    ruled
}

/// The nodes of these tables.
fn nodes_of_tables(families: &[Family], tables: &NodeSet) -> NodeSet
    requires { (t : ℕ) → IsIn tables.now t → t < length families.now }
    ensures { (u : ℕ) → IsIn result u ↔ IsInTableOf families.now tables.now u }
{
    let mut nodes = NodeSet::empty();
    let mut from = 0;
    'tables: while let Some(t) = tables.first_from(from) {
        nodes = nodes.union(&families[t].table.scope);
        from = t + 1;
    }
    nodes
}

/// Whether all tables of the joint are among these.
fn has_no_other(joint: &Joint, tables: &NodeSet) -> bool
    ensures { IsTrue result ↔ ((x : ℕ) → IsIn joint.now.tables x → IsIn tables.now x) }
{
    let others = joint.tables.difference(tables);
    match others.first_from(0) {
        Some(_) => false,
        None => true,
    }
}

/// Of what is known of a node, what is left where it has the tables of these nodes alone.
fn narrowed(
    states: &[u64],
    families: &[Family],
    joint: &Joint,
    cells: u64,
    ruled: &NodeSet,
) -> Counted
    requires states { length states.now ≡ MOST_NODES }
    requires ruled { (v : ℕ) → IsIn ruled.now v → v < length families.now }
    ensures { IsNarrowed states.now families.now ruled.now joint.now cells result }
{
    if has_no_other(joint, ruled) {
        return Counted {
            joint: *joint,
            cells,
        };
    }
    let tables = joint.tables.intersection(ruled);
    let set = nodes_of_tables(families, &tables);
    Counted {
        cells: count_cells(states, &set),
        joint: Joint { set, tables },
    }
}

/// What is known of the nodes that wait, where they have the tables of these nodes alone. It stands
/// in the lists that are left of an earlier plan, where there are some.
pub fn list_narrowed(
    alloc: Global,
    planner: &Planner,
    left: Option<Known>,
    ruled: &NodeSet,
    waiting: &NodeSet,
) -> Result<Known, AllocError>
    requires states { length planner.now.states.items ≡ MOST_NODES }
    requires len { length planner.now.counts.items ≡ length planner.now.joints.items }
    requires ruled { (v : ℕ) → IsIn ruled.now v → v < length planner.now.families.items }
    requires waiting { (v : ℕ) → IsIn waiting.now v → v < length planner.now.joints.items }
    ensures places { IfOk result (HasPlaces (IsIn waiting.now)) }
    ensures narrowed { IfOk result (IsNarrowedFrom planner.now ruled.now waiting.now) }
{
    let states = planner.states.as_slice();
    let families = planner.families.as_slice();
    let mut known = empty_lists(alloc, left, count_members(waiting))?;
    let mut from = 0;
    'nodes: while let Some(y) = waiting.first_from(from) {
        let counted = narrowed(
            states,
            families,
            &planner.joints[y],
            planner.counts[y],
            ruled,
        );
        give_place(&mut known, y, counted)?;
        from = y + 1;
    }
    Ok(known)
}

/// Puts the table of the utility.
pub fn put_utility(states: &[u64], known: &mut Known, waiting: &NodeSet, table: &Table)
    requires states { length states.now ≡ MOST_NODES }
    requires tag { table.now.tag < MOST_NODES }
    requires places { HasPlaces (IsIn waiting.now) known.old }
    ensures places { KeepsPlaces known.old known.new }
    ensures tells { TellsOneMore waiting.now table.now known.old known.new }
    ensures counted { AllStayCounted states.now waiting.now known.old known.new }
{
    let none = NodeSet::empty();
    let at = table.scope.intersection(waiting);
    put_first(states, known, &at, table, &none);
}

/// The table of a chance or decision node: over the node and its parents.
pub fn node_table(diagram: &Diagram, v: usize) -> Table
    requires { v < length diagram.now.nodes }
    ensures tag { result.tag ≡ v }
    ensures scope { (u : ℕ) → IsIn result.scope u ↔ IsOfFamily diagram.now.nodes v u }
{
    let parents = diagram.parents(v);
    let mut scope = NodeSet::of(v);
    scope.insert_all(parents);
    Table { tag: v, scope }
}

/// The table of a utility: over its parents.
pub fn utility_table(diagram: &Diagram, u: usize) -> Table
    requires { u < length diagram.now.nodes }
    ensures tag { result.tag ≡ u }
    ensures scope { (x : ℕ) → IsIn result.scope x ↔ Contains (parents_of diagram.now.nodes u) x }
{
    let parents = diagram.parents(u);
    Table {
        tag: u,
        scope: set_of(parents),
    }
}

/// The first tables of a plan: those of these nodes, and that of the utility.
pub fn put_all_first(
    alloc: Global,
    diagram: &Diagram,
    planner: &Planner,
    left: Option<Known>,
    ruled: &NodeSet,
    utility: Option<usize>,
    waiting: &NodeSet,
) -> Result<Start, AllocError>
    requires planner { IsPlanner diagram.now.nodes planner.now }
    requires ruled { (v : ℕ) → IsIn ruled.now v → IsRuled diagram.now.nodes v }
    requires waiting { (v : ℕ) → IsIn waiting.now v → v < length diagram.now.nodes }
    requires known { (u : ℕ) → utility ≡ Some u → u < length diagram.now.nodes }
    requires unruled { (u : ℕ) → utility ≡ Some u → IsIn ruled.now u → ⊥ }
    requires kept { (u : ℕ) → utility ≡ Some u → IsIn waiting.now u → ⊥ }
    ensures places { IfOk result (λ start. HasPlaces (IsIn waiting.now) start.known) }
    ensures few { IfOk result (λ start. start.live ≤ MOST_NODES + 1) }
    ensures started { IfOk result (IsBegun diagram.now planner.now ruled.now utility waiting.now) }
{
    let states = planner.states.as_slice();
    let families = planner.families.as_slice();
    let mut known = list_narrowed(alloc, planner, left, ruled, waiting)?;
    let mut live = 0;
    let mut cells = 0;
    let mut from = 0;
    'tables: while let Some(v) = ruled.first_from(from) {
        cells = add(cells, families[v].cells);
        live += 1;
        from = v + 1;
    }
    if let Some(u) = utility {
        let table = utility_table(diagram, u);
        put_utility(states, &mut known, waiting, &table);
        cells = add(cells, count_cells(states, &table.scope));
        live += 1;
    }
    Ok(Start { known, live, cells })
}
