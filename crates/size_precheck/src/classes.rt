//! The nodes that wait, in classes of equal cells: the next one is the first of the lowest class
//! that has any.

ghost use Rattle.std.specs.Prelude.{◌≡◌, ◌↔◌, ℕ, ◌<◌, ◌≤◌, length, IsTrue, IfOk, OnOk};
ghost use Rattle.node_sets.specs.declared.sets.TheConstants.{MOST_NODES};
ghost use Rattle.node_sets.specs.Sets.{holds, IsIn};
ghost use Rattle.size_precheck.specs.Classes.{class_at, nodes_at, AreClasses, FindsFewest, HasChanged, HasCome, HasLeft, IsOfCells};
ghost use Rattle.size_precheck.specs.Joints.{cells_in, HasPlaces, IsWith, IsWithout};

use crate::joints::{Known, counted_of};
use node_sets::NodeSet;
use std::alloc::{AllocError, Global};

/// Nodes that wait, whose joined sets all have this many cells.
#[derive(Clone, Copy)]
pub struct Class {
    pub cells: u64,
    pub nodes: NodeSet,
}

/// How many classes there may be before one goes with its last node. Cells come again, so that a
/// class without a node is mostly filled anew.
const FEW: usize = 8;

/// The place of the first class that has no fewer cells.
fn find_place(classes: &[Class], cells: u64) -> usize
    ensures end { result ≤ length classes.now }
    ensures before { (i : ℕ) → i < result → (class_at classes.now i).cells < cells }
    ensures past { result < length classes.now → cells ≤ (class_at classes.now result).cells }
{
    let mut place = 0;
    'classes: while place < classes.len() && classes[place].cells < cells {
        place += 1;
    }
    place
}

/// Of the nodes that wait the first of those with fewest cells.
pub fn find_next(classes: &[Class]) -> Option<usize>
    ensures { FindsFewest classes.now result }
{
    for class in classes {
        if let Some(v) = class.nodes.first_from(0) {
            return Some(v);
        }
    }
    None
}

/// Whether the class of a place has no node but v.
fn has_no_other(classes: &[Class], place: usize, v: usize) -> bool
    requires place { place < length classes.now }
    requires small { v < MOST_NODES }
    ensures { IsTrue result ↔ ((x : ℕ) → IsIn (nodes_at classes.now place) x → x ≡ v) }
{
    let mut others = classes[place].nodes;
    others.remove(v);
    match others.first_from(0) {
        Some(_) => false,
        None => true,
    }
}

/// Takes v out of the class of a place.
fn take_at(classes: &mut [Class], place: usize, v: usize)
    requires place { place < length classes.old }
    requires small { v < MOST_NODES }
    ensures len { length classes.new ≡ length classes.old }
    ensures cells { (class_at classes.new place).cells ≡ (class_at classes.old place).cells }
    ensures nodes { IsWithout (nodes_at classes.old place) (nodes_at classes.new place) v }
    ensures same { (i : ℕ) → (i ≡ place → ⊥) → class_at classes.new i ≡ class_at classes.old i }
{
    classes[place].nodes.remove(v);
}

/// Puts v into the class of a place.
fn put_at(classes: &mut [Class], place: usize, v: usize)
    requires place { place < length classes.old }
    requires small { v < MOST_NODES }
    ensures len { length classes.new ≡ length classes.old }
    ensures cells { (class_at classes.new place).cells ≡ (class_at classes.old place).cells }
    ensures nodes { IsWith (nodes_at classes.old place) (nodes_at classes.new place) v }
    ensures same { (i : ℕ) → (i ≡ place → ⊥) → class_at classes.new i ≡ class_at classes.old i }
{
    classes[place].nodes.insert(v);
}

/// Whether the class of this place has this many cells.
fn is_of_cells(classes: &[Class], place: usize, cells: u64) -> bool
    ensures { IsTrue result ↔ IsOfCells classes.now place cells }
{
    place < classes.len() && classes[place].cells == cells
}

/// Takes a node out of the class of its cells. Where there are more than a few classes, the class
/// goes with its last node.
pub fn take_node(classes: &mut Vec<Class>, v: usize, cells: u64)
    requires { v < MOST_NODES }
    ensures { HasLeft classes.old.items classes.new.items v cells }
{
    let place = find_place(classes, cells);
    if place < classes.len() {
        if classes.len() > FEW && has_no_other(classes, place, v) {
            classes.remove(place);
        } else {
            take_at(classes, place, v);
        }
    }
}

/// Puts a node into the class of its cells.
pub fn put_node(classes: &mut Vec<Class>, v: usize, cells: u64) -> Result<(), AllocError>
    requires { v < MOST_NODES }
    ensures { OnOk result (HasCome classes.old.items classes.new.items v cells) }
{
    let place = find_place(classes, cells);
    if is_of_cells(classes, place, cells) {
        put_at(classes, place, v);
        return Ok(());
    }
    let class = Class {
        cells,
        nodes: NodeSet::of(v),
    };
    classes.insert(place, class)?;
    Ok(())
}

/// Moves a node from the class of the one number of cells to that of the other.
pub fn move_node(
    classes: &mut Vec<Class>,
    v: usize,
    before: u64,
    after: u64,
) -> Result<(), AllocError>
    requires { v < MOST_NODES }
    ensures { OnOk result (HasChanged classes.old.items classes.new.items v before after) }
{
    if before == after {
        return Ok(());
    }
    take_node(classes, v, before);
    put_node(classes, v, after)?;
    Ok(())
}

/// The classes of these nodes, by the cells that are counted for each.
pub fn list_classes(alloc: Global, known: &Known, nodes: &NodeSet) -> Result<Vec<Class>, AllocError>
    requires { HasPlaces (IsIn nodes.now) known.now }
    ensures { IfOk result (λ list. AreClasses (cells_in known.now) (holds nodes.now) list.items) }
{
    let mut classes = Vec::with_capacity(alloc, 2 * FEW)?;
    let mut from = 0;
    'nodes: while let Some(v) = nodes.first_from(from) {
        put_node(&mut classes, v, counted_of(known, v).cells)?;
        from = v + 1;
    }
    Ok(classes)
}
