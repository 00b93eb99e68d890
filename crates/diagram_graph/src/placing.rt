//! Items placed one by one, each after those that it needs.

ghost use Rattle.std.specs.Prelude.{◌≡◌, ℕ, ◌<◌, ◌↔◌, length, Contains, IsTrue, IfOk, OnOk};
ghost use Rattle.diagram_graph.specs.Needs.{IsMarkedIn, MarksListed};
ghost use Rattle.diagram_graph.specs.Free.{IsFree, IsReady, NeedsWithin, NeedsItems, TellsLeast};
ghost use Rattle.diagram_graph.specs.Placed.{IsPlacingOf, PlacesItems};

use crate::needs::Needs;
use crate::rounds::find_round;
use std::alloc::{AllocError, Global};

/// All items in an order in which each stands after those that it needs, or a cycle of items that
/// need one another.
#[derive(Debug, Drop)]
pub enum Placing {
    Order(Vec<usize>),
    Cycle(Vec<usize>),
}

fn all_placed(list: &[usize], placed: &[bool]) -> bool
    requires { (e : ℕ) → Contains list.now e → e < length placed.now }
    ensures { IsTrue result ↔ ((e : ℕ) → Contains list.now e → IsMarkedIn placed.now e) }
{
    for e in list {
        if !placed[*e] {
            return false;
        }
    }
    true
}

/// Whether it is an item that is not placed.
pub fn is_free(items: &[bool], placed: &[bool], v: usize) -> bool
    requires within { v < length items.now }
    requires same_len { length placed.now ≡ length items.now }
    ensures { IsTrue result ↔ IsFree items.now placed.now v }
{
    items[v] && !placed[v]
}

/// Whether it is an item that is not placed, and all that it needs is.
fn is_ready<N: Needs>(needs: &N, items: &[bool], placed: &[bool], v: usize) -> bool
    requires within { v < length (N.lists needs.now) }
    requires items_len { length items.now ≡ length (N.lists needs.now) }
    requires placed_len { length placed.now ≡ length (N.lists needs.now) }
    requires needs { NeedsWithin (N.lists needs.now) }
    ensures { IsTrue result ↔ IsReady (N.lists needs.now) items.now placed.now v }
{
    is_free(items, placed, v) && all_placed(needs.needs(v), placed)
}

fn first_ready<N: Needs>(needs: &N, items: &[bool], placed: &[bool]) -> Option<usize>
    requires items_len { length items.now ≡ length (N.lists needs.now) }
    requires placed_len { length placed.now ≡ length (N.lists needs.now) }
    requires needs { NeedsWithin (N.lists needs.now) }
    ensures { TellsLeast (IsReady (N.lists needs.now) items.now placed.now) result }
{
    for v in 0..needs.count() {
        if is_ready(needs, items, placed, v) {
            return Some(v);
        }
    }
    None
}

fn first_free(items: &[bool], placed: &[bool]) -> Option<usize>
    requires { length placed.now ≡ length items.now }
    ensures { TellsLeast (IsFree items.now placed.now) result }
{
    for v in 0..items.len() {
        if is_free(items, placed, v) {
            return Some(v);
        }
    }
    None
}

/// Places items as long as one can be placed, and marks them.
fn place<N: Needs>(
    alloc: Global,
    needs: &N,
    items: &[bool],
    placed: &mut [bool],
) -> Result<Vec<usize>, AllocError>
    requires items_len { length items.now ≡ length (N.lists needs.now) }
    requires placed_len { length placed.old ≡ length (N.lists needs.now) }
    requires none { (v : ℕ) → IsMarkedIn placed.old v → ⊥ }
    requires needs { NeedsWithin (N.lists needs.now) }
    ensures marks { IfOk result (λ order. MarksListed placed.new order.items) }
    ensures placing { IfOk result (λ order. PlacesItems (N.lists needs.now) items.now order.items) }
    ensures stuck { OnOk result ((v : ℕ) → IsReady (N.lists needs.now) items.now placed.new v → ⊥) }
{
    let mut order = Vec::new(alloc);
    'placing: while let Some(v) = first_ready(needs, items, placed) {
        order.push(v)?;
        placed[v] = true;
    }
    Ok(order)
}

fn place_in<N: Needs>(
    alloc: Global,
    needs: &N,
    items: &[bool],
    placed: &mut [bool],
) -> Result<Placing, AllocError>
    requires items_len { length items.now ≡ length (N.lists needs.now) }
    requires placed_len { length placed.old ≡ length (N.lists needs.now) }
    requires none { (v : ℕ) → IsMarkedIn placed.old v → ⊥ }
    requires needs { NeedsItems (N.lists needs.now) items.now }
    ensures { IfOk result (λ p. IsPlacingOf (N.lists needs.now) items.now p) }
{
    let order = place(alloc, needs, items, placed)?;
    match first_free(items, placed) {
        None => Ok(Placing::Order(order)),
        Some(start) => Ok(Placing::Cycle(find_round(alloc, needs, items, placed, start)?)),
    }
}

/// Places the items one by one, each time the first that needs no item that is not placed; only
/// items may be needed. Where that places all, it answers their order. Otherwise it answers a
/// cycle: from the first item that is left it goes each time to the first of its needs that is
/// left, until one comes twice.
///
/// Each step looks at the items from the first on, and at the needs of one that is not placed up to
/// the first that is not placed either: at most as many looks as items times all needs, and about
/// the square of the number of items where items mostly stand after what they need.
///
/// # Errors
///
/// Only where memory runs out.
pub fn place_all<N: Needs>(alloc: Global, needs: &N, items: &[bool]) -> Result<Placing, AllocError>
    requires items_len { length items.now ≡ length (N.lists needs.now) }
    requires needs { NeedsItems (N.lists needs.now) items.now }
    ensures { IfOk result (λ p. IsPlacingOf (N.lists needs.now) items.now p) }
{
    let mut placed = vec![in alloc; false; needs.count()]?;
    place_in(alloc, needs, items, &mut placed)
}
