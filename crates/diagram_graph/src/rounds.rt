//! The round among the items that are left where placing stops short.

ghost use Rattle.std.specs.Prelude.{◌≡◌, ℕ, ◌<◌, length, Contains, IfOk, slice_index};
ghost use Rattle.maid_model.specs.Placing.{IsLeast};
ghost use Rattle.diagram_graph.specs.Needs.{needs_of};
ghost use Rattle.diagram_graph.specs.Free.{IsFree, IsReady, NeedsItems};
ghost use Rattle.diagram_graph.specs.Rounds.{Circles, IsFirstLeft, TellsFirstLeft};

use crate::needs::Needs;
use crate::placing::is_free;
use std::alloc::{AllocError, Global};

/// The first of the list that is left.
fn first_in(list: &[usize], items: &[bool], placed: &[bool]) -> Option<usize>
    requires same_len { length placed.now ≡ length items.now }
    requires within { (e : ℕ) → Contains list.now e → e < length items.now }
    ensures { TellsFirstLeft (IsFree items.now placed.now) list.now result }
{
    for e in list {
        if is_free(items, placed, *e) {
            return Some(*e);
        }
    }
    None
}

/// The first of what v needs that is left. There is one, since v itself is left and nothing is
/// ready.
fn next_needed<N: Needs>(needs: &N, items: &[bool], placed: &[bool], v: usize) -> usize
    requires items_len { length items.now ≡ length (N.lists needs.now) }
    requires placed_len { length placed.now ≡ length (N.lists needs.now) }
    requires needs { NeedsItems (N.lists needs.now) items.now }
    requires free { IsFree items.now placed.now v }
    requires stuck { (x : ℕ) → IsReady (N.lists needs.now) items.now placed.now x → ⊥ }
    ensures { IsFirstLeft (IsFree items.now placed.now) (needs_of (N.lists needs.now) v) result }
{
    match first_in(needs.needs(v), items, placed) {
        Some(e) => e,
        None => unreachable!(),
    }
}

/// The place of x in the list.
fn place_of(list: &[usize], x: usize) -> usize
    requires { Contains list.now x }
    ensures within { result < length list.now }
    ensures there { slice_index list.now result ≡ x }
{
    for (i, y) in list.iter().enumerate() {
        if *y == x {
            return i;
        }
    }
    unreachable!()
}

/// The trail from the first that is left, each time to the first of its needs that is left, from
/// where it comes back to an item.
pub fn find_round<N: Needs>(
    alloc: Global,
    needs: &N,
    items: &[bool],
    placed: &[bool],
    start: usize,
) -> Result<Vec<usize>, AllocError>
    requires items_len { length items.now ≡ length (N.lists needs.now) }
    requires placed_len { length placed.now ≡ length (N.lists needs.now) }
    requires needs { NeedsItems (N.lists needs.now) items.now }
    requires start { IsLeast (IsFree items.now placed.now) start }
    requires stuck { (x : ℕ) → IsReady (N.lists needs.now) items.now placed.now x → ⊥ }
    ensures { IfOk result (λ cycle. Circles (N.lists needs.now) items.now placed.now cycle.items) }
{
    let mut trail: Vec<usize> = Vec::new(alloc);
    let mut seen = vec![in alloc; false; needs.count()]?;
    let mut at = start;
    'trail: while !seen[at] {
        seen[at] = true;
        trail.push(at)?;
        at = next_needed(needs, items, placed, at);
    }
    let back = place_of(&trail, at);
    trail.split_off(back)
}
