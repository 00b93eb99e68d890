//! Slots at places. Each is filed under the node of its scope that a run eliminates first, so that
//! the step of a node looks at no other slot: by then no live slot holds a node that was eliminated
//! before.

ghost use Rattle.std.specs.Prelude.{◌≡◌, ◌+◌, ◌<◌, ◌≤◌, ◌↔◌, ℕ, [], ◌∷◌, ◌++◌, length, take, All, MatchOption};
ghost use Rattle.node_sets.specs.declared.sets.TheConstants.{MOST_NODES};
ghost use Rattle.node_sets.specs.Sets.{holds, IsIn};
ghost use Rattle.eliminate.specs.Places.{slots_from, slots_at, AreApart, ArePlacesOf, Filed, FilesPlace, IsBlank, IsBlankFor, IsBoard, IsFirstOf, IsRanking, NoneBefore};

use crate::lists::before;
use factor_core::Slot;
use node_sets::{MOST_NODES, NodeSet};

/// Which places have live slots, and how many have had one: new slots go behind all of these.
#[derive(Clone, Copy)]
pub struct Places {
    pub live: NodeSet,
    pub made: usize,
}

/// The order in which a run eliminates nodes.
#[derive(Clone, Copy)]
pub struct Order<'a> {
    /// For each node its first position among the steps, or how many these are where it has none.
    pub ranks: &'a [usize],
    /// How many steps there are.
    pub count: usize,
}

/// Lists the slots at the places of the set, in the order of the places. Gives how many there are.
pub fn gather(slots: &[Slot], places: &NodeSet, found: &mut [Slot]) -> usize
    requires within { (k : ℕ) → IsIn places.now k → k < length slots.now }
    requires few { length slots.now ≤ MOST_NODES }
    requires room { length slots.now ≤ length found.old }
    ensures list { take result found.new ≡ slots_from (holds places.now) 0 slots.now }
    ensures few { result ≤ length slots.now }
{
    let mut n = 0;
    let mut next = 0;
    'places: while let Some(place) = places.first_from(next) {
        found[n] = slots[place];
        n += 1;
        next = place + 1;
    }
    n
}

/// Lists the live slots, in the order of their places. Gives how many there are.
pub fn gather_live(slots: &[Slot], places: &Places, found: &mut [Slot]) -> usize
    requires within { (k : ℕ) → IsIn places.now.live k → k < places.now.made }
    requires made { places.now.made ≤ length slots.now }
    requires few { length slots.now ≤ MOST_NODES }
    requires room { length found.old ≡ length slots.now }
    ensures list { take result found.new ≡ slots_at places.now slots.now }
    ensures few { result ≤ length slots.now }
{
    gather(before(slots, places.made), &places.live, found)
}

/// Writes for each node its first position among the steps, or how many these are where it has
/// none, and takes the places of the steps' nodes away. No slot is ever filed under another node.
pub fn set_order(ranks: &mut [usize], at: &mut [NodeSet], steps: &[usize])
    requires same { length at.old ≡ length ranks.old }
    requires steps { All (λ v. v < length ranks.old) steps.now }
    ensures ranking { IsRanking ranks.new steps.now }
    ensures blank { IsBlankFor ranks.new (length steps.now) at.new }
{
    for v in 0..ranks.len() {
        ranks[v] = steps.len();
    }
    for i in (0..steps.len()).rev() {
        ranks[steps[i]] = i;
        at[steps[i]] = NodeSet::empty();
    }
}

/// The node of the scope that is eliminated first, where the steps have one of them.
fn first_of(order: &Order, scope: &NodeSet) -> Option<usize>
    ensures { MatchOption result
        (NoneBefore order.now.ranks.now order.now.count order.now.count (holds scope.now))
        (IsFirstOf order.now.ranks.now order.now.count (holds scope.now)) }
{
    let mut first = 0;
    let mut least = order.count;
    let mut next = 0;
    'nodes: while let Some(v) = scope.first_between(next, order.ranks.len()) {
        if order.ranks[v] < least {
            first = v;
            least = order.ranks[v];
        }
        next = v + 1;
    }
    if least < order.count {
        Some(first)
    } else {
        None
    }
}

/// Adds the place to those of the node of the scope that is eliminated first. One node is enough,
/// as no slot lives on behind the step of its first node.
fn file_place(at: &mut [NodeSet], order: &Order, scope: &NodeSet, place: usize)
    requires same { length at.old ≡ length order.now.ranks.now }
    requires apart { AreApart order.now.ranks.now order.now.count }
    requires place { place < MOST_NODES }
    ensures { FilesPlace order.now.ranks.now order.now.count (holds scope.now) place at.old at.new }
{
    if let Some(v) = first_of(order, scope) {
        at[v].insert(place);
    }
}

/// Takes the places of all nodes away.
fn clear(at: &mut [NodeSet])
    ensures { IsBlank at.new }
{
    for v in 0..at.len() {
        at[v] = NodeSet::empty();
    }
}

/// Files these slots, where none is filed.
fn file_slots(at: &mut [NodeSet], order: &Order, slots: &[Slot])
    requires same { length at.old ≡ length order.now.ranks.now }
    requires apart { AreApart order.now.ranks.now order.now.count }
    requires blank { IsBlankFor order.now.ranks.now order.now.count at.old }
    requires slots { length slots.now ≤ MOST_NODES }
    ensures { Filed order.now.ranks.now order.now.count at.new slots.now }
{
    for place in 0..slots.len() {
        file_place(at, order, &slots[place].scope, place);
    }
}

/// The numbers below the count.
fn numbers_below(count: usize) -> NodeSet
    requires { count ≤ MOST_NODES }
    ensures { (k : ℕ) → IsIn result k ↔ k < count }
{
    let mut set = NodeSet::empty();
    for k in 0..count {
        set.insert(k);
    }
    set
}

/// The first `made` slots as live ones, where none is filed.
pub fn all_live(slots: &[Slot], at: &mut [NodeSet], order: &Order, made: usize) -> Places
    requires same { length at.old ≡ length order.now.ranks.now }
    requires apart { AreApart order.now.ranks.now order.now.count }
    requires made { made ≤ length slots.now }
    requires few { made ≤ MOST_NODES }
    requires blank { IsBlankFor order.now.ranks.now order.now.count at.old }
    ensures made { result.made ≡ made }
    ensures board { IsBoard order.now at.new slots.now result }
    ensures live { slots_at result slots.now ≡ take made slots.now }
{
    file_slots(at, order, before(slots, made));
    Places {
        live: numbers_below(made),
        made,
    }
}

/// Moves the live slots to the first places. It goes over another list.
fn pack(
    slots: &mut [Slot],
    at: &mut [NodeSet],
    order: &Order,
    places: Places,
    spare: &mut [Slot],
) -> Places
    requires board { IsBoard order.now at.old slots.old places }
    requires made { places.made ≤ length slots.old }
    requires slots { length slots.old ≤ MOST_NODES }
    requires spare { length spare.old ≡ length slots.old }
    ensures board { IsBoard order.now at.new slots.new result }
    ensures made { result.made ≡ length (slots_at places slots.old) }
    ensures live { slots_at result slots.new ≡ slots_at places slots.old }
{
    let count = gather_live(slots, &places, spare);
    for i in 0..count {
        slots[i] = spare[i];
    }
    clear(at);
    all_live(slots, at, order, count)
}

/// Puts the slot behind the live ones. Where no place is left, the live ones are moved to the first
/// places before.
pub fn put_slot(
    slots: &mut [Slot],
    at: &mut [NodeSet],
    order: &Order,
    places: Places,
    spare: &mut [Slot],
    slot: &Slot,
) -> Places
    requires board { IsBoard order.now at.old slots.old places }
    requires made { places.made ≤ length slots.old }
    requires few { length (slots_at places slots.old) < length slots.old }
    requires slots { length slots.old ≤ MOST_NODES }
    requires spare { length spare.old ≡ length slots.old }
    ensures board { IsBoard order.now at.new slots.new result }
    ensures made { result.made ≤ length slots.old }
    ensures live { slots_at result slots.new ≡ slots_at places slots.old ++ slot.now ∷ [] }
{
    if places.made == slots.len() {
        let packed = pack(slots, at, order, places, spare);
        put_behind(slots, at, order, packed, slot)
    } else {
        put_behind(slots, at, order, places, slot)
    }
}

/// Puts the slot behind the live ones, at the next place.
fn put_behind(
    slots: &mut [Slot],
    at: &mut [NodeSet],
    order: &Order,
    places: Places,
    slot: &Slot,
) -> Places
    requires board { IsBoard order.now at.old slots.old places }
    requires made { places.made < length slots.old }
    requires slots { length slots.old ≤ MOST_NODES }
    ensures board { IsBoard order.now at.new slots.new result }
    ensures made { result.made ≡ places.made + 1 }
    ensures live { slots_at result slots.new ≡ slots_at places slots.old ++ slot.now ∷ [] }
{
    slots[places.made] = *slot;
    file_place(at, order, &slot.scope, places.made);
    let mut live = places.live;
    live.insert(places.made);
    Places {
        live,
        made: places.made + 1,
    }
}

/// The live slots that are filed under the node, as places.
pub fn places_of(at: &[NodeSet], places: &Places, node: usize) -> NodeSet
    requires { node < length at.now }
    ensures { ArePlacesOf at.now places.now node result }
{
    places.live.intersection(&at[node])
}
