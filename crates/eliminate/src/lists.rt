//! The lists that runs write into, and the first ones of a list.

ghost use Rattle.std.specs.Prelude.{◌≡◌, ◌≤◌, length, take};

use factor_core::Slot;
use node_sets::{MOST_NODES, NodeSet};
use std::alloc::{AllocError, Global};
use std::marker::Model;

/// What runs write their places and slots into, one run after another. Each run sets what it reads,
/// so there is nothing to know of what another has left.
#[derive(Drop)]
pub struct RunLists {
    /// For each node of a step the places of the slots that are filed under it.
    pub(crate) at: Vec<NodeSet>,
    /// For each node its first position among the steps, or how many these are where it has none.
    pub(crate) ranks: Vec<usize>,
    /// The slots, each at its place.
    pub(crate) slots: Vec<Slot>,
    /// Those that a step joins, one behind the other.
    pub(crate) joined: Vec<Slot>,
}

impl Model for RunLists {
    ghost use Rattle.std.specs.Prelude.{◌≡◌, vec_len, ⊤};
    ghost use Rattle.node_sets.specs.declared.sets.TheConstants.{MOST_NODES};

    ghost Value = { ⊤ };

    ghost view = { λ _. tt };

    ghost invariant = { λ l. (vec_len l.at ≡ MOST_NODES)
        × (vec_len l.ranks ≡ MOST_NODES)
        × (vec_len l.slots ≡ MOST_NODES)
        × (vec_len l.joined ≡ MOST_NODES) };
}

impl RunLists {
    /// Lists for runs of any plan. They take 34 KB.
    ///
    /// # Errors
    ///
    /// Only where memory runs out.
    pub fn reserve(alloc: Global) -> Result<RunLists, AllocError> {
        Ok(RunLists {
            at: vec![in alloc; NodeSet::empty(); MOST_NODES]?,
            ranks: vec![in alloc; 0; MOST_NODES]?,
            slots: vec![in alloc; blank_slot(); MOST_NODES]?,
            joined: vec![in alloc; blank_slot(); MOST_NODES]?,
        })
    }
}

/// A slot without a cell, where none is listed.
fn blank_slot() -> Slot
    ensures { result.len ≡ 0 }
{
    Slot {
        start: 0,
        len: 0,
        scope: NodeSet::empty(),
    }
}

/// The first n of the list.
pub fn before(list: &[Slot], n: usize) -> &[Slot]
    requires { n ≤ length list.now }
    ensures { result.now ≡ take n list.now }
{
    list.split_at(n).0
}
