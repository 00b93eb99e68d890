//! What is known of each node while the tables of a plan are simulated.

ghost use Rattle.std.specs.Prelude.{◌≡◌, ℕ, ◌<◌, [], length, IfOk, OnOk};
ghost use Rattle.node_sets.specs.declared.sets.TheConstants.{MOST_NODES};
ghost use Rattle.node_sets.specs.Sets.{IsIn};
ghost use Rattle.size_precheck.specs.Joints.{counted_in, joint_at, HasPlace, IsPut, IsPutToAll, TakesPlace};

use node_sets::{MOST_NODES, NodeSet};
use std::alloc::{AllocError, Global};

/// A table: the number of the node that it came of, and the nodes of its scope.
#[derive(Clone, Copy)]
pub struct Table {
    pub tag: usize,
    pub scope: NodeSet,
}

/// The live tables that hold a node.
#[derive(Clone, Copy)]
pub struct Joint {
    /// The node's joined set: all nodes of these tables.
    pub set: NodeSet,
    /// The tables' tags.
    pub tables: NodeSet,
}

impl Joint {
    /// No table.
    pub fn empty() -> Joint
        ensures set { (u : ℕ) → IsIn result.set u → ⊥ }
        ensures tables { (x : ℕ) → IsIn result.tables x → ⊥ }
    {
        Joint {
            set: NodeSet::empty(),
            tables: NodeSet::empty(),
        }
    }

    /// Puts a table to them, after the tables `gone` and the nodes `out` have left. The sets are
    /// changed where they stand: a bit that is set in a copy has to be written before the copy can
    /// be read by whole words.
    pub fn put(&mut self, table: &Table, gone: &NodeSet, out: &NodeSet)
        requires { table.now.tag < MOST_NODES }
        ensures { IsPut table.now (IsIn gone.now) (IsIn out.now) self.old self.new }
    {
        self.set = self.set.union(&table.scope).difference(out);
        self.tables = self.tables.difference(gone);
        self.tables.insert(table.tag);
    }
}

/// The live tables that hold a node, and the cells of its joined set.
#[derive(Clone, Copy)]
pub struct Counted {
    pub joint: Joint,
    pub cells: u64,
}

/// What is known of each node that waits, where some tables are live. Of a large diagram few nodes
/// wait, so that those alone have an entry.
#[derive(Drop)]
pub struct Known {
    /// For each node the place of its entry. It does not count for nodes that do not wait.
    pub places: Vec<u8>,
    /// What is known of the nodes that wait, each at its place.
    pub held: Vec<Counted>,
}

/// Puts a table to each of these nodes, after the tables `gone` and the nodes `out` have left.
pub fn put_table(joints: &mut [Joint], at: &NodeSet, table: &Table, gone: &NodeSet, out: &NodeSet)
    requires tag { table.now.tag < MOST_NODES }
    requires within { (y : ℕ) → IsIn at.now y → y < length joints.old }
    ensures len { length joints.new ≡ length joints.old }
    ensures put { IsPutToAll at.now table.now gone.now out.now joints.old joints.new }
    ensures same { (y : ℕ) → (IsIn at.now y → ⊥) → joint_at joints.new y ≡ joint_at joints.old y }
{
    let mut from = 0;
    'nodes: while let Some(y) = at.first_from(from) {
        joints[y].put(table, gone, out);
        from = y + 1;
    }
}

/// Lists in which nothing is known yet: those that are left of an earlier plan, or else new ones
/// with room for so many nodes.
pub fn empty_lists(alloc: Global, left: Option<Known>, count: usize) -> Result<Known, AllocError>
    ensures len { IfOk result (λ known. length known.places.items ≡ MOST_NODES) }
    ensures none { IfOk result (λ known. known.held.items ≡ []) }
{
    if let Some(mut known) = left {
        if known.places.len() == MOST_NODES {
            known.held.clear();
            return Ok(known);
        }
    }
    Ok(Known {
        places: vec![in alloc; 0; MOST_NODES]?,
        held: Vec::with_capacity(alloc, count)?,
    })
}

/// Gives a node the next place, for what is known of it.
pub fn give_place(known: &mut Known, y: usize, counted: Counted) -> Result<(), AllocError>
    requires room { length known.old.held.items < MOST_NODES }
    requires here { y < length known.old.places.items }
    ensures { OnOk result (TakesPlace y counted known.old known.new) }
{
    known.places[y] = known.held.len() as u8;
    known.held.push(counted)?;
    Ok(())
}

/// What is known of a node that waits.
pub fn counted_of(known: &Known, v: usize) -> &Counted
    requires { HasPlace known.now v }
    ensures { result.now ≡ counted_in known.now v }
{
    &known.held[known.places[v] as usize]
}
