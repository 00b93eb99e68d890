//! What a walk looks at and does not change.

use maid_model::{Diagram, Profile};
use node_sets::NodeSet;

/// What the last steps of a walk look at in a world, or how much further that is for each further
/// state of a node.
#[derive(Clone, Copy, Drop)]
pub(crate) struct Places {
    /// The place among the factors of the last node that weighs something.
    pub factor: usize,
    /// The row of the utility after it.
    pub row: usize,
    /// The cell of the decision left out.
    pub cell: usize,
}

/// A node that weighs something, right before the last one that does.
#[derive(Clone, Copy, Drop)]
pub(crate) struct Before {
    pub node: usize,
    /// How much further the last node's places are for each further state of this one.
    pub steps: Places,
}

/// A node that weighs something, with one marked utility after it, at the end of a walk.
#[derive(Clone, Copy, Drop)]
pub(crate) struct Last {
    pub node: usize,
    pub utility: usize,
    /// How many rows further the utility's row is for each further state of the node.
    pub row_step: usize,
    /// How many cells further the cell of the decision left out is.
    pub cell_step: usize,
    /// The node before it, where that weighs something too.
    pub before: Option<Before>,
}

/// A diagram under a profile, and what is summed over its worlds.
#[derive(Drop)]
pub(crate) struct Setting<'a> {
    pub diagram: &'a Diagram,
    pub profile: &'a Profile,
    /// The factors of each node.
    pub factors: &'a [Vec<u128>],
    /// The utilities that count.
    pub marks: &'a NodeSet,
    /// The decision whose cells are told apart, without its rule; the count of nodes where there is
    /// none.
    pub left_out: usize,
    /// The utilities that come last.
    pub tail: &'a [usize],
    /// In place of the tail, where it is one marked utility: the nodes before it with that utility.
    pub last: Option<Last>,
}
