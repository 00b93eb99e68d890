//! Sets of node numbers, as one bit for each number, and the nodes that paths of arcs join to those
//! of a set.
#![tactic(auto)]

mod arcs;
mod graphs;
mod paths;
mod sets;
#[cfg(test)]
mod tests;

pub use arcs::ArcSets;
pub use graphs::Graph;
pub use paths::{ancestors, children_of_any, descendants, parents_of_any};
pub use sets::{MOST_NODES, NodeSet};
