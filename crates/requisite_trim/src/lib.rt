//! Arcs that a decision does not need (Lauritzen and Nilsson 2001): which parents of a decision are
//! requisite, which other nodes would be, and the diagram without the arcs from those that are not.
#![tactic(auto)]

mod looks;
mod requisite_nodes;
mod searches;
mod trimming;

pub use requisite_nodes::RequisiteNodes;
pub use searches::requisite;
pub use trimming::{Trimmed, trim};
