//! The diagram that a text's tree stands for, and the names in it.
//!
//! [`build`] tries the passes over the tree, one after the other, and answers the diagram and the
//! names where they find nothing, or else the first fault. The passes find nothing or one fault,
//! never both ([`a_tree_has_a_fault_or_none`], [`a_tree_has_one_fault`]), and where they find
//! nothing the tree stands for one diagram at most ([`a_tree_stands_for_one_diagram`]).
#![tactic(auto)]

mod attributes;
mod building;
mod conditions;
mod cycles;
mod distinct_names;
mod drafts;
mod faults;
mod labels;
mod laws;
mod leaves;
mod links;
mod nodes;
mod numbers;
mod owner_names;
mod owners;
mod places;
mod plain_tables;
mod potentials;
mod scales;
mod sizes;
mod tables;
mod utilities;
mod weights;

pub use building::build;
pub use faults::{BuildFault, BuildKind, Limit};
pub use laws::{a_tree_has_a_fault_or_none, a_tree_has_one_fault, a_tree_stands_for_one_diagram};
pub use maid_model::Names;
