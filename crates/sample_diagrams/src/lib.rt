//! Small diagrams as tests write them down: a list of nodes whose parents and cells are literals.
#![tactic(auto)]

mod samples;

pub use samples::{Sample, chance, decision, sample_diagram, shared_utility, utility};
