//! A diagram and its names, printed as a text that reads back as the same diagram and names.
#![tactic(auto)]

mod blocks;
mod laws;
mod numbers;
mod pieces;
mod potentials;
mod printing;

pub use laws::{commented_texts_read_back, printed_texts_read_back};
pub use printing::print;
