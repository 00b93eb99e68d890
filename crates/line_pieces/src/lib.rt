//! The pieces of which lines are made: whole numbers, fractions, strings between quotes, and nodes'
//! names. They are appended to bytes that stand already, one at a time or several in one call, or
//! joined to a new text; what bytes hold after a refusal is not said.
#![tactic(auto)]

mod names;
mod numbers;
mod pieces;
mod strings;

pub use names::push_names;
pub use numbers::push_number;
pub use pieces::{Piece, joined, push_pieces};
pub use strings::push_quoted;

#[cfg(test)]
mod tests;
