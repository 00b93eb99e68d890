//! What an edit of a diagram is worth to an agent who decides alone in it: the difference of two
//! optima, exactly.
//!
//! The optimum before the edit is given, as the answer of the diagram tells it; only the edited
//! diagram is solved.
#![tactic(auto)]

mod baselines;
mod differences;
mod found;
mod laws;

pub use baselines::Baseline;
pub use found::Found;
pub use laws::{answers_are_baselines, edits_keep_scopes};
