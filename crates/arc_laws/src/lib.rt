//! Laws of arcs into decisions and of control over chance nodes, and of what they are worth: each
//! is the contract of a function without parameters and with an empty body.
#![tactic(auto)]

mod arcs;
mod control;
mod requisite;
mod worths;

pub use arcs::{arc_removed, trimmed_optimum};
pub use control::{controlled, rule_unreached};
pub use requisite::unneeded_parent;
pub use worths::{answer_is_optimum, arc_value, control_value, one_value};
