//! What information is worth to an agent before it decides (Everitt et al. 2021): for each node
//! that one of its decisions sees or might see, the optimum with that arc less the optimum without
//! it. The other agents keep to the answered rules.
#![tactic(auto)]

mod arcs;
mod finding;
mod lines;
mod sharing;

pub use lines::{InfoLine, info};
pub use optimum_gap::Found;
