//! What control of a chance node is worth to an agent, and which incentives the agent has there
//! (Everitt et al. 2021): the optimum where it decides at the node itself less the optimum before,
//! and the paths by which the node bears on the agent's decisions and utilities. The other agents
//! keep to the answered rules.
#![tactic(auto)]

mod finding;
mod lines;
mod paths;

pub use lines::{ControlLine, control};
pub use optimum_gap::Found as Controlled;
