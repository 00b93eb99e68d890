//! What the sum of several goals of a decision is, when they are summed together in pairs of a mass
//! and a gain.
#![tactic(auto)]

mod joint_laws;

pub use joint_laws::{goals_sum_together, joint_keeps_sizes, joint_scopes};
