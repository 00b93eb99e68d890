//! The check of a finished report: whether its order, its choices, its marks and its numbers are
//! right, by sums over worlds, each by one walk down the nodes. Beside the model, reduced fractions
//! and the relevance graph it shares nothing with the solver.
#![tactic(auto)]

mod agent_sums;
mod bases;
mod checking;
mod counting;
mod decisions;
mod endings;
mod factors;
mod gains;
mod lasts;
mod laws;
mod orders;
mod parts;
mod rows;
mod settings;
mod strides;
mod verdicts;
mod walks;

pub use agent_sums::AgentSum;
pub use checking::check;
pub use counting::leaves;
pub use gains::{gain_over, mass_of, utilities_of};
pub use laws::{accepted_reports_are_sound, verdicts_are_one};
pub use parts::rules_in_part;
pub use verdicts::{Cause, Verdict};
