//! Active walks in an influence diagram, found by Bayes ball (Shachter 1998): from some nodes, or
//! from an extra parent of a node, and given some nodes, it marks every node to which an active
//! walk leads. Only utilities and nodes with two states or more are on walks.
#![tactic(auto)]

mod goals;
mod marks;
mod nearing;
mod search;
mod waves;

pub use goals::reach_from_goals;
pub use marks::Marks;
pub use nearing::all_reach_goals;
pub use search::{Start, reach, reach_from_any};
