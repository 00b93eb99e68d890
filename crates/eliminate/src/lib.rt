//! Plans of elimination, and sums of any tables within limits, run over the tables of one
//! workspace.
#![tactic(auto)]

mod counts;
mod firsts;
mod laws;
mod lists;
mod places;
mod runs;
mod sums;

pub use counts::Limits;
pub use laws::first_numbers_fit;
pub use lists::RunLists;
pub use runs::{release, run_plan};
pub use sums::sum_tables;
