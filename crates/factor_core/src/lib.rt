//! Tables over scopes, one behind another in one workspace: what each call makes of them is said by
//! the tables of `ring_sums`, and a slot is seen as one of those.
#![tactic(auto)]

mod appending;
mod copies;
mod firsts;
mod joins;
mod narrow;
mod orders;
mod products;
mod reading;
mod reorders;
mod rows;
mod setting;
mod short_walks;
mod sizes;
mod slots;
mod sources;
mod tables;
mod walks;
mod workspaces;
mod writes;

pub use slots::{Slot, Strip, united_scope};
pub use workspaces::Workspace;
