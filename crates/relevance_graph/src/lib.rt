//! Which decisions of an influence diagram rely on which (Koller and Milch 2003, s-reachability),
//! and the order of solving that comes of it, or the cycle where there is none.
#![tactic(auto)]

mod laws;
mod placed;
mod relevance;
mod reliance;
mod searches;

pub use laws::{kept_searches_stand, walks_to_goals_stand};
pub use relevance::{Relevance, find_relevance, find_relevance_with};
pub use searches::{KeptSearch, keep_searches};
