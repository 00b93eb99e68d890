//! A diagram under evidence: a chance node that descends from no decision is known to have one of
//! its states, and every decision sees it. The answer is that of the diagram in which every
//! decision sees the node, and each agent's expected utility is conditional on the state.
//!
//! ```rust
//! use evidence::given;
//!
//! let conditioned = given(alloc, &diagram, node, state)?;
//! let worth = conditioned.gains[agent];
//! ```
#![tactic(auto)]

mod conditions;
mod faults;
mod limits;
mod measures;
mod sights;
mod stakes;
mod sums;

pub use conditions::{Conditioned, given};
pub use faults::GivenFault;
