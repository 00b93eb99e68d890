//! How far one probability of a diagram may move while the answered rules hold: a state's
//! probability in one row of a chance node's table goes to any fraction, the other states of the
//! row share the rest in the proportion of their weights, and the rules hold where in no row of any
//! decision a state has a greater gain than the answer's choice.
//!
//! ```rust
//! use relevance_graph::find_relevance;
//! use rule_solver::solve_by_relevance;
//! use threshold::span;
//!
//! let relevance = find_relevance(alloc, &diagram)?;
//! let solved = solve_by_relevance(alloc, &diagram, &relevance)?;
//! let interval = span(alloc, &diagram, &relevance, &solved, node, state, row)?;
//! ```
#![tactic(auto)]

mod answers;
mod control;
mod ends;
mod faults;
mod held;
mod interval;
mod weights;

pub use faults::SpanFault;
pub use interval::{Interval, span};
