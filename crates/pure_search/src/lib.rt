//! The first pure equilibrium of a diagram, whether or not its decisions rely on one another in a
//! cycle: the gains of all pure profiles stand in a table, and a profile is an equilibrium where
//! each agent's entry is the greatest of those that agree with it on the others' choices.
#![tactic(auto)]

mod answering;
mod counting;
mod faults;
mod following;
mod found;
mod games;
mod keys;
mod marks;
mod odometer;
mod searching;
mod tables;
mod worths;

pub use faults::PureFault;
pub use found::Pure;
pub use searching::first_pure;
