//! The kinds of cell of a table. Each kind is added and multiplied by the laws of numbers, and each
//! cell has a size, from which a caller that knows the laws alone sees that a result fits.
//! `specs/Rings` has the laws, and no other crate defines a ring.
#![tactic(auto)]

mod boths;
mod cans;
mod cells;
mod gains;
mod laws;
mod masses;
mod pairs;
mod small_gains;
mod small_masses;

pub use boths::Both;
pub use cans::Can;
pub use cells::Cell;
pub use gains::Gain;
pub use laws::{four_rings, kinds_are_numbers};
pub use masses::Mass;
pub use pairs::RunPair;
pub use small_gains::SmallGain;
pub use small_masses::SmallMass;
