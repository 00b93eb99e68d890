//! The tests of `maid_app` and `maid_io`: they stand apart since a crate that has tests is proved
//! twice, with them and without.
#![tactic(auto)]

#[cfg(test)]
mod devices;
#[cfg(test)]
mod running;
#[cfg(test)]
mod system;
