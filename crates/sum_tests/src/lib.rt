//! The tests of `size_precheck`, `factor_core` and `eliminate`: they stand apart since a crate that
//! has tests is proved twice, with them and without.
#![tactic(auto)]

#[cfg(test)]
mod planning;
#[cfg(test)]
mod plans;
#[cfg(test)]
mod tables;
