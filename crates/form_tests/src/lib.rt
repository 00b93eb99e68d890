//! The tests of `tree_checker`, `pure_search`, `rule_solver`, `policy_update`, `info_value`,
//! `control_incentive`, `evidence` and `threshold`: they stand apart since a crate that has tests
//! is proved twice, with them and without.
#![tactic(auto)]

#[cfg(test)]
mod checking;
#[cfg(test)]
mod conditioning;
#[cfg(test)]
mod controlling;
#[cfg(test)]
mod informing;
#[cfg(test)]
mod moving;
#[cfg(test)]
mod samples;
#[cfg(test)]
mod searching;
#[cfg(test)]
mod solving;
#[cfg(test)]
mod updating;
