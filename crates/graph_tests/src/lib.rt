//! The tests of `diagram_graph`, `relevance_graph` and `requisite_trim`: they stand apart since a
//! crate that has tests is proved twice, with them and without.
#![tactic(auto)]

#[cfg(test)]
mod edits;
#[cfg(test)]
mod reliance;
#[cfg(test)]
mod trimming;
