//! The tests of `net_lexer`, `net_parser`, `weight_scale`, `net_build`, `net_print`, `report_text`
//! and `app_lines`: they stand apart since a crate that has tests is proved twice, with them and
//! without.
#![tactic(auto)]

#[cfg(test)]
mod building;
#[cfg(test)]
mod lexing;
#[cfg(test)]
mod lines;
#[cfg(test)]
mod numbers;
#[cfg(test)]
mod parsing;
#[cfg(test)]
mod printing;
#[cfg(test)]
mod reports;
#[cfg(test)]
mod samples;
