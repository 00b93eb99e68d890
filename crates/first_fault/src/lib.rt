//! The algebra of "the first that applies": a table of faults, row by row, in words that read
//! aloud, and what code answers of it. The lemmas in proofs/ say what the words keep; crates above
//! cite them.
#![tactic(auto)]

mod tables;

pub use tables::{
    a_table_finds_its_first_fault, a_table_has_one_outcome, answers_tell_the_first_fault,
    repeats_are_found_in_turn, stages_come_in_turn,
};
