//! The program as one call, over any shelf and any sinks.
//!
//! [`run`] takes the words of a command line, reads the files that they name, and writes one text.
//! Its contract is the program's: which status it ends with and when, and what `out` and `err`
//! took. The way is the same for each form of words: the words are of an [`app_forms::Form`], a
//! pure function makes the form's text from the file's bytes or refuses, and only then `out` is
//! written. A refusal knows its status and its line for `err`.
#![tactic(auto)]

mod running;

pub use app_forms::{Status, a_text_has_a_diagram_or_a_fault, lines};
pub use running::run;
