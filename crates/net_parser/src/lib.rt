//! Reads the tokens of a diagram's text into a tree.
//!
//! [`parse`] answers the one tree that all of the tokens spell by the grammar, or else their first
//! impossible token: no text of the grammar begins with the tokens up to it, and some text begins
//! with those before it. Where all tokens are possible and still are no text, the fault is at the
//! text's end. Tokens have a tree or a fault, and never both ([`tokens_read_one_way`]).
#![tactic(auto)]

mod attributes;
mod blocks;
mod laws;
mod parsing;
mod reader;
mod terminals;
mod trees;
mod values;
mod words;

pub use attributes::{Attribute, Value};
pub use laws::{blocks_stand_in_their_text, tokens_read_one_way};
pub use parsing::{ParseFault, parse};
pub use trees::{Block, BlockKind, Syntax};
