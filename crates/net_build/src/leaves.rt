//! The leaves of a value.

ghost use Rattle.std.specs.Prelude.{◌≡◌, IfOk};
ghost use Rattle.net_parser.specs.Owned.{leaves};
ghost use Rattle.net_parser.specs.Views.{value_tree};

use net_lexer::Token;
use net_parser::Value;
use std::alloc::{AllocError, Global};

/// The leaves of the value, from left to right.
pub fn leaves(alloc: Global, value: Value<'_>) -> Result<Vec<Token>, AllocError>
    ensures { IfOk result (λ tokens. tokens.items ≡ leaves (value_tree value.entry)) }
{
    let mut tokens = Vec::new(alloc);
    value.push_leaves(&mut tokens)?;
    Ok(tokens)
}
