//! Lines of names.

ghost use Rattle.std.specs.Prelude.{◌≡◌, ◌<◌, All, IfOk, length};
ghost use Rattle.maid_model.specs.Reports.{names_line};

use line_pieces::push_names;
use maid_model::Names;
use std::alloc::{AllocError, Global};

/// The head, then each node's name after one space, and the line's end.
pub fn list_line(
    alloc: Global,
    names: &Names,
    head: &[u8],
    list: &[usize],
) -> Result<Vec<u8>, AllocError>
    requires { All (λ v. v < length names.now.nodes) list.now }
    ensures { IfOk result (λ text. text.items ≡ names_line head.now names.now list.now) }
{
    let mut text = Vec::from_slice(alloc, head)?;
    push_names(&mut text, names, list)?;
    text.push(b'\n')?;
    Ok(text)
}
