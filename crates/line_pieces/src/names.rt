//! Names of nodes.

ghost use Rattle.std.specs.Prelude.{◌<◌, All, length, map};
ghost use Rattle.maid_model.specs.Names.{name_of};
ghost use Rattle.maid_model.specs.Reports.{spaced};
ghost use Rattle.line_pieces.specs.Pushed.{PushAppends};

use maid_model::Names;
use std::alloc::AllocError;

/// Appends each node's name after one space.
pub fn push_names(out: &mut Vec<u8>, names: &Names, list: &[usize]) -> Result<(), AllocError>
    requires { All (λ v. v < length names.now.nodes) list.now }
    ensures { PushAppends out.old out.new result (spaced (map (name_of names.now) list.now)) }
{
    for node in list {
        out.push(b' ')?;
        out.extend_from_slice(names.name(*node))?;
    }
    Ok(())
}
