//! Lines of arcs that were removed.

ghost use Rattle.std.specs.Prelude.{◌≡◌, ◌<◌, IfOk, length};
ghost use Rattle.app_lines.specs.Removed.{AreNamed, removed_line, removed_lines};
ghost use Rattle.line_pieces.specs.Pushed.{PushAppends};

use line_pieces::Piece::Text;
use line_pieces::push_pieces;
use maid_model::Names;
use std::alloc::{AllocError, Global};

// Appends the line of an arc.
fn push_removed(out: &mut Vec<u8>, names: &Names, from: usize, to: usize) -> Result<(), AllocError>
    requires from { from < length names.now.nodes }
    requires to { to < length names.now.nodes }
    ensures { PushAppends out.old out.new result (removed_line names.now (from, to)) }
{
    push_pieces(
        out,
        &[
            Text(b"% removed "),
            Text(names.name(from)),
            Text(b" -> "),
            Text(names.name(to)),
            Text(b"\n"),
        ],
    )
}

/// For each arc, which leads from its first node to its second, the line `% removed FROM -> TO`, in
/// their order. A text of a diagram reads over such lines: they are comments.
pub fn removed_lines(
    alloc: Global,
    names: &Names,
    removed: &[(usize, usize)],
) -> Result<Vec<u8>, AllocError>
    requires { AreNamed names.now removed.now }
    ensures { IfOk result (λ text. text.items ≡ removed_lines names.now removed.now) }
{
    let mut text = Vec::new(alloc);
    for arc in removed {
        push_removed(&mut text, names, arc.0, arc.1)?;
    }
    Ok(text)
}
