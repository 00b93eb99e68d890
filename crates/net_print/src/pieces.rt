//! The small pieces of a line.

ghost use Rattle.net_print.specs.Parts.{gap};
ghost use Rattle.line_pieces.specs.Pushed.{PushAppends};

use std::alloc::AllocError;

/// Appends one space, but nothing before the first of several pieces.
pub fn push_gap(out: &mut Vec<u8>, place: usize) -> Result<(), AllocError>
    ensures { PushAppends out.old out.new result (gap place) }
{
    if place > 0 {
        out.push(b' ')?;
    }
    Ok(())
}
