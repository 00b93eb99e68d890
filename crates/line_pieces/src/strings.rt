//! Strings between quotes.

ghost use Rattle.maid_model.specs.Reports.{escaped, quoted};
ghost use Rattle.line_pieces.specs.Pushed.{PushAppends};

use std::alloc::AllocError;

// Appends a byte, and a backslash before a quote or a backslash.
fn push_escaped(out: &mut Vec<u8>, byte: u8) -> Result<(), AllocError>
    ensures { PushAppends out.old out.new result (escaped byte) }
{
    if byte == b'"' || byte == b'\\' {
        out.push(b'\\')?;
    }
    out.push(byte)?;
    Ok(())
}

/// Appends a label or an agent's name between quotes, with a backslash before each quote and
/// backslash in it.
pub fn push_quoted(out: &mut Vec<u8>, bytes: &[u8]) -> Result<(), AllocError>
    ensures { PushAppends out.old out.new result (quoted bytes.now) }
{
    out.push(b'"')?;
    for byte in bytes {
        push_escaped(out, *byte)?;
    }
    out.push(b'"')?;
    Ok(())
}
