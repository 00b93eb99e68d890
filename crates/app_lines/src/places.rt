//! Lines and columns.

ghost use Rattle.std.specs.Prelude.{◌≡◌, ◌≤◌, length};
ghost use Rattle.app_lines.specs.Places.{line_at, column_at};

/// The line and the column of a place of the text, both counted in bytes and from 1. One pass over
/// the text up to the place; it takes no memory.
pub fn place(text: &[u8], at: usize) -> (usize, usize)
    requires { at ≤ length text.now }
    ensures line { result.0 ≡ line_at text.now at }
    ensures column { result.1 ≡ column_at text.now at }
{
    let mut line = 1;
    let mut column = 1;
    for byte in &text[..at] {
        if *byte == b'\n' {
            line += 1;
            column = 1;
        } else {
            column += 1;
        }
    }
    (line, column)
}
