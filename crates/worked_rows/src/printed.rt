//! Bytes as lines of plain text, and back.

use percent_encoding::{AsciiSet, CONTROLS, percent_decode, percent_encode};
use std::alloc::{AllocError, Global};
use std::io;

// The plain characters that are escaped all the same.
fn escaped() -> AsciiSet {
    CONTROLS.add(b'%').add(b'\\')
}

fn push_line(
    alloc: Global,
    lines: &mut Vec<String>,
    bytes: &[u8],
    end: &str,
) -> Result<(), AllocError> {
    let mut line = String::new(alloc);
    percent_encode(bytes, escaped()).append_to(&mut line)?;
    line.push_str(end)?;
    lines.push(line)?;
    Ok(())
}

/// The lines of the bytes. Bytes after the last end of a line are a line that ends in `\`.
pub fn lines(alloc: Global, bytes: &[u8]) -> Result<Vec<String>, AllocError> {
    let mut lines = Vec::new(alloc);
    let mut line = Vec::new(alloc);
    for &byte in bytes {
        if byte == b'\n' {
            push_line(alloc, &mut lines, &line, "")?;
            line.clear();
        } else {
            line.push(byte)?;
        }
    }
    if !line.is_empty() {
        push_line(alloc, &mut lines, &line, "\\")?;
    }
    Ok(lines)
}

/// The bytes that a line stands for, with the end of the line unless it ends in `\`.
pub fn line_bytes(alloc: Global, line: &str) -> Result<Vec<u8>, AllocError> {
    let mut bytes = Vec::new(alloc);
    match line.split_once('\\') {
        Some((text, "")) => percent_decode(text.as_bytes()).append_to(&mut bytes)?,
        _ => {
            percent_decode(line.as_bytes()).append_to(&mut bytes)?;
            bytes.push(b'\n')?;
        }
    }
    Ok(bytes)
}

/// Prints the lines, each behind the part's name.
pub fn print_lines(rt: &impl Print, part: &str, lines: &[String]) -> io::Result<()> {
    for line in lines {
        println!(rt; "{part} {line}")?;
    }
    Ok(())
}
