//! Runs worked rows of the program over devices in memory, and prints what came.
//!
//! The rows are lines of standard input, each of a word and what it is about. Empty lines and
//! those that begin with `#` say nothing.
//!
//! | Line | It |
//! |---|---|
//! | `row NAME` | begins a row, with no words, no files and devices that never fail; it is printed as it is |
//! | `words W ..` | adds words of the command line |
//! | `file NAME` | adds an empty file to the shelf |
//! | `text T` | adds the text T to the last file |
//! | `times N T` | adds the text T to the last file N times |
//! | `shelf fails N`, `out fails N`, `err fails N` | lets the device's Nth call fail |
//! | `shelf piece N`, `out piece N`, `err piece N` | lets a call of the device move at most N bytes |
//! | `show P ..` | runs the row and prints `status N`, and then the parts that P .. name |
//!
//! The parts are `out` and `err`, all lines of a sink, and `first` and `last`, the first and the
//! last line of `out`. A line is printed behind the part's name.
//!
//! A text stands for itself and the end of a line; where it ends in `\`, it stands for what is
//! before the `\` and nothing more. In texts, printed lines too, `%HH` is the byte with these
//! hexadecimal digits: so are `%`, `\` and whatever is no plain ASCII character written.
#![tactic(auto)]

mod printed;
mod rows;

use anyhow::{Context, bail};
use printed::print_lines;
use rows::{Ended, Row};
use std::alloc::Global;
use std::io::{BufRead, BufReader};
use std::mem;

fn show(rt: &impl Print, alloc: Global, ended: &Ended, parts: &str) -> anyhow::Result<()> {
    println!(rt; "status {}", ended.status.code())?;
    let out = printed::lines(alloc, &ended.out)?;
    let err = printed::lines(alloc, &ended.err)?;
    for part in parts.split_whitespace() {
        match part {
            "out" => print_lines(rt, part, &out)?,
            "err" => print_lines(rt, part, &err)?,
            "first" => print_lines(rt, part, &out[..out.len().min(1)])?,
            "last" => print_lines(rt, part, &out[out.len().saturating_sub(1)..])?,
            _ => bail!("no part {part}"),
        }
    }
    Ok(())
}

fn take_line(rt: &impl Print, alloc: Global, row: &mut Row, line: &str) -> anyhow::Result<()> {
    let (word, rest) = line.split_once(' ').unwrap_or((line, ""));
    match word {
        "row" => {
            *row = Row::new(alloc);
            println!(rt; "{line}")?;
            Ok(())
        }
        "show" => {
            let whole = mem::replace(row, Row::new(alloc));
            show(rt, alloc, &whole.run(alloc)?, rest)
        }
        _ => row.set(alloc, word, rest),
    }
}

fn main(rt: HostRuntime) -> anyhow::Result<()> {
    let alloc = rt.alloc();
    let mut row = Row::new(alloc);
    for (i, line) in BufReader::new(alloc, rt.reader())?.lines(alloc).enumerate() {
        let line = line?;
        if !line.is_empty() && !line.starts_with('#') {
            take_line(&rt, alloc, &mut row, &line).context(format_args!("bad line {}", i + 1))?;
        }
    }
    Ok(())
}
