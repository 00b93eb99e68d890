//! A worked row: a command line, files, and devices in memory.

ghost use Rattle.std.specs.Prelude.{◌≤◌};

use crate::printed::line_bytes;
use anyhow::{Context, bail, ensure};
use maid_app::Status;
use maid_io::{MemShelf, MemSink};
use std::alloc::{AllocError, Global};

// The most bytes that a sink takes.
const ROOM: usize = 4_194_304;

#[derive(Drop)]
struct Device {
    // The numbers of the calls that fail.
    fails: Vec<u64>,
    // The most bytes of a call.
    piece: usize,
    ghost moves: { 1 ≤ piece },
}

impl Device {
    fn new(alloc: Global) -> Device {
        Device {
            fails: Vec::new(alloc),
            piece: usize::MAX,
        }
    }

    // Takes `fails N` or `piece N`.
    fn set(&mut self, text: &str) -> anyhow::Result<()> {
        let (word, number) = text.split_once(' ').context("no number")?;
        match word {
            "fails" => self.fails.push(number.parse::<u64>()?)?,
            "piece" => {
                let piece = number.parse::<usize>()?;
                ensure!(piece > 0, "an empty piece");
                self.piece = piece;
            }
            _ => bail!("no device does {word}"),
        }
        Ok(())
    }
}

/// What a row came to.
#[derive(Drop)]
pub struct Ended {
    /// How the run ended.
    pub status: Status,
    /// The bytes that `out` took.
    pub out: Vec<u8>,
    /// The bytes that `err` took.
    pub err: Vec<u8>,
}

/// A row as far as its lines were read.
#[derive(Drop)]
pub struct Row {
    words: Vec<String>,
    files: Vec<(String, Vec<u8>)>,
    shelf: Device,
    out: Device,
    err: Device,
}

impl Row {
    /// A row with no words, no files and devices that never fail.
    pub fn new(alloc: Global) -> Row {
        Row {
            words: Vec::new(alloc),
            files: Vec::new(alloc),
            shelf: Device::new(alloc),
            out: Device::new(alloc),
            err: Device::new(alloc),
        }
    }

    // Adds the line to the last file so many times.
    fn add(&mut self, alloc: Global, times: u64, line: &str) -> anyhow::Result<()> {
        let bytes = line_bytes(alloc, line)?;
        let (_, content) = self.files.last_mut().context("no file")?;
        for _ in 0..times {
            content.extend_from_slice(&bytes)?;
        }
        Ok(())
    }

    /// Takes one line: its first word, and the rest.
    pub fn set(&mut self, alloc: Global, word: &str, rest: &str) -> anyhow::Result<()> {
        match word {
            "words" => {
                for word in rest.split_whitespace() {
                    self.words.push(word.to_string(alloc)?)?;
                }
                Ok(())
            }
            "file" => {
                let name = rest.to_string(alloc)?;
                self.files.push((name, Vec::new(alloc)))?;
                Ok(())
            }
            "text" => self.add(alloc, 1, rest),
            "times" => {
                let (times, line) = rest.split_once(' ').context("no text")?;
                self.add(alloc, times.parse::<u64>()?, line)
            }
            "shelf" => self.shelf.set(rest),
            "out" => self.out.set(rest),
            "err" => self.err.set(rest),
            _ => bail!("no line begins with {word}"),
        }
    }

    /// Runs the row.
    pub fn run(self, alloc: Global) -> Result<Ended, AllocError> {
        let mut shelf = MemShelf::new(self.files, self.shelf.fails, self.shelf.piece);
        let mut out = MemSink::new(alloc, ROOM, self.out.fails, self.out.piece)?;
        let mut err = MemSink::new(alloc, ROOM, self.err.fails, self.err.piece)?;
        let status = maid_app::run(alloc, &self.words, &mut shelf, &mut out, &mut err);
        Ok(Ended {
            status,
            out: out.bytes().to_vec(alloc)?,
            err: err.bytes().to_vec(alloc)?,
        })
    }
}
