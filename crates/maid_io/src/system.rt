//! The edge to the system: its files as a shelf, its writers as sinks.

ghost use Rattle.std.specs.Prelude.{None, ◌≡◌, ◌≤◌};
ghost use Rattle.std.specs.Io.{ReadsAtMost, WritesAtMost};
ghost use Rattle.std.specs.Io.KnownBytes.{ReadConsumes, WriteAppends};
ghost use Rattle.maid_io.specs.Count.{counts_after_start, counts_after_read, faults_after_write};
ghost use Rattle.maid_io.specs.Device.{Opens, HasCause, StartIsCounted, CountsGiven, TakesSome};
ghost use Rattle.maid_io.specs.System.{refusal_of};

use crate::{Failed, Opened, Shelf, Sink};
use std::fs;
use std::io::{ErrorKind, Read, Write};
use std::marker::Model;
use std::rt::Files;

/// The files of the system, by their paths, of which contracts see the counts. It tells no bytes.
///
/// A folder can be started, and then its first read fails.
pub struct DirShelf<'a, R: Files> {
    rt: &'a R,
    started: Option<R::File>,
    given: u64,
    faults: u64,
    absences: u64,
}

impl<'a, R: Files> Model for DirShelf<'a, R> {
    ghost use Rattle.maid_io.specs.Count.{ShelfCounts};

    ghost Value = { ShelfCounts };

    ghost view = { λ s. record { faults = s.faults; absences = s.absences; given = s.given } };
}

impl<R: Files> Drop for DirShelf<'_, R> {
    fn drop(self) {
        let DirShelf {
            rt: _,
            started: _,
            given: _,
            faults: _,
            absences: _,
        } = self;
    }
}

impl<'a, R: Files> DirShelf<'a, R> {
    /// The files that `rt` reaches, with no file started and nothing counted.
    pub fn new(rt: &'a R) -> DirShelf<'a, R>
        ensures { result ≡ record { faults = 0; absences = 0; given = 0 } }
    {
        DirShelf {
            rt,
            started: None,
            given: 0,
            faults: 0,
            absences: 0,
        }
    }
}

// The answer to a start whose opening was refused.
fn refusal(kind: ErrorKind) -> Opened
    ensures { result ≡ refusal_of kind }
{
    match kind {
        ErrorKind::NotFound => Opened::Absent,
        ErrorKind::OutOfMemory => Opened::NoMemory,
        _ => Opened::Failed,
    }
}

impl<R: Files> Shelf for DirShelf<'_, R> {
    ghost list = { λ _. None };

    ghost left = { λ _. None };

    ghost given = { λ s. s.given };

    ghost faults = { λ s. s.faults };

    ghost absences = { λ s. s.absences };

    fn start(&mut self, name: &str) -> Opened
        ensures opened { Opens result None name.now None }
        ensures given { self.new.given ≡ 0 }
        ensures cause { StartIsCounted self.old self.new result }
        ensures counts { self.new ≡ counts_after_start result self.old }
    {
        self.started = None;
        self.given = 0;
        let opened = match fs::open(self.rt, name) {
            Ok(file) => {
                self.started = Some(file);
                Opened::Found
            }
            Err(error) => refusal(error.kind()),
        };
        match opened {
            Opened::Absent => self.absences = self.absences.saturating_add(1),
            Opened::Failed => self.faults = self.faults.saturating_add(1),
            Opened::Found | Opened::NoMemory => {}
        }
        opened
    }

    fn read(&mut self, buf: &mut [u8]) -> Result<usize, Failed>
        ensures bound { ReadsAtMost result buf.new }
        ensures bytes { ReadConsumes None None result buf.new }
        ensures given { CountsGiven self.old.given self.new.given result }
        ensures cause { HasCause self.old.faults self.new.faults result }
        ensures absences { self.old.absences ≤ self.new.absences }
        ensures counts { self.new ≡ counts_after_read result self.old }
    {
        let read = match &mut self.started {
            Some(file) => file.read(buf),
            None => Ok(0),
        };
        match read {
            Ok(count) => {
                self.given = self.given.saturating_add(count as u64);
                Ok(count)
            }
            Err(_) => {
                self.faults = self.faults.saturating_add(1);
                Err(Failed)
            }
        }
    }
}

/// A writer of the system, of which contracts see the count of its faults. It tells no bytes.
#[derive(Drop)]
pub struct WriteSink<W: Write + Drop> {
    writer: W,
    faults: u64,
}

impl<W: Write + Drop> Model for WriteSink<W> {
    ghost use Rattle.std.specs.Prelude.{ℕ};

    ghost Value = { ℕ };

    ghost view = { λ s. s.faults };
}

impl<W: Write + Drop> WriteSink<W> {
    /// A sink that writes to `writer`, with no fault counted.
    pub fn new(writer: W) -> WriteSink<W>
        ensures { result ≡ 0 }
    {
        WriteSink { writer, faults: 0 }
    }
}

impl<W: Write + Drop> Sink for WriteSink<W> {
    ghost taken = { λ _. None };

    ghost faults = { λ faults. faults };

    /// A write that takes nothing of a piece that isn't empty is a fault.
    fn write(&mut self, piece: &[u8]) -> Result<usize, Failed>
        ensures bound { WritesAtMost result piece.now }
        ensures some { TakesSome result piece.now }
        ensures bytes { WriteAppends None None result piece.now }
        ensures cause { HasCause self.old self.new result }
        ensures counts { self.new ≡ faults_after_write result self.old }
    {
        match self.writer.write(piece) {
            Ok(count) if count > 0 || piece.is_empty() => Ok(count),
            _ => {
                self.faults = self.faults.saturating_add(1);
                Err(Failed)
            }
        }
    }
}
