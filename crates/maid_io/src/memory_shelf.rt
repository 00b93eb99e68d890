//! A shelf of files in memory.

ghost use Rattle.std.specs.Prelude.{◌≡◌, ◌≢◌, ◌≤◌, ◌+◌, ◌^◌, ◌<◌, ◌↔◌, min, Some, length, take, map, IfOk, IfSome, IsErr};
ghost use Rattle.std.specs.Io.{ReadsAtMost};
ghost use Rattle.std.specs.Io.KnownBytes.{ReadConsumes};
ghost use Rattle.maid_io.specs.Device.{Opens, HasCause, CountsGiven, StartIsCounted};
ghost use Rattle.maid_io.specs.Memory.{ShelfState, CallFails, file, left_bytes, IsStarted, IsPlaceOfFile, new_shelf, next_read_len, shelf_after_start, shelf_after_read};

use crate::{Failed, Opened, Shelf};
use std::marker::Model;

/// A shelf in memory, that fails at chosen calls.
#[derive(Drop)]
pub struct MemShelf {
    files: Vec<(String, Vec<u8>)>,
    started: Option<usize>,
    given: usize,
    fails: Vec<u64>,
    piece: usize,
    calls: u64,
    faults: u64,
    absences: u64,
}

impl Model for MemShelf {
    ghost use Rattle.std.specs.Prelude.{◌≤◌, map};
    ghost use Rattle.maid_io.specs.Memory.{ShelfState, file, left_bytes, IsStarted};

    ghost Value = { ShelfState };

    ghost view = { λ s. record {
      files = map file s.files.items;
      left = left_bytes (map file s.files.items) s.started s.given;
      fails = s.fails.items;
      piece = s.piece;
      calls = s.calls;
      counts = record { faults = s.faults; absences = s.absences; given = s.given };
    } };

    ghost invariant = { λ s. (1 ≤ s.piece) × IsStarted (map file s.files.items) s.started s.given };
}

// The place of the first file with that name.
fn find(files: &[(String, Vec<u8>)], name: &str) -> Option<usize>
    ensures bytes { IsPlaceOfFile (map file files.now) name.now result }
    ensures within { IfSome result (λ i. i < length files.now) }
{
    for (i, entry) in files.iter().enumerate() {
        if entry.0.as_str() == name {
            return Some(i);
        }
    }
    None
}

// What is left of the started file.
fn bytes_left(files: &[(String, Vec<u8>)], started: Option<usize>, given: usize) -> &[u8]
    requires { IsStarted (map file files.now) started given }
    ensures left { result.now ≡ left_bytes (map file files.now) started given }
    ensures fits { given + length result.now < 2 ^ 64 }
{
    match started {
        Some(i) => &files[i].1[given..],
        None => &[],
    }
}

// Copies the first bytes of the rest, as many as fit and at most `piece`.
fn copy_front(rest: &[u8], buf: &mut [u8], piece: usize) -> usize
    ensures count { result ≡ min (length rest.now) (min (length buf.old) piece) }
    ensures copied { take result buf.new ≡ take result rest.now }
{
    let count = rest.len().min(buf.len()).min(piece);
    buf[..count].copy_from_slice(&rest[..count]);
    count
}

impl MemShelf {
    /// A shelf of these files, each a name and its bytes. Of two files with one name the first
    /// one counts.
    ///
    /// It counts its starts and reads together, from 1. A call fails exactly where its number is
    /// in `fails`. One read gives at most `piece` bytes.
    pub fn new(files: Vec<(String, Vec<u8>)>, fails: Vec<u64>, piece: usize) -> MemShelf
        requires { 1 ≤ piece }
        ensures { result ≡ new_shelf (map file files.items) fails.items piece }
    {
        MemShelf {
            files,
            started: None,
            given: 0,
            fails,
            piece,
            calls: 0,
            faults: 0,
            absences: 0,
        }
    }
}

impl Shelf for MemShelf {
    ghost list = { λ s. Some s.files };

    ghost left = { λ s. Some s.left };

    ghost given = { λ s. s.counts.given };

    ghost faults = { λ s. s.counts.faults };

    ghost absences = { λ s. s.counts.absences };

    fn start(&mut self, name: &str) -> Opened
        ensures opened { Opens result (Some self.old.files) name.now (Some self.new.left) }
        ensures given { self.new.counts.given ≡ 0 }
        ensures cause { StartIsCounted self.old.counts self.new.counts result }
        ensures list { Some self.new.files ≡ Some self.old.files }

        // Exactly when it fails.
        ensures fails { (result ≡ Opened.Failed) ↔ CallFails self.old }
        ensures memory { result ≢ Opened.NoMemory }
        ensures rest { self.new ≡ shelf_after_start self.old self.new.left result }
    {
        self.calls = self.calls.saturating_add(1);
        self.started = None;
        self.given = 0;
        if self.fails.contains(&self.calls) {
            self.faults = self.faults.saturating_add(1);
            return Opened::Failed;
        }
        self.started = find(&self.files, name);
        if self.started.is_none() {
            self.absences = self.absences.saturating_add(1);
            return Opened::Absent;
        }
        Opened::Found
    }

    fn read(&mut self, buf: &mut [u8]) -> Result<usize, Failed>
        ensures bound { ReadsAtMost result buf.new }
        ensures bytes { ReadConsumes (Some self.old.left) (Some self.new.left) result buf.new }
        ensures given { CountsGiven self.old.counts.given self.new.counts.given result }
        ensures cause { HasCause self.old.counts.faults self.new.counts.faults result }
        ensures absences { self.old.counts.absences ≤ self.new.counts.absences }
        ensures list { Some self.new.files ≡ Some self.old.files }

        // Exactly when it fails, and how many bytes it gives otherwise.
        ensures fails { IsErr result ↔ CallFails self.old }
        ensures count { IfOk result (λ n. n ≡ next_read_len self.old buf.old) }
        ensures rest { self.new ≡ shelf_after_read self.old self.new.left result }
    {
        self.calls = self.calls.saturating_add(1);
        if self.fails.contains(&self.calls) {
            self.faults = self.faults.saturating_add(1);
            return Err(Failed);
        }
        let rest = bytes_left(&self.files, self.started, self.given);
        let count = copy_front(rest, buf, self.piece);
        self.given += count;
        Ok(count)
    }
}
