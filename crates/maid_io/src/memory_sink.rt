//! A sink in memory.

ghost use Rattle.std.specs.Prelude.{◌≡◌, ◌≤◌, ◌↔◌, Some, IfOk, IsErr};
ghost use Rattle.std.specs.Io.{WritesAtMost};
ghost use Rattle.std.specs.Io.KnownBytes.{WriteAppends};
ghost use Rattle.maid_io.specs.Device.{HasCause, TakesSome};
ghost use Rattle.maid_io.specs.Memory.{LeavesRoom, WriteFails, new_sink, next_write_len, sink_after_write};

use crate::{Failed, Sink};
use std::alloc::{AllocError, Global};
use std::marker::Model;

/// A sink in memory, with room for so many bytes, that fails at chosen writes.
#[derive(Drop)]
pub struct MemSink {
    taken: Vec<u8>,
    room: usize,
    fails: Vec<u64>,
    piece: usize,
    calls: u64,
    faults: u64,
}

impl Model for MemSink {
    ghost use Rattle.std.specs.Prelude.{◌≤◌, ◌+◌, vec_len, vec_capacity};
    ghost use Rattle.maid_io.specs.Memory.{SinkState};

    ghost Value = { SinkState };

    ghost view = { λ s.
        record {
          taken = s.taken.items;
          room = s.room;
          fails = s.fails.items;
          piece = s.piece;
          calls = s.calls;
          faults = s.faults;
        } };

    ghost invariant = { λ s. (1 ≤ s.piece) × (vec_len s.taken + s.room ≤ vec_capacity s.taken) };
}

impl MemSink {
    /// A sink with room for `room` bytes, which it reserves at once.
    ///
    /// It counts its writes from 1. A write fails exactly where its number is in `fails`, or
    /// where it has bytes to take and no room is left. One write takes at most `piece` bytes.
    pub fn new(
        alloc: Global,
        room: usize,
        fails: Vec<u64>,
        piece: usize,
    ) -> Result<MemSink, AllocError>
        requires { 1 ≤ piece }
        ensures { IfOk result (λ s. s ≡ new_sink room fails.items piece) }
    {
        Ok(MemSink {
            taken: Vec::with_capacity(alloc, room)?,
            room,
            fails,
            piece,
            calls: 0,
            faults: 0,
        })
    }

    /// The bytes taken.
    pub fn bytes(&self) -> &[u8]
        ensures { result.now ≡ self.now.taken }
    {
        &self.taken
    }
}

impl Sink for MemSink {
    ghost taken = { λ s. Some s.taken };

    ghost faults = { λ s. s.faults };

    fn write(&mut self, piece: &[u8]) -> Result<usize, Failed>
        ensures bound { WritesAtMost result piece.now }
        ensures some { TakesSome result piece.now }
        ensures bytes { WriteAppends (Some self.old.taken) (Some self.new.taken) result piece.now }
        ensures cause { HasCause self.old.faults self.new.faults result }

        // Exactly when it fails, and how many bytes it takes otherwise.
        ensures fails { IsErr result ↔ WriteFails self.old piece.now }
        ensures count { IfOk result (λ n. n ≡ next_write_len self.old piece.now) }
        ensures room { LeavesRoom self.old.room self.new.room result }
        ensures rest { self.new ≡ sink_after_write self.old self.new.taken self.new.room result }
    {
        self.calls = self.calls.saturating_add(1);
        let full = !piece.is_empty() && self.room == 0;
        if full || self.fails.contains(&self.calls) {
            self.faults = self.faults.saturating_add(1);
            return Err(Failed);
        }
        let count = piece.len().min(self.piece).min(self.room);
        self.taken.extend_from_slice(&piece[..count]).unwrap();
        self.room -= count;
        Ok(count)
    }
}
