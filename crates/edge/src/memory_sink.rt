ghost use Rattle.std.specs.Prelude.{◌≡◌, ◌<◌, ◌-◌, ◌↔◌, min, Some, length, [], IfOk, IsErr};
ghost use Rattle.std.specs.Io.KnownBytes.{WriteAppends};
ghost use Rattle.edge.specs.Faults.{HasCause};
ghost use Rattle.edge.specs.Streams.{TakesSome};

use crate::{Failed, NoMemory, Sink};
use std::alloc::Global;
use std::marker::Model;

/// A sink into memory that is reserved when it is made. Contracts see it as a `Held` of the bytes
/// that it took.
#[derive(Debug, Drop)]
pub struct MemorySink {
    held: Vec<u8>,
    room: usize,
    piece: usize,
    faults: u64,
}

impl Model for MemorySink {
    ghost use Rattle.std.specs.Prelude.{◌≤◌, ◌<◌, vec_len, vec_capacity};
    ghost use Rattle.edge.specs.Held.{Held};

    ghost Value = { Held };

    ghost view = { λ s. record {
      taken = s.held.items;
      room = s.room;
      piece = s.piece;
      faults = s.faults;
    } };

    ghost invariant = { λ s. (vec_len s.held ≤ s.room) × (s.room ≤ vec_capacity s.held) ×
        (0 < s.piece) };
}

impl MemorySink {
    /// A sink with room for `room` bytes that takes at most `piece` bytes at a write; `NoMemory`
    /// for want of memory.
    pub fn new(alloc: Global, room: usize, piece: usize) -> Result<Self, NoMemory>
        requires { 0 < piece }
        ensures { IfOk result
            (λ s. s ≡ record { taken = []; room = room; piece = piece; faults = 0 }) }
    {
        Ok(MemorySink {
            held: Vec::with_capacity(alloc, room)?,
            room,
            piece,
            faults: 0,
        })
    }

    /// The bytes that were taken.
    pub fn as_slice(&self) -> &[u8]
        ensures { result.now ≡ self.now.taken }
    {
        &self.held
    }
}

impl Sink for MemorySink {
    ghost taken = { λ s. Some s.taken };

    ghost faults = { λ s. s.faults };

    fn write(&mut self, piece: &[u8]) -> Result<usize, Failed>
        ensures count { TakesSome result piece.now }
        ensures bytes { WriteAppends (Some self.old.taken) (Some self.new.taken) result piece.now }
        ensures cause { HasCause self.old.faults self.new.faults result }

        // Which write fails, and how much another takes.
        ensures fails { IsErr result ↔ ((0 < length piece.now) ×
            (length self.old.taken ≡ self.old.room)) }
        ensures takes { IfOk result
            (λ n. n ≡ min (length piece.now)
            (min self.old.piece (self.old.room - length self.old.taken))) }
        ensures room { self.new.room ≡ self.old.room }
        ensures piece { self.new.piece ≡ self.old.piece }
    {
        let count = piece.len().min(self.piece.min(self.room - self.held.len()));
        if count == 0 && !piece.is_empty() {
            self.faults = self.faults.saturating_add(1);
            return Err(Failed);
        }
        // The room was reserved, so this takes no memory.
        let Ok(()) = self.held.extend_from_slice(&piece[..count]) else {
            unreachable!()
        };
        Ok(count)
    }
}
