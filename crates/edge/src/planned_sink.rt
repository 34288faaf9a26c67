ghost use Rattle.std.specs.Prelude.{◌≡◌, ◌<◌, ◌-◌, ◌↔◌, ◌⊎◌, min, Some, length, [], IfOk, IsErr};
ghost use Rattle.std.specs.Io.KnownBytes.{WriteAppends};
ghost use Rattle.edge.specs.Faults.{HasCause};
ghost use Rattle.edge.specs.Planned.{next_call, FailsNext};
ghost use Rattle.edge.specs.Streams.{TakesSome};

use crate::{Failed, MemorySink, NoMemory, Sink};
use std::alloc::Global;
use std::marker::Model;

/// A sink into memory that is reserved when it is made, and whose writes with some numbers fail.
/// Contracts see it as a `PlannedOut` of the bytes that it took.
#[derive(Debug, Drop)]
pub struct PlannedSink {
    sink: MemorySink,
    writes: u64,
    failing: Vec<u64>,
    faults: u64,
}

impl Model for PlannedSink {
    ghost use Rattle.edge.specs.Planned.{PlannedOut};

    ghost Value = { PlannedOut };

    ghost view = { λ s. record {
      taken = s.sink.taken;
      room = s.sink.room;
      piece = s.sink.piece;
      writes = s.writes;
      failing = s.failing.items;
      faults = s.faults;
    } };
}

impl MemorySink {
    /// A sink with room for `room` bytes that takes at most `piece` bytes at a write, and whose
    /// writes with the numbers `faults`, counted from 1, fail beside those that find no room;
    /// `NoMemory` for want of memory.
    pub fn with_faults(
        alloc: Global,
        room: usize,
        piece: usize,
        faults: Vec<u64>,
    ) -> Result<PlannedSink, NoMemory>
        requires { 0 < piece }
        ensures { IfOk result
            (λ s. s ≡ record {
              taken = [];
              room = room;
              piece = piece;
              writes = 0;
              failing = faults.items;
              faults = 0;
            }) }
    {
        Ok(PlannedSink {
            sink: MemorySink::new(alloc, room, piece)?,
            writes: 0,
            failing: faults,
            faults: 0,
        })
    }
}

impl PlannedSink {
    /// The bytes that were taken.
    pub fn as_slice(&self) -> &[u8]
        ensures { result.now ≡ self.now.taken }
    {
        self.sink.as_slice()
    }
}

impl Sink for PlannedSink {
    ghost taken = { λ s. Some s.taken };

    ghost faults = { λ s. s.faults };

    fn write(&mut self, piece: &[u8]) -> Result<usize, Failed>
        ensures count { TakesSome result piece.now }
        ensures bytes { WriteAppends (Some self.old.taken) (Some self.new.taken) result piece.now }
        ensures cause { HasCause self.old.faults self.new.faults result }

        // Which write fails, and how much another takes.
        ensures fails { IsErr result ↔ (FailsNext self.old.failing self.old.writes ⊎
            ((0 < length piece.now) × (length self.old.taken ≡ self.old.room))) }
        ensures takes { IfOk result
            (λ n. n ≡ min (length piece.now)
            (min self.old.piece (self.old.room - length self.old.taken))) }
        ensures room { self.new.room ≡ self.old.room }
        ensures piece { self.new.piece ≡ self.old.piece }
        ensures counted { self.new.writes ≡ next_call self.old.writes }
        ensures failing { self.new.failing ≡ self.old.failing }
    {
        self.writes = self.writes.saturating_add(1);
        if !self.failing.contains(&self.writes) {
            if let Ok(count) = self.sink.write(piece) {
                return Ok(count);
            }
        }
        self.faults = self.faults.saturating_add(1);
        Err(Failed)
    }
}
