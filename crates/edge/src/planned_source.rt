ghost use Rattle.std.specs.Prelude.{◌≡◌, ◌<◌, ◌↔◌, min, Some, length, IfOk, IsErr};
ghost use Rattle.std.specs.Io.{ReadsAtMost};
ghost use Rattle.std.specs.Io.KnownBytes.{ReadConsumes};
ghost use Rattle.edge.specs.Faults.{HasCause};
ghost use Rattle.edge.specs.Planned.{next_call, FailsNext};
ghost use Rattle.edge.specs.Streams.{Spends};

use crate::{Failed, MemorySource, Source};
use std::marker::Model;

/// A source over bytes in memory that gives small pieces and whose reads with some numbers fail.
/// Contracts see it as a `PlannedIn` of the bytes that are left.
#[derive(Debug, Drop)]
pub struct PlannedSource {
    source: MemorySource,
    reads: u64,
    failing: Vec<u64>,
    faults: u64,
}

impl Model for PlannedSource {
    ghost use Rattle.std.specs.Prelude.{◌≡◌};
    ghost use Rattle.edge.specs.Planned.{PlannedIn};

    ghost Value = { PlannedIn };

    ghost view = { λ s. record {
      left = s.source.left;
      piece = s.source.piece;
      reads = s.reads;
      failing = s.failing.items;
      faults = s.faults;
    } };

    ghost invariant = { λ s. s.source.fails_in ≡ 0 };
}

impl MemorySource {
    /// A source that gives at most `piece` bytes at a read. Its reads with the numbers `faults`,
    /// counted from 1, fail and no others.
    pub fn with_faults(bytes: Vec<u8>, piece: usize, faults: Vec<u64>) -> PlannedSource
        requires { 0 < piece }
        ensures { result ≡ record {
          left = bytes.items;
          piece = piece;
          reads = 0;
          failing = faults.items;
          faults = 0;
        } }
    {
        PlannedSource {
            source: MemorySource::new(bytes, piece, 0),
            reads: 0,
            failing: faults,
            faults: 0,
        }
    }
}

impl Source for PlannedSource {
    ghost left = { λ s. Some s.left };

    ghost faults = { λ s. s.faults };

    ghost room = { λ s. length s.left };

    fn read(&mut self, into: &mut [u8]) -> Result<usize, Failed>
        ensures bound { ReadsAtMost result into.new }
        ensures bytes { ReadConsumes (Some self.old.left) (Some self.new.left) result into.new }
        ensures room { Spends (length self.old.left) (length self.new.left) result }
        ensures cause { HasCause self.old.faults self.new.faults result }

        // Which read fails, and how much another gives.
        ensures fails { IsErr result ↔ FailsNext self.old.failing self.old.reads }
        ensures count { IfOk result
            (λ n. n ≡ min (length self.old.left) (min (length into.old) self.old.piece)) }
        ensures piece { self.new.piece ≡ self.old.piece }
        ensures counted { self.new.reads ≡ next_call self.old.reads }
        ensures failing { self.new.failing ≡ self.old.failing }
    {
        self.reads = self.reads.saturating_add(1);
        if self.failing.contains(&self.reads) {
            self.faults = self.faults.saturating_add(1);
            return Err(Failed);
        }
        self.source.read(into)
    }
}
