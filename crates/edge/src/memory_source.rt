ghost use Rattle.std.specs.Prelude.{◌≡◌, ◌<◌, ◌-◌, ◌↔◌, min, Some, length, IfOk, IsErr};
ghost use Rattle.std.specs.Io.{ReadsAtMost};
ghost use Rattle.std.specs.Io.KnownBytes.{ReadConsumes};
ghost use Rattle.edge.specs.Faults.{HasCause};
ghost use Rattle.edge.specs.Streams.{Spends};

use crate::{Failed, Source};
use std::marker::Model;

/// A source over bytes in memory that gives small pieces and may fail once. Contracts see it as a
/// `Stored` of the bytes that are left.
#[derive(Debug, Drop)]
pub struct MemorySource {
    bytes: Vec<u8>,
    at: usize,
    piece: usize,
    fails_in: u64,
    faults: u64,
}

impl Model for MemorySource {
    ghost use Rattle.std.specs.Prelude.{◌≤◌, ◌<◌, drop, vec_len};
    ghost use Rattle.edge.specs.Stored.{Stored};

    ghost Value = { Stored };

    ghost view = { λ s. record {
      left = drop s.at s.bytes.items;
      piece = s.piece;
      fails_in = s.fails_in;
      faults = s.faults;
    } };

    ghost invariant = { λ s. (s.at ≤ vec_len s.bytes) × (0 < s.piece) };
}

impl MemorySource {
    /// A source that gives at most `piece` bytes at a read. Its read number `fail_at`, counted
    /// from 1, fails and no other; 0 means that none fails.
    pub fn new(bytes: Vec<u8>, piece: usize, fail_at: u64) -> Self
        requires { 0 < piece }
        ensures { result ≡ record {
          left = bytes.items;
          piece = piece;
          fails_in = fail_at;
          faults = 0;
        } }
    {
        MemorySource {
            bytes,
            at: 0,
            piece,
            fails_in: fail_at,
            faults: 0,
        }
    }
}

impl Source for MemorySource {
    ghost left = { λ s. Some s.left };

    ghost faults = { λ s. s.faults };

    ghost room = { λ s. length s.left };

    fn read(&mut self, into: &mut [u8]) -> Result<usize, Failed>
        ensures bound { ReadsAtMost result into.new }
        ensures bytes { ReadConsumes (Some self.old.left) (Some self.new.left) result into.new }
        ensures room { Spends (length self.old.left) (length self.new.left) result }
        ensures cause { HasCause self.old.faults self.new.faults result }

        // Which read fails, and how much another gives.
        ensures fails { IsErr result ↔ (self.old.fails_in ≡ 1) }
        ensures count { IfOk result
            (λ n. n ≡ min (length self.old.left) (min (length into.old) self.old.piece)) }
        ensures piece { self.new.piece ≡ self.old.piece }
        ensures counted { self.new.fails_in ≡ self.old.fails_in - 1 }
    {
        let fails = self.fails_in == 1;
        self.fails_in = self.fails_in.saturating_sub(1);
        if fails {
            self.faults = self.faults.saturating_add(1);
            return Err(Failed);
        }
        let rest = &self.bytes[self.at..];
        let count = rest.len().min(into.len().min(self.piece));
        into[..count].copy_from_slice(&rest[..count]);
        self.at += count;
        Ok(count)
    }
}
