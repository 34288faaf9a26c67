ghost use Rattle.std.specs.Prelude.{◌≡◌, ◌<◌, None, IfOk, take, length};
ghost use Rattle.std.specs.Io.{ReadsAtMost};
ghost use Rattle.std.specs.Io.KnownBytes.{ReadConsumes, WriteAppends, Consumes, Appends, IsAtEnd};
ghost use Rattle.edge.specs.Faults.{HasCause};
ghost use Rattle.edge.specs.Streams.{Spends, stream_limit, TakesSome};

use crate::{Failed, Sink, Source};
use std::io::{Read, Write};
use std::marker::Model;

/// How many bytes a stream may give; `stream_limit` of the specs.
const STREAM_LIMIT: u64 = 1 << 40;

/// A source over any reader. It tells nothing of what is left and gives at most `2 ^ 40` bytes
/// (`stream_limit`). Contracts see it as a `PipedIn`.
#[derive(Drop)]
pub struct StdSource<R> {
    input: R,
    room: u64,
    faults: u64,
}

impl<R> Model for StdSource<R> {
    ghost use Rattle.edge.specs.Piped.{PipedIn};

    ghost Value = { PipedIn R };

    ghost view = { λ s. record { input = s.input; room = s.room; faults = s.faults } };
}

impl<R: Read> StdSource<R> {
    /// A source over this reader, with no fault so far.
    pub fn new(input: R) -> Self
        ensures { result ≡ record { input = input; room = stream_limit; faults = 0 } }
    {
        StdSource {
            input,
            room: STREAM_LIMIT,
            faults: 0,
        }
    }
}

impl<R: Read> Source for StdSource<R> {
    ghost left = { λ _. None };

    ghost faults = { λ s. s.faults };

    ghost room = { λ s. s.room };

    /// Fails where the reader does and where it gives more than the room.
    fn read(&mut self, into: &mut [u8]) -> Result<usize, Failed>
        ensures bound { ReadsAtMost result into.new }
        ensures bytes { ReadConsumes None None result into.new }
        ensures room { Spends self.old.room self.new.room result }
        ensures cause { HasCause self.old.faults self.new.faults result }

        // It passes on what the reader gives.
        ensures passes { IfOk result
            (λ count. Consumes (R.remaining self.old.input) (R.remaining self.new.input)
            (take count into.new)) }
        ensures end { result ≡ Ok 0 → 0 < length into.new → IsAtEnd (R.remaining self.new.input) }
    {
        if let Ok(count) = self.input.read(into) {
            if count as u64 <= self.room {
                self.room -= count as u64;
                return Ok(count);
            }
        }
        self.faults = self.faults.saturating_add(1);
        Err(Failed)
    }
}

/// A sink over any writer, which it flushes after each write. It tells nothing of what was taken.
/// Contracts see it as a `PipedOut`.
#[derive(Drop)]
pub struct StdSink<W> {
    output: W,
    faults: u64,
}

impl<W> Model for StdSink<W> {
    ghost use Rattle.edge.specs.Piped.{PipedOut};

    ghost Value = { PipedOut W };

    ghost view = { λ s. record { output = s.output; faults = s.faults } };
}

impl<W: Write> StdSink<W> {
    /// A sink over this writer, with no fault so far.
    pub fn new(output: W) -> Self
        ensures { result ≡ record { output = output; faults = 0 } }
    {
        StdSink { output, faults: 0 }
    }
}

impl<W: Write> Sink for StdSink<W> {
    ghost taken = { λ _. None };

    ghost faults = { λ s. s.faults };

    /// Fails where a write or a flush does and where the writer takes nothing.
    fn write(&mut self, piece: &[u8]) -> Result<usize, Failed>
        ensures count { TakesSome result piece.now }
        ensures bytes { WriteAppends None None result piece.now }
        ensures cause { HasCause self.old.faults self.new.faults result }

        // It passes on what the writer takes.
        ensures passes { IfOk result
            (λ count. Appends (W.contents self.old.output) (W.contents self.new.output)
            (take count piece.now)) }
    {
        if piece.is_empty() {
            return Ok(0);
        }
        if let Ok(count) = self.output.write(piece) {
            if count > 0 && self.output.flush().is_ok() {
                return Ok(count);
            }
        }
        self.faults = self.faults.saturating_add(1);
        Err(Failed)
    }
}
