ghost use Rattle.std.specs.Prelude.{◌≡◌, None, length};
ghost use Rattle.std.specs.Io.KnownBytes.{WriteAppends};
ghost use Rattle.edge.specs.Faults.{HasCause};
ghost use Rattle.edge.specs.Streams.{TakesSome};

use crate::{Failed, Sink};

/// A sink that takes everything and tells nothing.
#[derive(Debug, Default, Drop)]
pub struct NullSink {}

impl NullSink {
    /// A sink that has taken nothing so far.
    pub fn new() -> Self {
        NullSink {}
    }
}

impl Sink for NullSink {
    ghost taken = { λ _. None };

    ghost faults = { λ _. 0 };

    fn write(&mut self, piece: &[u8]) -> Result<usize, Failed>
        ensures count { TakesSome result piece.now }
        ensures bytes { WriteAppends None None result piece.now }
        ensures cause { HasCause 0 0 result }

        ensures all { result ≡ Ok (length piece.now) }
    {
        Ok(piece.len())
    }
}
