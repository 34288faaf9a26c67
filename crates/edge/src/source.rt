ghost use Rattle.std.specs.Prelude.{◌≡◌, ◌≢◌, ℕ, ◌-◌, ◌≤◌, ◌↔◌, List, Option, IfOk, OnOk, OnErr};
ghost use Rattle.std.specs.Prelude.{IsErrOf};
ghost use Rattle.std.specs.Io.{ReadsAtMost};
ghost use Rattle.std.specs.Io.KnownBytes.{ReadConsumes, IsAtEnd};
ghost use Rattle.edge.specs.Faults.{HasCause, Rose};
ghost use Rattle.edge.specs.Streams.{Spends, Exceeds, Gave};

use crate::Failed;
use std::alloc::Global;

/// How many bytes one read asks for; `piece_limit` of the specs.
pub const PIECE_LIMIT: usize = 4096;

/// Why a source was not read to its end.
#[derive(Clone, Copy, Debug, PartialEq, Eq)]
pub enum ReadStop {
    /// A read failed.
    Failed,
    /// The source gave more bytes than the limit.
    TooLong,
    /// Memory was refused.
    NoMemory,
}

/// Where bytes come from.
pub trait Source {
    /// The bytes that are still to come, where the source tells them.
    ghost left: { Self → Option (List ℕ) };

    /// How often a read has failed, counted to `2 ^ 64 - 1`.
    ghost faults: { Self → ℕ };

    /// How many bytes it may still give, told or not.
    ghost room: { Self → ℕ };

    /// Puts the next bytes at the front of `into` and answers how many. `Ok(0)` for an `into` that
    /// is not empty is the end of input. `Err(Failed)` counts one more fault, gives no bytes, and
    /// may leave anything in `into`.
    fn read(&mut self, into: &mut [u8]) -> Result<usize, Failed>
        ensures bound { ReadsAtMost result into.new }
        ensures bytes { ReadConsumes (left self.old) (left self.new) result into.new }
        ensures room { Spends (room self.old) (room self.new) result }
        ensures cause { HasCause (faults self.old) (faults self.new) result };
}

/// All bytes of a source up to its end, at most `limit` where one is given. After a stop the source
/// has lost the bytes that were read.
pub fn read_all<S: Source>(
    alloc: Global,
    source: &mut S,
    limit: Option<usize>,
) -> Result<Vec<u8>, ReadStop>
    ensures ok { IfOk result (λ bytes. Gave (S.left source.old) (S.left source.new)
        (S.room source.old) (S.room source.new) bytes.items) }
    ensures end { OnOk result (IsAtEnd (S.left source.new)) }
    ensures err { OnErr result ((bytes : List ℕ) × Gave (S.left source.old) (S.left source.new)
        (S.room source.old) (S.room source.new) bytes) }

    ensures failed { IsErrOf result ReadStop.Failed →
        Rose (S.faults source.old) (S.faults source.new) }
    ensures too_long { (result ≡ Err ReadStop.TooLong) ↔ Exceeds limit
        (S.room source.old - S.room source.new) }
    ensures faults { S.faults source.old ≤ S.faults source.new }
    ensures quiet { result ≢ Err ReadStop.Failed → S.faults source.new ≡ S.faults source.old }
{
    let mut bytes = Vec::new(alloc);
    let mut piece = [0u8; PIECE_LIMIT];
    loop {
        let Ok(count) = source.read(&mut piece) else {
            return Err(ReadStop::Failed);
        };
        if count == 0 {
            return Ok(bytes);
        }
        if limit.is_some_and(|most| most - bytes.len() < count) {
            return Err(ReadStop::TooLong);
        }
        if bytes.extend_from_slice(&piece[..count]).is_err() {
            return Err(ReadStop::NoMemory);
        }
    }
}
