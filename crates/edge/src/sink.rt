ghost use Rattle.std.specs.Prelude.{ℕ, ◌<◌, List, length, take, Option, IfErr, MatchResult};
ghost use Rattle.std.specs.Io.KnownBytes.{WriteAppends, Appends};
ghost use Rattle.edge.specs.Faults.{HasCause};
ghost use Rattle.edge.specs.Streams.{TakesSome};

use crate::Failed;

/// Where bytes go.
pub trait Sink {
    /// The bytes that were taken so far, where the sink tells them.
    ghost taken: { Self → Option (List ℕ) };

    /// How often a write has failed, counted to `2 ^ 64 - 1`.
    ghost faults: { Self → ℕ };

    /// Takes a front part of `piece` and answers its length, at least 1 where `piece` is not empty.
    /// `Err(Failed)` counts one more fault and takes nothing; it also comes where the sink would
    /// take nothing of a piece that is not empty.
    fn write(&mut self, piece: &[u8]) -> Result<usize, Failed>
        ensures count { TakesSome result piece.now }
        ensures bytes { WriteAppends (taken self.old) (taken self.new) result piece.now }
        ensures cause { HasCause (faults self.old) (faults self.new) result };
}

/// Sends all of `text`. `Err(k)` comes where a write failed; the sink took the first `k` bytes.
pub fn send_all<K: Sink>(sink: &mut K, text: &[u8]) -> Result<(), usize>
    ensures sent { MatchResult result (λ _. Appends (K.taken sink.old) (K.taken sink.new) text.now)
        (λ count. Appends (K.taken sink.old) (K.taken sink.new) (take count text.now)) }
    ensures part { IfErr result (λ count. count < length text.now) }
    ensures cause { HasCause (K.faults sink.old) (K.faults sink.new) result }
{
    let mut sent = 0;
    while sent < text.len() {
        let Ok(count) = sink.write(&text[sent..]) else {
            return Err(sent);
        };
        sent += count;
    }
    Ok(())
}
