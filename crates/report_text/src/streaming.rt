//! Reports that come from a source, judged line by line while they come.
ghost use Rattle.std.specs.Prelude.{◌≡◌, ◌≢◌, ◌≤◌, ℕ, List, [], Some, IfOk, IfErr, IsErrOf};
ghost use Rattle.edge.specs.Faults.{Rose};
ghost use Rattle.report_lines.specs.Judged.{IsAccepted};
ghost use Rattle.report_text.specs.Progress.{IsAt};
ghost use Rattle.report_text.specs.Streaming.{IsJudgedFrom, IsStopFrom, stop_from};

use crate::accepting::{AcceptStop, Refused};
use crate::parts::accepted_has_parts;
use crate::progress::Progress;
use edge::{PIECE_LIMIT, Source};
use report_lines::Kind;
use std::alloc::Global;

/// Why what a source gives is not accepted.
#[derive(Clone, Copy, Debug, PartialEq, Eq)]
pub enum AcceptFromStop {
    /// Its first wrong line.
    Refused(Refused),
    /// A read failed.
    Failed,
    /// Memory was refused.
    NoMemory,
}

impl From<AcceptStop> for AcceptFromStop {
    ghost from_gives = { λ stop from. from ≡ stop_from stop };

    fn from(stop: AcceptStop) -> Self {
        match stop {
            AcceptStop::Refused(refused) => AcceptFromStop::Refused(refused),
            AcceptStop::NoMemory => AcceptFromStop::NoMemory,
        }
    }
}

/// Reads a piece, judges it, and so on, from the first on.
fn judge_from<S: Source>(
    alloc: Global,
    source: &mut S,
    progress: &mut Progress,
) -> Result<Kind, AcceptFromStop>
    requires { IsAt [] progress.old }
    ensures judged { IsJudgedFrom (S.left source.old) (S.left source.new)
        (S.room source.old) (S.room source.new) result }
    ensures failed { IsErrOf result AcceptFromStop.Failed →
        Rose (S.faults source.old) (S.faults source.new) }
    ensures faults { S.faults source.old ≤ S.faults source.new }
    ensures quiet { result ≢ Err AcceptFromStop.Failed →
        S.faults source.new ≡ S.faults source.old }
{
    accepted_has_parts();
    let mut piece = [0u8; PIECE_LIMIT];
    loop {
        let Ok(count) = source.read(&mut piece) else {
            return Err(AcceptFromStop::Failed);
        };
        if count == 0 {
            return Ok(progress.end()?);
        }
        progress.piece(alloc, &piece[..count])?;
    }
}

/// Judges a report that a source gives, in pieces of at most 4,096 bytes: what it is accepted as,
/// or its first wrong line. Each whole line is judged before more is read, so after a refusal bytes
/// may be left; the source has lost the bytes that were read.
pub fn accept_from<S: Source>(alloc: Global, source: &mut S) -> Result<Kind, AcceptFromStop>
    ensures judged { IsJudgedFrom (S.left source.old) (S.left source.new)
        (S.room source.old) (S.room source.new) result }

    // Where the source tells its bytes.
    ensures accepted { (all : List ℕ) → S.left source.old ≡ Some all →
        IfOk result (λ kind. IsAccepted all kind) }
    ensures refused { (all : List ℕ) → S.left source.old ≡ Some all →
        IfErr result (λ stop. IsStopFrom all stop) }

    ensures failed { IsErrOf result AcceptFromStop.Failed →
        Rose (S.faults source.old) (S.faults source.new) }
    ensures faults { S.faults source.old ≤ S.faults source.new }
    ensures quiet { result ≢ Err AcceptFromStop.Failed →
        S.faults source.new ≡ S.faults source.old }
{
    judge_from(alloc, source, &mut Progress::new(alloc))
}
