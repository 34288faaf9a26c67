//! Whole reports, judged line by line.
ghost use Rattle.std.specs.Prelude.{IfOk, IfErr};
ghost use Rattle.report_lines.specs.Judged.{IsAccepted};
ghost use Rattle.report_text.specs.Accepting.{IsStop, IsEnd, IsBorneOutText};

use crate::parts::accepted_has_parts;
use crate::progress::Progress;
use report_lines::{Kind, RefusedKind};
use std::alloc::Global;

/// A line that is refused.
#[derive(Clone, Copy, Debug, PartialEq, Eq)]
pub struct Refused {
    /// The number of the line, from 1 on.
    pub line: u64,
    /// Why it is refused.
    pub kind: RefusedKind,
}

/// Why a text is not accepted.
#[derive(Clone, Copy, Debug, PartialEq, Eq)]
pub enum AcceptStop {
    /// Its first wrong line.
    Refused(Refused),
    /// Memory was refused.
    NoMemory,
}

/// Takes the text as one piece.
fn judge(alloc: Global, bytes: &[u8]) -> Result<Kind, AcceptStop>
    ensures { IsEnd bytes.now result }
{
    let mut progress = Progress::new(alloc);
    progress.piece(alloc, bytes)?;
    progress.end()
}

/// Judges a whole report: what it is accepted as, or its first wrong line. What is accepted has the
/// parts of a report, which bear its answer out.
pub fn accept(alloc: Global, bytes: &[u8]) -> Result<Kind, AcceptStop>
    ensures ok { IfOk result (λ kind. IsAccepted bytes.now kind) }
    ensures borne_out { IfOk result (λ kind. IsBorneOutText bytes.now kind) }
    ensures refused { IfErr result (λ stop. IsStop bytes.now stop) }
{
    accepted_has_parts();
    judge(alloc, bytes)
}
