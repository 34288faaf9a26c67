ghost use Rattle.std.specs.Prelude.{◌≡◌, ◌≢◌, ℕ, ◌≤◌, List, IfOk, OnErr, IsErrOf};
ghost use Rattle.edge.specs.Faults.{Rose};
ghost use Rattle.edge.specs.Streams.{Gave};
ghost use Rattle.merge_cli.specs.declared.commands.Command.TheVariants.{Check};
ghost use Rattle.merge_cli.specs.Answers.{Answered, CommandAnswers};
ghost use Rattle.merge_cli.specs.Check.{GaveUndecided, SaysWrong, accepted_text, wrong_word};

use crate::refusal::line_refusal;
use crate::reply::{Reply, Stop, says};
use crate::status::{ANSWERED, REFUSED_REPORT};
use edge::{NoMemory, Source};
use report_lines::{Kind, RefusedKind};
use report_text::{AcceptFromStop, Refused, accept_from};
use std::alloc::Global;

/// Judges the report in the source line by line, up to its end or its first wrong line. After a
/// stop the source has lost the bytes that were read.
pub fn check_reply<S: Source>(alloc: Global, source: &mut S) -> Result<Reply, Stop>
    ensures ok { IfOk result (λ reply. Answered (CommandAnswers Check)
        (S.left source.old) (S.left source.new) (S.room source.old) (S.room source.new)
        reply.status reply.text.items) }
    ensures err { OnErr result ((bytes : List ℕ) × Gave (S.left source.old) (S.left source.new)
        (S.room source.old) (S.room source.new) bytes) }
    ensures failed { IsErrOf result Stop.Failed → Rose (S.faults source.old) (S.faults source.new) }
    ensures undecided { IsErrOf result Stop.Failed → GaveUndecided (S.left source.old)
        (S.left source.new) (S.room source.old) (S.room source.new) }
    ensures faults { S.faults source.old ≤ S.faults source.new }
    ensures quiet { result ≢ Err Stop.Failed → S.faults source.new ≡ S.faults source.old }
{
    match accept_from(alloc, source) {
        Ok(kind) => Ok(says(alloc, ANSWERED, line_of_kind(kind))?),
        Err(AcceptFromStop::Refused(refused)) => Ok(wrong_reply(alloc, refused)?),
        Err(AcceptFromStop::Failed) => Err(Stop::Failed),
        Err(AcceptFromStop::NoMemory) => Err(Stop::NoMemory),
    }
}

fn wrong_reply(alloc: Global, refused: Refused) -> Result<Reply, NoMemory>
    ensures { IfOk result (λ reply. SaysWrong refused reply.status reply.text.items) }
{
    let text = line_refusal(alloc, refused.line, word_of_refused(refused.kind))?;
    Ok(Reply {
        status: REFUSED_REPORT,
        text,
    })
}

fn line_of_kind(kind: Kind) -> &'static [u8]
    ensures { result.now ≡ accepted_text kind }
{
    match kind {
        Kind::Merged => b"accepted merged\n",
        Kind::Inconsistent => b"accepted inconsistent\n",
        Kind::Spent => b"accepted spent\n",
    }
}

fn word_of_refused(kind: RefusedKind) -> &'static str
    ensures { result.now ≡ wrong_word kind }
{
    match kind {
        RefusedKind::Form => "form",
        RefusedKind::Problem => "problem",
        RefusedKind::Step => "step",
        RefusedKind::Witness => "witness",
        RefusedKind::Claim => "claim",
        RefusedKind::Ended => "ended",
    }
}
