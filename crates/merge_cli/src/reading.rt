ghost use Rattle.std.specs.Prelude.{◌≡◌, ◌≢◌, ℕ, ◌≤◌, List, IfOk, OnErr, IsErrOf};
ghost use Rattle.edge.specs.Faults.{Rose};
ghost use Rattle.edge.specs.Streams.{Gave};
ghost use Rattle.merge_cli.specs.Commands.{IsProper, ReadsProblem, limit_of};
ghost use Rattle.merge_cli.specs.Answers.{Answered, TextAnswers};
ghost use Rattle.merge_cli.specs.Rows.{ReadAnswers};

use crate::answering::text_reply;
use crate::commands::{Command, limit};
use crate::reply::{Reply, Stop, says};
use crate::status::REFUSED;
use edge::{ReadStop, Source, read_all};
use std::alloc::Global;

/// Reads the source to its end, if it has no more than the command takes, and answers its problem
/// text. After a stop the source has lost the bytes that were read.
pub fn read_reply<S: Source>(alloc: Global, command: Command, source: &mut S) -> Result<Reply, Stop>
    requires proper { IsProper command }
    requires problem { ReadsProblem command }
    ensures ok { IfOk result (λ reply.
        Answered (ReadAnswers (limit_of command) (TextAnswers command))
        (S.left source.old) (S.left source.new) (S.room source.old) (S.room source.new)
        reply.status reply.text.items) }
    ensures err { OnErr result ((bytes : List ℕ) × Gave (S.left source.old) (S.left source.new)
        (S.room source.old) (S.room source.new) bytes) }
    ensures failed { IsErrOf result Stop.Failed → Rose (S.faults source.old) (S.faults source.new) }
    ensures faults { S.faults source.old ≤ S.faults source.new }
    ensures quiet { result ≢ Err Stop.Failed → S.faults source.new ≡ S.faults source.old }
{
    match read_all(alloc, source, limit(&command)) {
        Ok(bytes) => Ok(text_reply(alloc, command, bytes.as_slice())?),
        Err(ReadStop::TooLong) => Ok(says(alloc, REFUSED, b"refused: too long\n")?),
        Err(ReadStop::Failed) => Err(Stop::Failed),
        Err(ReadStop::NoMemory) => Err(Stop::NoMemory),
    }
}
