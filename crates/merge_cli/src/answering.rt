ghost use Rattle.std.specs.Prelude.{IfOk};
ghost use Rattle.merge_cli.specs.Answers.{ProblemAnswers, TextAnswers};
ghost use Rattle.merge_cli.specs.Commands.{IsProper, ReadsProblem};
ghost use Rattle.merge_cli.specs.Refusals.{SaysFault, SaysStop};

use crate::commands::Command;
use crate::listing::list_reply;
use crate::merging::merge_reply;
use crate::refusal::refusal;
use crate::reply::Reply;
use crate::status::REFUSED;
use edge::NoMemory;
use merge_model::Problem;
use problem_reading::{TextFault, TextStop, read_problem};
use std::alloc::Global;

/// What a command answers to a problem text.
pub fn text_reply(alloc: Global, command: Command, bytes: &[u8]) -> Result<Reply, NoMemory>
    requires proper { IsProper command }
    requires problem { ReadsProblem command }
    ensures { IfOk result (λ reply. TextAnswers command bytes.now reply.status reply.text.items) }
{
    match read_problem(alloc, bytes) {
        Ok(problem) => problem_reply(alloc, command, problem),
        Err(stop) => stop_reply(alloc, stop),
    }
}

/// What a command answers to a problem.
fn problem_reply(alloc: Global, command: Command, problem: Problem) -> Result<Reply, NoMemory>
    requires proper { IsProper command }
    requires problem { ReadsProblem command }
    ensures { IfOk result (λ reply. ProblemAnswers command problem
        reply.status reply.text.items) }
{
    match command {
        Command::Merge(distance, aggregator, conflicts) => {
            merge_reply(alloc, distance, aggregator, conflicts, problem)
        }
        Command::List {
            distance,
            aggregator,
            count,
            place,
        } => list_reply(alloc, distance, aggregator, count, place, problem),
        Command::Check | Command::Bench(_) => unreachable!(),
    }
}

fn stop_reply(alloc: Global, stop: TextStop) -> Result<Reply, NoMemory>
    ensures { IfOk result (λ reply. SaysStop stop reply.status reply.text.items) }
{
    match stop {
        TextStop::Fault(fault) => fault_reply(alloc, fault),
        TextStop::NoMemory => Err(NoMemory),
    }
}

fn fault_reply(alloc: Global, fault: TextFault) -> Result<Reply, NoMemory>
    ensures { IfOk result (λ reply. SaysFault fault reply.status reply.text.items) }
{
    let text = refusal(alloc, fault)?;
    Ok(Reply {
        status: REFUSED,
        text,
    })
}
