ghost use Rattle.std.specs.Prelude.{◌≡◌, IfOk};
ghost use Rattle.report_lines.specs.Parts.{HasForm, report_text};
ghost use Rattle.report_lines.specs.Reports.{IsReport, asked_in, parts_in};
ghost use Rattle.merge_cli.specs.Commands.{IsBudget};
ghost use Rattle.merge_cli.specs.Merge.{MergeAnswers, status_of};

use crate::reply::Reply;
use crate::status::{ANSWERED, GAVE_UP, LACKS_MODEL};
use edge::NoMemory;
use merge_model::{AggregatorName, Answer, DistanceName, Problem};
use merge_reports::report_on;
use report_lines::Report;
use report_text::write_report;
use std::alloc::Global;

/// What `merge` answers to a problem.
pub fn merge_reply(
    alloc: Global,
    distance: DistanceName,
    aggregator: AggregatorName,
    conflicts: u64,
    problem: Problem,
) -> Result<Reply, NoMemory>
    requires { IsBudget conflicts }
    ensures { IfOk result (λ reply. MergeAnswers
        (record { distance = distance; aggregator = aggregator; conflicts = conflicts }) problem
        reply.status reply.text.items) }
{
    let report = report_on(alloc, distance, aggregator, conflicts, problem)?;
    report_reply(alloc, &report)
}

/// A report, as a reply.
pub fn report_reply(alloc: Global, report: &Report) -> Result<Reply, NoMemory>
    requires whole { IsReport report.now }
    requires form { HasForm (asked_in report.now) (parts_in report.now) }
    ensures status { IfOk result (λ reply. reply.status ≡ status_of report.now.answer) }
    ensures text { IfOk result (λ reply. reply.text.items
        ≡ report_text (asked_in report.now) (parts_in report.now)) }
{
    let mut text = Vec::new(alloc);
    write_report(report, &mut text)?;
    let status = status_for(&report.answer);
    Ok(Reply { status, text })
}

fn status_for(answer: &Answer) -> u8
    ensures { result ≡ status_of answer.now }
{
    match answer {
        Answer::Merged { .. } => ANSWERED,
        Answer::Inconsistent { .. } => LACKS_MODEL,
        Answer::GaveUp => GAVE_UP,
    }
}
