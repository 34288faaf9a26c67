ghost use Rattle.std.specs.Prelude.{◌≡◌, ◌++◌, IfOk, OnOk};
ghost use Rattle.bench_problem.specs.Bench.{IsBench};
ghost use Rattle.merge_model.specs.declared.operator.AggregatorName.TheVariants.{Leximax};
ghost use Rattle.merge_model.specs.declared.operator.DistanceName.TheVariants.{Hamming};
ghost use Rattle.merge_reports.specs.BorneOut.{IsBorneOut, IsTruthful};
ghost use Rattle.merge_reports.specs.Trimmed.{IsTrimmedReport};
ghost use Rattle.report_lines.specs.Items.{yes_word};
ghost use Rattle.report_lines.specs.Parts.{HasForm, items_text};
ghost use Rattle.report_lines.specs.Reports.{IsReport, asked_in, parts_in};
ghost use Rattle.merge_cli.specs.Bench.{BenchAnswers, bench_text, is_yes, verdict_lines};
ghost use Rattle.merge_cli.specs.Commands.{usual_conflicts};

use crate::commands::USUAL_CONFLICTS;
use crate::merging::report_reply;
use crate::reply::Reply;
use crate::status::ANSWERED;
use bench_problem::bench_problem;
use edge::NoMemory;
use itoa::Buffer;
use merge_model::{AggregatorName, Answer, DistanceName, Verdict};
use merge_reports::report_on;
use report_lines::Report;
use report_words::{write_bytes, write_line, write_number, write_numbers};
use std::alloc::Global;

/// What `bench` answers.
pub fn bench_reply(alloc: Global, number: u64) -> Result<Reply, NoMemory>
    ensures { IfOk result (λ reply. BenchAnswers number reply.status reply.text.items) }
{
    let problem = bench_problem(alloc, number)?;
    let report = report_on(
        alloc,
        DistanceName::Hamming,
        AggregatorName::Leximax,
        USUAL_CONFLICTS,
        problem,
    )?;
    reported(alloc, number, &report)
}

/// What `bench` answers where this is the report on its problem.
fn reported(alloc: Global, number: u64, report: &Report) -> Result<Reply, NoMemory>
    requires problem { IsBench number report.now.problem }
    requires distance { report.now.distance ≡ Hamming }
    requires aggregator { report.now.aggregator ≡ Leximax }
    requires conflicts { report.now.conflicts ≡ usual_conflicts }
    requires whole { IsReport report.now }
    requires form { HasForm (asked_in report.now) (parts_in report.now) }
    requires answer { IsBorneOut report.now }
    requires truth { IsTruthful report.now }
    requires trimmed { IsTrimmedReport report.now }
    ensures { IfOk result (λ reply. BenchAnswers number reply.status reply.text.items) }
{
    match &report.answer {
        Answer::Merged {
            measure,
            verdicts,
            ..
        } => {
            let text = text_of(alloc, number, measure.as_slice(), verdicts.as_slice())?;
            Ok(Reply {
                status: ANSWERED,
                text,
            })
        }
        Answer::Inconsistent { .. } => unreachable!(),
        Answer::GaveUp => report_reply(alloc, report),
    }
}

/// The number of the problem, the measure, and each verdict.
fn text_of(
    alloc: Global,
    number: u64,
    measure: &[u32],
    verdicts: &[Verdict],
) -> Result<Vec<u8>, NoMemory>
    ensures { IfOk result (λ text. text.items ≡ bench_text number measure.now verdicts.now) }
{
    let mut text = Vec::new(alloc);
    write_bytes(b"bench", &mut text)?;
    write_number(number, &mut text)?;
    write_bytes(b"\nmeasure", &mut text)?;
    write_numbers(measure, &mut text)?;
    write_bytes(b"\n", &mut text)?;
    write_verdicts(verdicts, &mut text)?;
    Ok(text)
}

fn write_verdicts(verdicts: &[Verdict], into: &mut Vec<u8>) -> Result<(), NoMemory>
    ensures { OnOk result (into.new.items ≡ into.old.items
        ++ items_text (verdict_lines 0 verdicts.now)) }
{
    for (query, verdict) in verdicts.iter().enumerate() {
        let mut digits = Buffer::new();
        let number = digits.format(query as u128 + 1).as_bytes();
        write_line(b"verdict", &[number, word_of(verdict)], into)?;
    }
    Ok(())
}

fn word_of(verdict: &Verdict) -> &'static [u8]
    ensures { result.now ≡ yes_word (is_yes verdict.now) }
{
    match verdict {
        Verdict::Yes => b"yes",
        Verdict::No(_) => b"no",
    }
}
