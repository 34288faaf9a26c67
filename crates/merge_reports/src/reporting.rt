//! Reports.
ghost use Rattle.std.specs.Prelude.{◌≡◌, ◌≤◌, IfOk};
ghost use Rattle.report_lines.specs.Places.{conflict_limit};
ghost use Rattle.report_lines.specs.Parts.{HasForm};
ghost use Rattle.report_lines.specs.Reports.{IsReport, asked_in, parts_in};
ghost use Rattle.report_lines.specs.Operators.{operator_named};
ghost use Rattle.merge_reports.specs.Outcomes.{IsOutcome};
ghost use Rattle.merge_reports.specs.BorneOut.{IsBorneOut, IsTruthful};
ghost use Rattle.merge_reports.specs.Trimmed.{IsTrimmedReport};

use crate::outcome::{Found, Outcome, search_named};
use crate::trimming::trimmed;
use edge::NoMemory;
use merge_model::{AggregatorName, DistanceName, Problem, Sequence};
use report_lines::Report;
use std::alloc::Global;

/// Merges a problem by search under the named distance and aggregator: the report, with the log
/// that shows it. Each question may learn `conflicts` steps; where one learns them all, the report
/// says that the search gave up. `NoMemory` for want of memory.
pub fn report_on(
    alloc: Global,
    distance: DistanceName,
    aggregator: AggregatorName,
    conflicts: u64,
    problem: Problem,
) -> Result<Report, NoMemory>
    requires some { 1 ≤ conflicts }
    requires few { conflicts ≤ conflict_limit }
    ensures distance { IfOk result (λ report. report.distance ≡ distance) }
    ensures aggregator { IfOk result (λ report. report.aggregator ≡ aggregator) }
    ensures conflicts { IfOk result (λ report. report.conflicts ≡ conflicts) }
    ensures problem { IfOk result (λ report. report.problem ≡ problem) }
    ensures whole { IfOk result IsReport }
    ensures form { IfOk result (λ report. HasForm (asked_in report) (parts_in report)) }
    ensures answer { IfOk result IsBorneOut }
    ensures truth { IfOk result IsTruthful }
    ensures trimmed { IfOk result IsTrimmedReport }
{
    let outcome = search_named(alloc, distance, aggregator, conflicts, problem)?;
    trimmed_report(alloc, distance, aggregator, conflicts, outcome)
}

/// The report of what a search came to, as `report_of`; where there is an answer, its log is
/// trimmed to the steps that show it. `NoMemory` for want of memory.
pub fn trimmed_report(
    alloc: Global,
    distance: DistanceName,
    aggregator: AggregatorName,
    conflicts: u64,
    outcome: Outcome,
) -> Result<Report, NoMemory>
    requires some { 1 ≤ conflicts }
    requires few { conflicts ≤ conflict_limit }
    requires outcome { IsOutcome
        (operator_named distance aggregator outcome.problem.atoms) conflicts
        outcome.problem outcome.derivations outcome.found.answer outcome.found.proofs.items }
    ensures distance { IfOk result (λ report. report.distance ≡ distance) }
    ensures aggregator { IfOk result (λ report. report.aggregator ≡ aggregator) }
    ensures conflicts { IfOk result (λ report. report.conflicts ≡ conflicts) }
    ensures problem { IfOk result (λ report. report.problem ≡ outcome.problem) }
    ensures said { IfOk result (λ report. report.answer ≡ outcome.found.answer) }
    ensures whole { IfOk result IsReport }
    ensures form { IfOk result (λ report. HasForm (asked_in report) (parts_in report)) }
    ensures answer { IfOk result IsBorneOut }
    ensures truth { IfOk result IsTruthful }
    ensures trimmed { IfOk result IsTrimmedReport }
{
    let left = trimmed(alloc, outcome)?;
    Ok(report_of(distance, aggregator, conflicts, left))
}

/// The report of what a search under the named distance and aggregator came to, each of whose
/// questions could learn `conflicts` steps.
pub fn report_of(
    distance: DistanceName,
    aggregator: AggregatorName,
    conflicts: u64,
    outcome: Outcome,
) -> Report
    requires some { 1 ≤ conflicts }
    requires few { conflicts ≤ conflict_limit }
    requires outcome { IsOutcome
        (operator_named distance aggregator outcome.problem.atoms) conflicts
        outcome.problem outcome.derivations outcome.found.answer outcome.found.proofs.items }
    ensures distance { result.distance ≡ distance }
    ensures aggregator { result.aggregator ≡ aggregator }
    ensures conflicts { result.conflicts ≡ conflicts }
    ensures problem { result.problem ≡ outcome.problem }
    ensures said { result.answer ≡ outcome.found.answer }
    ensures log { result.derivations ≡ outcome.derivations }
    ensures proofs { result.proofs ≡ outcome.found.proofs.items }
    ensures whole { IsReport result }
    ensures form { HasForm (asked_in result) (parts_in result) }
    ensures answer { IsBorneOut result }
    ensures truth { IsTruthful result }
{
    let Outcome {
        problem,
        found: Found { answer, proofs },
        derivations,
    } = outcome;
    Report {
        distance,
        aggregator,
        conflicts,
        problem,
        answer,
        derivations,
        proofs: Sequence::from_vec(proofs),
    }
}
