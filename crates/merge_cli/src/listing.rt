ghost use Rattle.std.specs.Prelude.{◌≡◌, ◌≢◌, IfOk};
ghost use Rattle.solver_laws.specs.Ready.{IsLog};
ghost use Rattle.distance_search.specs.Laws.{Laws};
ghost use Rattle.distance_search.specs.Setting.{IsOver};
ghost use Rattle.distance_search.specs.Results.{IsConsistency, AllNamed};
ghost use Rattle.closest_listing.specs.Lists.{setting_named, list_text};
ghost use Rattle.report_lines.specs.Operators.{operator_named};
ghost use Rattle.merge_reports.specs.Found.{HasSpent};
ghost use Rattle.merge_reports.specs.Outcomes.{IsOutcome};
ghost use Rattle.merge_cli.specs.Commands.{usual_conflicts};
ghost use Rattle.merge_cli.specs.List.{ListAnswers, usual_asked};
ghost use Rattle.merge_cli.specs.Merge.{MergeAnswers, status_of};
ghost use Rattle.merge_cli.specs.Places.{IsPlaceOf};

use crate::commands::USUAL_CONFLICTS;
use crate::merging::report_reply;
use crate::place::Place;
use crate::reply::{Reply, says};
use crate::status::{ANSWERED, REFUSED};
use closest_listing::{ClosestList, ListEnd, ListOutcome, list_closest, text_of};
use derivation_log::Derivations;
use distance_search::Consistency;
use edge::NoMemory;
use merge_model::{AggregatorName, Answer, DistanceName, Problem};
use merge_reports::{Found, Outcome, is_small, named, trimmed_report};
use std::alloc::Global;

/// What `list` answers to a problem.
pub fn list_reply(
    alloc: Global,
    distance: DistanceName,
    aggregator: AggregatorName,
    count: u32,
    place: Place,
    problem: Problem,
) -> Result<Reply, NoMemory>
    ensures { IfOk result (λ reply. ListAnswers (record {
      distance = distance;
      aggregator = aggregator;
      count = count;
      place = place;
    }) problem reply.status reply.text.items) }
{
    if place.is_of(&problem) {
        listed_reply(alloc, distance, aggregator, count, place, problem)
    } else {
        says(alloc, REFUSED, b"refused: bad after\n")
    }
}

/// The same for a place of the problem.
fn listed_reply(
    alloc: Global,
    distance: DistanceName,
    aggregator: AggregatorName,
    count: u32,
    place: Place,
    problem: Problem,
) -> Result<Reply, NoMemory>
    requires { IsPlaceOf problem place }
    ensures { IfOk result (λ reply. ListAnswers (record {
      distance = distance;
      aggregator = aggregator;
      count = count;
      place = place;
    }) problem reply.status reply.text.items) }
{
    let outcome = list_closest(
        alloc,
        distance,
        aggregator,
        USUAL_CONFLICTS,
        place.above(),
        count,
        problem,
    )?;
    let ListOutcome {
        problem,
        end,
        derivations,
    } = outcome;
    match end {
        ListEnd::Listed(list) => list_text_reply(alloc, &list),
        ListEnd::Lacking(consistency) => {
            lacking_reply(
                alloc,
                distance,
                aggregator,
                problem,
                derivations,
                &consistency,
            )
        }
        ListEnd::Spent => spent_reply(alloc, distance, aggregator, problem, derivations),
    }
}

/// The list, as a reply.
fn list_text_reply(alloc: Global, list: &ClosestList) -> Result<Reply, NoMemory>
    ensures status { IfOk result (λ reply. reply.status ≡ 0) }
    ensures text { IfOk result (λ reply. reply.text.items
        ≡ list_text list.now.valuations.items list.now.more) }
{
    let text = text_of(alloc, list)?;
    Ok(Reply {
        status: ANSWERED,
        text,
    })
}

/// The report of the formulas that have no model.
fn lacking_reply(
    alloc: Global,
    distance: DistanceName,
    aggregator: AggregatorName,
    problem: Problem,
    derivations: Derivations,
    consistency: &Consistency,
) -> Result<Reply, NoMemory>
    requires laws { Laws (setting_named distance aggregator problem) }
    requires over { IsOver (setting_named distance aggregator problem) derivations }
    requires follows { IsLog derivations }
    requires named { IsConsistency (setting_named distance aggregator problem) derivations
        consistency.now }
    requires lacks { AllNamed consistency.now → ⊥ }
    ensures status { IfOk result (λ reply. reply.status ≢ 0) }
    ensures answers { IfOk result (λ reply. MergeAnswers (usual_asked distance aggregator) problem
        reply.status reply.text.items) }
{
    is_small(&derivations);
    let found = named(alloc, consistency)?;
    let outcome = Outcome {
        problem,
        found,
        derivations,
    };
    search_reply(alloc, distance, aggregator, outcome)
}

/// The report of a search that gave up.
fn spent_reply(
    alloc: Global,
    distance: DistanceName,
    aggregator: AggregatorName,
    problem: Problem,
    derivations: Derivations,
) -> Result<Reply, NoMemory>
    requires laws { Laws (setting_named distance aggregator problem) }
    requires over { IsOver (setting_named distance aggregator problem) derivations }
    requires follows { IsLog derivations }
    requires spent { HasSpent derivations usual_conflicts }
    ensures status { IfOk result (λ reply. reply.status ≢ 0) }
    ensures answers { IfOk result (λ reply. MergeAnswers (usual_asked distance aggregator) problem
        reply.status reply.text.items) }
{
    is_small(&derivations);
    let found = Found {
        answer: Answer::GaveUp,
        proofs: Vec::new(alloc),
    };
    let outcome = Outcome {
        problem,
        found,
        derivations,
    };
    search_reply(alloc, distance, aggregator, outcome)
}

/// The report of what a search came to.
fn search_reply(
    alloc: Global,
    distance: DistanceName,
    aggregator: AggregatorName,
    outcome: Outcome,
) -> Result<Reply, NoMemory>
    requires { IsOutcome (operator_named distance aggregator outcome.problem.atoms) usual_conflicts
        outcome.problem outcome.derivations outcome.found.answer outcome.found.proofs.items }
    ensures status { IfOk result (λ reply. reply.status ≡ status_of outcome.found.answer) }
    ensures answers { IfOk result (λ reply. MergeAnswers (usual_asked distance aggregator)
        outcome.problem reply.status reply.text.items) }
{
    let report = trimmed_report(alloc, distance, aggregator, USUAL_CONFLICTS, outcome)?;
    report_reply(alloc, &report)
}
