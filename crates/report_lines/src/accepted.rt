//! Accepted parts of a report make its answer right.
ghost use Rattle.std.specs.Prelude.{◌⊎◌};
ghost use Rattle.merge_model.specs.Answers.{dist_named, rank_named, IsRight, IsNamed};
ghost use Rattle.report_lines.specs.Accepted.{Parts, AreAccepted, operator};
ghost use Rattle.report_lines.specs.Operators.{operator_named};

use agent_copies::Counted;
use aggregators::Levelled;
use log_checker::log_law;
use merge_encoding::{claim_law, frame_law};
use merge_model::{AggregatorName, DistanceName, Drastic, Hamming, Leximax, Max, Sum};

/// The answer of an accepted report is right where it merges, and names the formulas that have no
/// model where it does not, whoever wrote the report.
pub fn accepted_law<D: Counted, A: Levelled>(distance: &D, aggregator: &A)
    ensures { (parts : Parts) →
        AreAccepted (operator (D.dist distance.now) (D.most distance.now) (D.due distance.now)
        (A.rank aggregator.now) (A.levels_of aggregator.now)
        (A.levels_due aggregator.now)) parts →
        IsRight (D.dist distance.now) (A.rank aggregator.now) parts.problem parts.answer ⊎
        IsNamed parts.problem parts.answer }
{
    frame_law(distance, aggregator);
    claim_law(distance, aggregator);
    log_law();
}

/// The same, by the names of the distance and of the aggregator.
pub fn accepted_named(distance: DistanceName, aggregator: AggregatorName)
    ensures { (parts : Parts) →
        AreAccepted (operator_named distance aggregator parts.problem.atoms) parts →
        IsRight (dist_named distance parts.problem.atoms)
        (rank_named aggregator) parts.problem parts.answer ⊎
        IsNamed parts.problem parts.answer }
{
    match (distance, aggregator) {
        (DistanceName::Drastic, AggregatorName::Sum) => accepted_law(&Drastic, &Sum),
        (DistanceName::Drastic, AggregatorName::Max) => accepted_law(&Drastic, &Max),
        (DistanceName::Drastic, AggregatorName::Leximax) => accepted_law(&Drastic, &Leximax),
        (DistanceName::Hamming, AggregatorName::Sum) => accepted_law(&Hamming, &Sum),
        (DistanceName::Hamming, AggregatorName::Max) => accepted_law(&Hamming, &Max),
        (DistanceName::Hamming, AggregatorName::Leximax) => accepted_law(&Hamming, &Leximax),
    }
}
