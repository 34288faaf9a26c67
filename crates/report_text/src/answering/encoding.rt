//! Main clauses by the names of a distance and of an aggregator.
ghost use Rattle.std.specs.Prelude.{◌≡◌, IfOk, length, map};
ghost use Rattle.clause_store.specs.Lits.{sorted_clause};
ghost use Rattle.merge_encoding.specs.Frames.{frame_of, IsFrameOver};
ghost use Rattle.merge_encoding.specs.MainDues.{IsMain};
ghost use Rattle.merge_encoding.specs.Named.{main_named, values_named};
ghost use Rattle.merge_model.specs.Answers.{dist_named, most_named, profile_of};

use edge::NoMemory;
use merge_encoding::{Main, encode};
use merge_model::{AggregatorName, DistanceName, Drastic, Hamming, Leximax, Max, Problem, Sum};
use std::alloc::Global;

/// The main clauses of a problem, with their frame.
#[tactic(auto, unfolding(merge_encoding::specs::Named::main_named))]
pub fn encoded(
    alloc: Global,
    distance: DistanceName,
    aggregator: AggregatorName,
    problem: &Problem,
) -> Result<Main, NoMemory>
    ensures frame { IfOk result (λ main. main.frame ≡
        frame_of (main_named distance aggregator (profile_of problem.now) problem.now.asks)) }
    ensures vars { IfOk result (λ main. main.clauses.vars ≡
        (main_named distance aggregator (profile_of problem.now) problem.now.asks).vars) }
    ensures list { IfOk result (λ main. main.clauses.list ≡
        map sorted_clause (main_named distance aggregator
        (profile_of problem.now) problem.now.asks).clauses) }
    ensures over { IfOk result (λ main. IsFrameOver main.clauses.vars main.frame) }
    ensures means { IsMain (dist_named distance problem.now.atoms)
        (most_named distance problem.now.atoms (length problem.now.atoms)) (values_named aggregator)
        (profile_of problem.now) problem.now.asks
        (main_named distance aggregator (profile_of problem.now) problem.now.asks) }
{
    match (distance, aggregator) {
        (DistanceName::Drastic, AggregatorName::Sum) => encode(alloc, problem, &Drastic, &Sum),
        (DistanceName::Drastic, AggregatorName::Max) => encode(alloc, problem, &Drastic, &Max),
        (DistanceName::Drastic, AggregatorName::Leximax) => {
            encode(alloc, problem, &Drastic, &Leximax)
        }
        (DistanceName::Hamming, AggregatorName::Sum) => encode(alloc, problem, &Hamming, &Sum),
        (DistanceName::Hamming, AggregatorName::Max) => encode(alloc, problem, &Hamming, &Max),
        (DistanceName::Hamming, AggregatorName::Leximax) => {
            encode(alloc, problem, &Hamming, &Leximax)
        }
    }
}
