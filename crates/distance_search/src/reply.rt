//! What a question gives.
ghost use Rattle.std.specs.Prelude.{◌≡◌};
ghost use Rattle.distance_search.specs.declared.reply.SearchStop.TheVariants as stops;

use edge::NoMemory;
use formulas::Valuation;
use std::alloc::AllocFailed;

/// Valuations that break a claim, with the level values of their distances.
#[derive(Drop)]
pub struct Witness {
    /// The valuation that is looked for.
    pub shared: Valuation,
    /// A valuation for each agent.
    pub own: Vec<Valuation>,
    /// The level values of the distances between it and them.
    pub values: Vec<u32>,
}

/// The answer to a question.
#[derive(Drop)]
pub enum Reply {
    /// The claim is true: the number of a step that refutes what it assumes.
    Refuted(u64),
    /// The claim is false.
    Found(Witness),
}

/// Why a search stopped.
#[derive(Clone, Copy, Debug, PartialEq, Eq)]
pub enum SearchStop {
    /// The last question spent its budget; the number of the first step that it learned.
    GaveUp(u64),
    /// Memory was wanting.
    NoMemory,
}

impl From<NoMemory> for SearchStop {
    ghost from_gives = { λ _ stop. stop ≡ stops.NoMemory };

    fn from(_error: NoMemory) -> SearchStop {
        SearchStop::NoMemory
    }
}

impl<T: Drop> From<AllocFailed<T>> for SearchStop {
    ghost from_gives = { λ _ stop. stop ≡ stops.NoMemory };

    fn from(_failed: AllocFailed<T>) -> SearchStop {
        SearchStop::NoMemory
    }
}
