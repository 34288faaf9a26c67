use crate::{Aggregator, StrictAggregator};
use edge::NoMemory;
use ranks::total;
use std::alloc::Global;
use std::cmp::Ordering;

/// The sum of the distances.
#[derive(Clone, Copy, Debug)]
pub struct Sum;

impl Aggregator for Sum {
    ghost use Rattle.std.proofs.Common.{refl};
    ghost use Rattle.ranks.specs.Ranks.{sum_rank};
    ghost use Rattle.ranks.proofs.SumLaws.{sum_unordered, sum_monotone, sum_zero_least, sum_joined};

    ghost rank = { λ _ u. sum_rank u };

    ghost sized = { λ _ u w _. refl };

    ghost unordered = { λ _ u w _ _ h. sum_unordered u w h };

    ghost monotone = { λ _ u w _ _ h. sum_monotone u w h };

    ghost zero_least = { λ _ u _ _ h. sum_zero_least u h };

    ghost joined = { λ _ u w s t _ _ _ _ _ h i. sum_joined u w s t h i };

    #[tactic(auto, using(ranks::proofs::SumLaws::small_sum))]
    fn compare(&self, left: &[u32], right: &[u32]) -> Ordering {
        total(left).cmp(&total(right))
    }

    #[tactic(auto, using(ranks::proofs::SumLaws::small_sum))]
    fn rank_of(&self, alloc: Global, full: &[u32]) -> Result<Vec<u32>, NoMemory> {
        let ranked = vec![in alloc; total(full)]?;
        Ok(ranked)
    }
}

impl StrictAggregator for Sum {
    ghost use Rattle.ranks.proofs.SumLaws.{sum_strict};

    ghost strict = { λ _ u w s t _ _ _ _ _ h i j. sum_strict u w s t h i j };
}
