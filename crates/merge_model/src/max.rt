use crate::Aggregator;
use edge::NoMemory;
use ranks::greatest;
use std::alloc::Global;
use std::cmp::Ordering;

/// The greatest distance.
#[derive(Clone, Copy, Debug)]
pub struct Max;

impl Aggregator for Max {
    ghost use Rattle.std.proofs.Common.{refl};
    ghost use Rattle.ranks.specs.Ranks.{max_rank};
    ghost use Rattle.ranks.proofs.Laws.{max_unordered, max_monotone, max_zero, max_joined};

    ghost rank = { λ _ u. max_rank u };

    ghost sized = { λ _ u w _. refl };

    ghost unordered = { λ _ u w _ _ h. max_unordered u w h };

    ghost monotone = { λ _ u w _ _ h. max_monotone u w h };

    ghost zero_least = { λ _ u _ _ h. max_zero u h };

    ghost joined = { λ _ u w s t _ _ _ _ _ h i. max_joined u w s t h i };

    fn compare(&self, left: &[u32], right: &[u32]) -> Ordering {
        greatest(left).cmp(&greatest(right))
    }

    fn rank_of(&self, alloc: Global, full: &[u32]) -> Result<Vec<u32>, NoMemory> {
        let ranked = vec![in alloc; greatest(full)]?;
        Ok(ranked)
    }
}
