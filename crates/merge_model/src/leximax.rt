use crate::{Aggregator, StrictAggregator};
use edge::NoMemory;
use ranks::compare_sorted_down;
use std::alloc::Global;
use std::cmp::Ordering;

/// The distances from greatest to least, lexicographically.
#[derive(Clone, Copy, Debug)]
pub struct Leximax;

impl Aggregator for Leximax {
    ghost use Rattle.std.proofs.Common.{◌∙◌, sym, arith};
    ghost use Rattle.ranks.specs.Limits.{distance_limit};
    ghost use Rattle.ranks.specs.Ranks.{leximax_rank};
    ghost use Rattle.ranks.proofs.Orders.{length_down};
    ghost use Rattle.ranks.proofs.Laws.{leximax_unordered, leximax_monotone, leximax_zero};
    ghost use Rattle.ranks.proofs.Laws.{leximax_joined};

    ghost rank = { λ _ u. leximax_rank u };

    ghost sized = { λ _ u w h. length_down u ∙ h ∙ sym (length_down w) };

    ghost unordered = { λ _ u w small _ h. leximax_unordered distance_limit u w small h };

    ghost monotone = { λ _ u w small _ h. leximax_monotone distance_limit u w small h };

    ghost zero_least = { λ _ u small _ h.
        leximax_zero distance_limit u (Prim.omega arith) small h };

    ghost joined = { λ _ u w s t small _ _ e f h i.
        leximax_joined distance_limit u w s t small e f h i };

    fn compare(&self, left: &[u32], right: &[u32]) -> Ordering {
        compare_sorted_down(left, right)
    }

    fn rank_of(&self, alloc: Global, full: &[u32]) -> Result<Vec<u32>, NoMemory> {
        let mut ranked = full.to_vec(alloc)?;
        ranked.sort_unstable();
        ranked.reverse();
        Ok(ranked)
    }
}

impl StrictAggregator for Leximax {
    ghost use Rattle.ranks.specs.Limits.{distance_limit};
    ghost use Rattle.ranks.proofs.Laws.{leximax_strict};

    ghost strict = { λ _ u w s t small _ _ e f h i j.
        leximax_strict distance_limit u w s t small e f h i j };
}
