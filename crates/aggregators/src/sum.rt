use crate::Levelled;
use crate::counters::repeated_counters;
use clause_store::ClauseList;
use edge::NoMemory;
use merge_model::Sum;
use ranks::total;
use std::alloc::Global;
use totalizer::Unary;

impl Levelled for Sum {
    ghost use Rattle.std.proofs.Common.{refl};
    ghost use Rattle.aggregators.specs.LevelValues.{sum_values};
    ghost use Rattle.aggregators.specs.Levels.{sum_due};
    ghost use Rattle.aggregators.specs.SumLevel.{sum_is};

    ghost levels_of = { λ _ u top. sum_values u top };

    ghost levels_due = { λ _ v aways times. sum_due v aways times };

    ghost in_order = { λ _ top u w _ _ _. refl };

    ghost are_levels = { λ _ v aways times h. sum_is v aways times h };

    #[tactic(auto, using(ranks::proofs::SumLaws::small_sum_top))]
    fn level_values(&self, alloc: Global, full: &[u32], top: u32) -> Result<Vec<u32>, NoMemory> {
        let values = vec![in alloc; total(full)]?;
        Ok(values)
    }

    fn levels(
        &self,
        alloc: Global,
        clauses: &mut ClauseList,
        aways: &[Unary],
        times: &[u32],
    ) -> Result<Vec<Unary>, NoMemory> {
        let parts = repeated_counters(alloc, aways, times)?;
        let level = totalizer::total(alloc, clauses, &parts)?;
        let mut levels = Vec::new(alloc);
        levels.push(level)?;
        Ok(levels)
    }
}
