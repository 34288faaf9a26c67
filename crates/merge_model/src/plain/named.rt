ghost use Rattle.std.specs.Prelude.{◌≡◌, ◌≤◌, ◌↔◌, IsTrue, length, map, All, IfOk};
ghost use Rattle.merge_model.specs.Plain.{first_of};

use crate::Sequence;
use edge::NoMemory;
use formulas::Valuation;
use std::alloc::Global;

/// Whether there is a candidate, and a model in each list.
pub fn all_have_models(candidates: &[Valuation], tables: &[Sequence<Valuation>]) -> bool
    ensures { IsTrue result ↔ (1 ≤ length candidates.now)
        × All (λ models. 1 ≤ length models) tables.now }
{
    !candidates.is_empty() && all_some(tables)
}

/// Whether there is a model in each list.
fn all_some(tables: &[Sequence<Valuation>]) -> bool
    ensures { IsTrue result ↔ All (λ models. 1 ≤ length models) tables.now }
{
    tables.iter().all(|models| models.len() >= 1)
}

/// The first valuation of a list.
pub fn first(models: &[Valuation]) -> Option<Valuation>
    ensures { result ≡ first_of models.now }
{
    match models {
        [] => None,
        [first, ..] => Some(*first),
    }
}

/// The first valuation of each list; `NoMemory` for want of it.
pub fn firsts(
    alloc: Global,
    tables: &[Sequence<Valuation>],
) -> Result<Vec<Option<Valuation>>, NoMemory>
    ensures { IfOk result (λ firsts. firsts.items ≡ map first_of tables.now) }
{
    let mut firsts = Vec::new(alloc);
    for models in tables {
        firsts.push(first(models.as_slice()))?;
    }
    Ok(firsts)
}
