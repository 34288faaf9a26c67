ghost use Rattle.std.specs.Prelude.{◌≡◌, ◌≤◌, ◌<◌, ◌++◌, ◌∷◌, [], length, map, filter, All, IfOk};
ghost use Rattle.std.specs.Prelude.{OnOk};
ghost use Rattle.formulas.specs.Formulas.{holds, width_of};
ghost use Rattle.formulas.specs.Limits.{valuation_limit};
ghost use Rattle.merge_model.specs.Merging.{models_of};

use crate::{Agent, Sequence};
use edge::NoMemory;
use formulas::{Formula, Valuation};
use std::alloc::Global;

/// The models of a formula over fewer than `valuation_limit` atoms, in rising order; `NoMemory` for
/// want of it.
pub fn models(alloc: Global, formula: &Formula, atoms: u32) -> Result<Vec<Valuation>, NoMemory>
    requires few { atoms < valuation_limit }
    requires within { width_of formula.now ≤ atoms }
    ensures { IfOk result (λ models. models.items ≡ models_of atoms formula.now) }
{
    let mut models = Vec::new(alloc);
    for bits in 0..1u64 << atoms {
        push_model(&mut models, formula, Valuation::new(bits, atoms))?;
    }
    Ok(models)
}

/// Appends the valuation where it satisfies the formula.
fn push_model(
    models: &mut Vec<Valuation>,
    formula: &Formula,
    valuation: Valuation,
) -> Result<(), NoMemory>
    requires { width_of formula.now ≤ length valuation }
    ensures { OnOk result
        (models.new.items ≡ models.old.items ++ filter (holds formula.now) (valuation ∷ [])) }
{
    if formula.holds(&valuation) {
        models.push(valuation)?;
    }
    Ok(())
}

/// The models of each agent's base, in rising order; `NoMemory` for want of it.
pub fn base_models(
    alloc: Global,
    agents: &[Agent],
    atoms: u32,
) -> Result<Vec<Sequence<Valuation>>, NoMemory>
    requires few { atoms < valuation_limit }
    requires within { All (λ agent. width_of agent.base ≤ atoms) agents.now }
    ensures { IfOk result
        (λ tables. tables.items ≡ map (models_of atoms) (map (λ agent. agent.base) agents.now)) }
{
    let mut tables = Vec::new(alloc);
    for agent in agents {
        tables.push(Sequence::from_vec(models(alloc, &agent.base, atoms)?))?;
    }
    Ok(tables)
}
