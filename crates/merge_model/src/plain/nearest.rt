ghost use Rattle.std.specs.Prelude.{◌≡◌, length, map, All, IfOk};
ghost use Rattle.merge_model.specs.Plain.{IsOver, nearest_of, distances_of};

use crate::{Distance, Sequence};
use edge::NoMemory;
use formulas::Valuation;
use std::alloc::Global;

/// The first of the models that are nearest to a valuation.
fn nearest<D: Distance>(distance: &D, from: Valuation, models: &[Valuation]) -> Valuation
    requires { IsOver (length from) models.now }
    ensures { result ≡ nearest_of (D.dist distance.now) from models.now }
{
    let mut nearest = models[0];
    let mut least = distance.between(from, nearest);
    for model in models {
        let next = distance.between(from, *model);
        if next < least {
            nearest = *model;
            least = next;
        }
    }
    nearest
}

/// The nearest model of each list; `NoMemory` for want of it.
pub fn nearest_models<D: Distance>(
    alloc: Global,
    distance: &D,
    from: Valuation,
    tables: &[Sequence<Valuation>],
) -> Result<Vec<Valuation>, NoMemory>
    requires { All (IsOver (length from)) tables.now }
    ensures { IfOk result
        (λ models. models.items ≡ map (nearest_of (D.dist distance.now) from) tables.now) }
{
    let mut models = Vec::new(alloc);
    for table in tables {
        models.push(nearest(distance, from, table.as_slice()))?;
    }
    Ok(models)
}

/// The distance of a valuation to each of others; `NoMemory` for want of it.
pub fn distances<D: Distance>(
    alloc: Global,
    distance: &D,
    from: Valuation,
    models: &[Valuation],
) -> Result<Vec<u32>, NoMemory>
    requires { All (λ w. length w ≡ length from) models.now }
    ensures { IfOk result
        (λ distances. distances.items ≡ map (D.dist distance.now from) models.now) }
{
    let mut distances = Vec::new(alloc);
    for model in models {
        distances.push(distance.between(from, *model))?;
    }
    Ok(distances)
}

/// The distance of a valuation to the nearest model of each list; `NoMemory` for want of it.
pub fn vector<D: Distance>(
    alloc: Global,
    distance: &D,
    from: Valuation,
    tables: &[Sequence<Valuation>],
) -> Result<Vec<u32>, NoMemory>
    requires { All (IsOver (length from)) tables.now }
    ensures { IfOk result
        (λ vector. vector.items ≡ distances_of (D.dist distance.now) tables.now from) }
{
    let models = nearest_models(alloc, distance, from, tables)?;
    distances(alloc, distance, from, &models)
}
