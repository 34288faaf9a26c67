//! The steps of an answer, as proofs of its claims.
ghost use Rattle.std.specs.Prelude.{◌≡◌, ◌++◌, IfOk, OnOk};
ghost use Rattle.merge_reports.specs.Proofs.{far_proofs, least_proofs, best_proofs};

use distance_search::Best;
use edge::NoMemory;
use report_lines::Proof;
use std::alloc::Global;

/// Appends the proofs that no model of a base is nearer to a shown model, from the step of each
/// agent that has one. The first model that is shown has number 0, that of a query its number from
/// 1.
pub fn push_far(
    proofs: &mut Vec<Proof>,
    shown: usize,
    steps: &[Option<u64>],
) -> Result<(), NoMemory>
    ensures { OnOk result (proofs.new.items ≡ proofs.old.items ++ far_proofs shown 0 steps.now) }
{
    for (agent, step) in steps.iter().enumerate() {
        if let Some(number) = *step {
            proofs.push(Proof::Far(shown, agent, number))?;
        }
    }
    Ok(())
}

/// Appends the proofs that nothing is better first at a level, from the step of each level that has
/// one.
fn push_least(proofs: &mut Vec<Proof>, steps: &[Option<u64>]) -> Result<(), NoMemory>
    ensures { OnOk result (proofs.new.items ≡ proofs.old.items ++ least_proofs 0 steps.now) }
{
    for (level, step) in steps.iter().enumerate() {
        if let Some(number) = *step {
            proofs.push(Proof::Least(level, number))?;
        }
    }
    Ok(())
}

/// The proofs of a best answer: that no model of a base is nearer to its model, and that nothing is
/// better first.
pub fn proofs_of(alloc: Global, best: &Best) -> Result<Vec<Proof>, NoMemory>
    ensures { IfOk result (λ proofs. proofs.items ≡ best_proofs best.now) }
{
    let mut proofs = Vec::new(alloc);
    push_far(&mut proofs, 0, best.far.as_slice())?;
    push_least(&mut proofs, best.least.as_slice())?;
    Ok(proofs)
}
