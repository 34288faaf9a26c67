//! Leaving out the steps that show nothing of an answer.
ghost use Rattle.std.specs.Prelude.{◌≡◌, ◌≤◌, ◌<◌, false, length, map, IfOk};
ghost use Rattle.std.specs.List.{AllByRecursion};
ghost use Rattle.derivation_log.specs.Logs.{known_of, IsSound};
ghost use Rattle.report_lines.specs.Reports.{step_of};
ghost use Rattle.merge_reports.specs.Trimmed.{is_given_up, proof_with, proofs_with};
ghost use Rattle.merge_reports.specs.Trimmed.{IsTrimmedTo, IsTrimmedFor};

use crate::outcome::{Found, Outcome};
use derivation_log::{Derivations, TrimmedLog, trim};
use edge::NoMemory;
use merge_model::Answer;
use report_lines::Proof;
use std::alloc::Global;

/// The number of a proof's step.
fn step_number(proof: Proof) -> u64
    ensures { result ≡ step_of proof }
{
    match proof {
        Proof::Constraint(step) => step,
        Proof::Base(_, step) => step,
        Proof::Far(_, _, step) => step,
        Proof::Least(_, step) => step,
        Proof::Holds(_, step) => step,
    }
}

/// The numbers of the proofs' steps, in order.
fn step_numbers(alloc: Global, proofs: &[Proof]) -> Result<Vec<u64>, NoMemory>
    ensures { IfOk result (λ numbers. numbers.items ≡ map step_of proofs.now) }
{
    let mut numbers = Vec::with_capacity(alloc, proofs.len())?;
    for proof in proofs {
        numbers.push(step_number(*proof))?;
    }
    Ok(numbers)
}

/// The proof by the step of another number.
fn with_step(proof: Proof, step: u64) -> Proof
    ensures { result ≡ proof_with proof step }
{
    match proof {
        Proof::Constraint(_) => Proof::Constraint(step),
        Proof::Base(agent, _) => Proof::Base(agent, step),
        Proof::Far(shown, agent, _) => Proof::Far(shown, agent, step),
        Proof::Least(level, _) => Proof::Least(level, step),
        Proof::Holds(query, _) => Proof::Holds(query, step),
    }
}

/// The proofs by the steps of these numbers, in order.
fn with_steps(alloc: Global, proofs: &[Proof], numbers: &[u64]) -> Result<Vec<Proof>, NoMemory>
    requires { length numbers.now ≡ length proofs.now }
    ensures { IfOk result (λ made. made.items ≡ proofs_with proofs.now numbers.now) }
{
    let mut made = Vec::with_capacity(alloc, proofs.len())?;
    for (k, proof) in proofs.iter().enumerate() {
        made.push(with_step(*proof, numbers[k]))?;
    }
    Ok(made)
}

/// Whether the search gave up.
fn gave_up(answer: &Answer) -> bool
    ensures { result ≡ is_given_up answer.now }
{
    match answer {
        Answer::Merged { .. } => false,
        Answer::Inconsistent { .. } => false,
        Answer::GaveUp => true,
    }
}

/// Leaves of a log what the proofs need: what is left, and the proofs by its numbers.
fn trimmed_to(
    alloc: Global,
    derivations: Derivations,
    proofs: &[Proof],
) -> Result<(Derivations, Vec<Proof>), NoMemory>
    requires sound { IsSound derivations.main derivations.steps }
    requires proofs { AllByRecursion (λ n. (length derivations.main ≤ n) ×
        (n < length (known_of derivations))) (map step_of proofs.now) }
    ensures { IfOk result (λ left. IsTrimmedTo derivations proofs.now left.0 left.1.items) }
{
    let needed = step_numbers(alloc, proofs)?;
    let log = trim(alloc, derivations, &needed)?;
    let placed = with_steps(alloc, proofs, &log.numbers)?;
    let TrimmedLog { derivations, .. } = log;
    Ok((derivations, placed))
}

/// Leaves of the log what the proofs need, where there is an answer.
fn trimmed_outcome(alloc: Global, outcome: Outcome) -> Result<Outcome, NoMemory>
    requires answered { is_given_up outcome.found.answer ≡ false }
    requires sound { IsSound outcome.derivations.main outcome.derivations.steps }
    requires proofs { AllByRecursion (λ n. (length outcome.derivations.main ≤ n) ×
        (n < length (known_of outcome.derivations))) (map step_of outcome.found.proofs.items) }
    ensures problem { IfOk result (λ left. left.problem ≡ outcome.problem) }
    ensures answer { IfOk result (λ left. left.found.answer ≡ outcome.found.answer) }
    ensures log { IfOk result (λ left. IsTrimmedFor outcome.found.answer outcome.derivations
        outcome.found.proofs.items left.derivations left.found.proofs.items) }
{
    let Outcome {
        problem,
        found: Found { answer, proofs },
        derivations,
    } = outcome;
    let (derivations, proofs) = trimmed_to(alloc, derivations, &proofs)?;
    Ok(Outcome {
        problem,
        found: Found { answer, proofs },
        derivations,
    })
}

/// Leaves of the log what the proofs need, where there is an answer. The log of a search that gave
/// up stays whole, since it shows what was spent.
pub fn trimmed(alloc: Global, outcome: Outcome) -> Result<Outcome, NoMemory>
    requires sound { IsSound outcome.derivations.main outcome.derivations.steps }
    requires proofs { AllByRecursion (λ n. (length outcome.derivations.main ≤ n) ×
        (n < length (known_of outcome.derivations))) (map step_of outcome.found.proofs.items) }
    ensures problem { IfOk result (λ left. left.problem ≡ outcome.problem) }
    ensures answer { IfOk result (λ left. left.found.answer ≡ outcome.found.answer) }
    ensures log { IfOk result (λ left. IsTrimmedFor outcome.found.answer outcome.derivations
        outcome.found.proofs.items left.derivations left.found.proofs.items) }
{
    if gave_up(&outcome.found.answer) {
        Ok(outcome)
    } else {
        trimmed_outcome(alloc, outcome)
    }
}
