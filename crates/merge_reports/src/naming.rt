//! The answer where some formula has no model.
ghost use Rattle.std.specs.Prelude.{◌≡◌, ◌++◌, IfOk, OnOk};
ghost use Rattle.merge_reports.specs.Proofs.{lack_proof, entry_of, entry_proofs, naming_answer};
ghost use Rattle.merge_reports.specs.Proofs.{naming_proofs};

use crate::outcome::Found;
use distance_search::{Consistency, Named};
use edge::NoMemory;
use formulas::Valuation;
use merge_model::{Answer, Sequence};
use report_lines::{Proof, Subject};
use std::alloc::Global;

/// The proof that a formula has no model.
fn lack_of(subject: Subject, step: u64) -> Proof
    ensures { result ≡ lack_proof subject step }
{
    match subject {
        Subject::TheConstraint => Proof::Constraint(step),
        Subject::BaseOf(agent) => Proof::Base(agent, step),
    }
}

/// The model of a formula, or `None` where it has none; then the proof of that is appended.
fn entry(
    proofs: &mut Vec<Proof>,
    subject: Subject,
    named: &Named,
) -> Result<Option<Valuation>, NoMemory>
    ensures entry { IfOk result (λ found. found ≡ entry_of named.now) }
    ensures proofs { OnOk result (proofs.new.items ≡
        proofs.old.items ++ entry_proofs subject named.now) }
{
    match named {
        Named::Model(valuation) => Ok(Some(*valuation)),
        Named::Empty(step) => {
            proofs.push(lack_of(subject, *step))?;
            Ok(None)
        }
    }
}

/// The models of the constraint and of the bases, where some have none.
pub fn named(alloc: Global, consistency: &Consistency) -> Result<Found, NoMemory>
    ensures answer { IfOk result (λ found. found.answer ≡ naming_answer consistency.now) }
    ensures proofs { IfOk result (λ found. found.proofs.items ≡ naming_proofs consistency.now) }
{
    let mut proofs = Vec::new(alloc);
    let constraint = entry(&mut proofs, Subject::TheConstraint, &consistency.constraint)?;
    let mut agents = Vec::new(alloc);
    for (agent, named) in consistency.agents.as_slice().iter().enumerate() {
        let model = entry(&mut proofs, Subject::BaseOf(agent), named)?;
        agents.push(model)?;
    }
    Ok(Found {
        answer: Answer::Inconsistent {
            constraint,
            agents: Sequence::from_vec(agents),
        },
        proofs,
    })
}
