//! The claims that are due for an answer.
ghost use Rattle.std.specs.Prelude.{◌≡◌, [], ◌∷◌, ◌++◌, IfOk, OnOk, OnErr, map};
ghost use Rattle.report_lines.specs.ClaimsDue.{far_claims, least_claims, of_first};
ghost use Rattle.merge_encoding.specs.Claims.{NoBetter};
ghost use Rattle.report_text.specs.Answering.{due_claim};

use edge::NoMemory;
use formulas::Valuation;
use merge_encoding::Claim;
use merge_model::Sequence;
use std::alloc::Global;

/// A claim that a step is to prove, and which shown model it is on: 0 for the first or for none,
/// else the number of a query from 1.
#[derive(Debug, Drop)]
pub struct Claimed {
    /// The number of the shown model.
    pub model: u64,
    /// The claim.
    pub says: Claim,
}

/// That no base has a model nearer to a shown model than its entry, for each entry that is not 0.
pub fn far_claims(
    alloc: Global,
    number: u64,
    model: Valuation,
    vector: &[u32],
) -> Result<Vec<Claimed>, NoMemory>
    ensures { IfOk result
        (λ claims. map due_claim claims.items ≡ far_claims number model vector.now) }
{
    let mut claims = Vec::new(alloc);
    for (agent, distance) in vector.iter().enumerate() {
        if *distance > 0 {
            let says = Claim::NoNearer(agent, model, *distance);
            claims.push(Claimed {
                model: number,
                says,
            })?;
        }
    }
    Ok(claims)
}

/// That nothing is better first at that level.
fn least_claim(alloc: Global, level: usize, values: &[u32]) -> Result<Claimed, NoMemory>
    ensures { IfOk result (λ claim. due_claim claim ≡ of_first (NoBetter level values.now)) }
{
    let values = Sequence::from_vec(values.to_vec(alloc)?);
    Ok(Claimed {
        model: 0,
        says: Claim::NoBetter(level, values),
    })
}

/// That nothing is better first at a level, for each level whose value is not 0.
pub fn least_claims(alloc: Global, values: &[u32]) -> Result<Vec<Claimed>, NoMemory>
    ensures { IfOk result (λ claims. map due_claim claims.items ≡ least_claims values.now) }
{
    let mut claims = Vec::new(alloc);
    for (level, value) in values.iter().enumerate() {
        if *value > 0 {
            claims.push(least_claim(alloc, level, values)?)?;
        }
    }
    Ok(claims)
}

/// Appends a claim; `NoMemory` leaves those before as they were.
pub fn add_claim(claims: &mut Vec<Claimed>, claim: Claimed) -> Result<(), NoMemory>
    ensures added { OnOk result (claims.new.items ≡ claims.old.items ++ claim ∷ []) }
    ensures kept { OnErr result (claims.new.items ≡ claims.old.items) }
{
    claims.push(claim)?;
    Ok(())
}

/// Appends claims; `NoMemory` leaves those before as they were.
pub fn add_claims(claims: &mut Vec<Claimed>, mut more: Vec<Claimed>) -> Result<(), NoMemory>
    ensures added { OnOk result (claims.new.items ≡ claims.old.items ++ more.items) }
    ensures kept { OnErr result (claims.new.items ≡ claims.old.items) }
{
    claims.append(&mut more)?;
    Ok(())
}
