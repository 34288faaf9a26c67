//! A counter as a list of variables.

ghost use Rattle.std.specs.Prelude.{◌≡◌, ℕ, ◌-◌, ◌≤◌, Bool, [], ◌∷◌, IfOk, length, All};
ghost use Rattle.std.specs.Prelude.{slice_index, if◌then◌else◌};
ghost use Rattle.clause_store.specs.Lits.{positive_lit};
ghost use Rattle.clause_store.specs.Limits.{var_limit};
ghost use Rattle.totalizer.specs.Counter.{count_of, IsUnary, leaves};

use clause_store::Lit;
use edge::NoMemory;
use std::alloc::Global;
use std::marker::Model;

/// A counter: a list of variables, its outputs. Where the true outputs come first, its value is
/// their number.
#[derive(Drop)]
pub struct Unary {
    outputs: Vec<u32>,
}

impl Model for Unary {
    ghost use Rattle.std.specs.Prelude.{List, ℕ, ◌≤◌, length, All};
    ghost use Rattle.clause_store.specs.Limits.{var_limit};

    ghost Value = { List ℕ };

    ghost view = { λ s. s.outputs.items };

    ghost invariant = { λ s. (1 ≤ length s.outputs.items) × (length s.outputs.items ≤ var_limit) ×
        All (λ v. 1 ≤ v) s.outputs.items };
}

impl Unary {
    /// The counter with these outputs, made without taking memory.
    pub fn from_outputs(outputs: Vec<u32>) -> Unary
        requires some { 1 ≤ length outputs.items }
        requires few { length outputs.items ≤ var_limit }
        requires numbered { All (λ v. 1 ≤ v) outputs.items }
        ensures { result ≡ outputs.items }
    {
        Unary { outputs }
    }

    /// The outputs, given back without taking memory.
    pub fn into_outputs(self) -> Vec<u32>
        ensures value { result.items ≡ self }
        ensures some { 1 ≤ length self }
        ensures few { length self ≤ var_limit }
        ensures numbered { All (λ v. 1 ≤ v) self }
    {
        let Unary { outputs } = self;
        outputs
    }

    /// How many outputs there are.
    #[allow(clippy::len_without_is_empty)]
    pub fn len(&self) -> u32
        ensures len { result ≡ length self.now }
        ensures some { 1 ≤ result }
    {
        self.outputs.len() as u32
    }

    /// The literal that says that the value is at least `k`: output `k`, from 1.
    pub fn at_least(&self, k: u32) -> Lit
        requires low { 1 ≤ k }
        requires high { k ≤ length self.now }
        ensures { result ≡ positive_lit (slice_index self.now (k - 1)) }
    {
        Lit::positive(self.outputs[k as usize - 1])
    }

    /// The outputs in order.
    pub fn outputs(&self) -> &[u32]
        ensures value { result.now ≡ self.now }
        ensures some { 1 ≤ length self.now }
        ensures few { length self.now ≤ var_limit }
    {
        self.outputs.as_slice()
    }

    /// The same counter once more; `NoMemory` for want of memory.
    pub fn copy(&self) -> Result<Unary, NoMemory>
        ensures { IfOk result (λ r. r ≡ self.now) }
    {
        Ok(Unary {
            outputs: self.outputs.clone()?,
        })
    }
}

/// The counter of one variable: its value is 1 where the variable is true, and 0 elsewhere.
/// `NoMemory` for want of memory.
pub fn leaf(alloc: Global, var: u32) -> Result<Unary, NoMemory>
    requires { 1 ≤ var }
    ensures outputs { IfOk result (λ r. r ≡ var ∷ []) }
    ensures in_order { (b : ℕ → Bool) → IsUnary b (var ∷ []) }
    ensures value { (b : ℕ → Bool) → count_of b (var ∷ []) ≡ (if b var then 1 else 0) }
{
    let mut outputs = Vec::with_capacity(alloc, 1)?;
    outputs.push(var)?;
    Ok(Unary { outputs })
}

/// The counter of each variable alone, in order; `NoMemory` for want of memory.
pub fn leaves(alloc: Global, vars: &[u32]) -> Result<Vec<Unary>, NoMemory>
    requires { All (λ v. 1 ≤ v) vars.now }
    ensures { IfOk result (λ parts. parts.items ≡ leaves vars.now) }
{
    let mut parts = Vec::with_capacity(alloc, vars.len())?;
    for var in vars {
        parts.push(leaf(alloc, *var)?)?;
    }
    Ok(parts)
}
