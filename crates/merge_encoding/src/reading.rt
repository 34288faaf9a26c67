//! What an assignment says through the frame.

ghost use Rattle.std.specs.Prelude.{◌≡◌, ◌<◌, ◌≤◌, length, IfOk};
ghost use Rattle.clause_store.specs.Limits.{var_limit};
ghost use Rattle.clause_store.specs.Lits.{IsWithin, InRange};
ghost use Rattle.clause_store.specs.Truth.{lit_true, values_of};
ghost use Rattle.totalizer.specs.Counter.{count_of, AreVarsWithin, AllVarsWithin};
ghost use Rattle.agent_copies.specs.Counter.{truth_of};
ghost use Rattle.formulas.specs.Limits.{valuation_limit};
ghost use Rattle.aggregators.specs.Levels.{counts_of};

use crate::frame::Frame;
use clause_store::{Assignment, Lit};
use edge::NoMemory;
use formulas::Valuation;
use std::alloc::Global;
use totalizer::Unary;

impl Frame {
    ghost use Rattle.merge_encoding.specs.Frames.{copy_in, IsFrameOver};

    /// The valuation that the assignment gives to the shared literals.
    pub fn shared_valuation(&self, assignment: &Assignment) -> Valuation
        requires { IsFrameOver (length assignment.now) self.now }
        ensures { result ≡ truth_of (values_of assignment.now) self.now.shared }
    {
        valuation_of(assignment, self.shared.as_slice())
    }

    /// The valuation that the assignment gives to the own literals of that agent, counted from 0.
    pub fn own_valuation(&self, assignment: &Assignment, agent: usize) -> Valuation
        requires frame { IsFrameOver (length assignment.now) self.now }
        requires agent { agent < length self.now.copies }
        ensures { result ≡ truth_of (values_of assignment.now) (copy_in self.now.copies agent).own }
    {
        valuation_of(assignment, self.copies.as_slice()[agent].own.as_slice())
    }

    /// The value of each level under the assignment, in order; `NoMemory` for want of memory.
    pub fn level_values(&self, alloc: Global, assignment: &Assignment) -> Result<Vec<u32>, NoMemory>
        requires { IsFrameOver (length assignment.now) self.now }
        ensures { IfOk result (λ values. values.items ≡
            counts_of (values_of assignment.now) self.now.levels) }
    {
        counts_of(alloc, assignment, self.levels.as_slice())
    }
}

/// Whether the literal is true.
fn is_true(assignment: &Assignment, lit: Lit) -> bool
    requires { IsWithin (length assignment.now) lit }
    ensures { result ≡ lit_true (values_of assignment.now) lit }
{
    assignment.value(lit.var) == lit.positive
}

/// The values of the literals, as a valuation.
fn valuation_of(assignment: &Assignment, lits: &[Lit]) -> Valuation
    requires few { length lits.now ≤ valuation_limit }
    requires within { InRange (length assignment.now) lits.now }
    ensures { result ≡ truth_of (values_of assignment.now) lits.now }
{
    let mut valuation = Valuation::new(0, lits.len() as u32);
    for (k, lit) in lits.iter().enumerate() {
        valuation = valuation.with(k as u32, is_true(assignment, *lit));
    }
    valuation
}

/// The value of each counter.
fn counts_of(
    alloc: Global,
    assignment: &Assignment,
    counters: &[Unary],
) -> Result<Vec<u32>, NoMemory>
    requires { AllVarsWithin (length assignment.now) counters.now }
    ensures { IfOk result (λ values. values.items ≡
        counts_of (values_of assignment.now) counters.now) }
{
    let mut values = Vec::with_capacity(alloc, counters.len())?;
    for counter in counters {
        values.push(count(assignment, counter.outputs()))?;
    }
    Ok(values)
}

/// How many outputs of a counter are true.
fn count(assignment: &Assignment, outputs: &[u32]) -> u32
    requires few { length outputs.now ≤ var_limit }
    requires within { AreVarsWithin (length assignment.now) outputs.now }
    ensures { result ≡ count_of (values_of assignment.now) outputs.now }
{
    let mut count = 0;
    for output in outputs {
        if assignment.value(*output) {
            count += 1;
        }
    }
    count
}
