//! One step line is taken in, or refused.
ghost use Rattle.std.specs.Prelude.{◌≡◌, OnErr, nat_le};
ghost use Rattle.std.specs.List.{list_all};
ghost use Rattle.log_lines.specs.Taking.{IsTaken, FollowsLaw, NarrowLaw};

use clause_store::{ClauseList, Lit};
use derivation_log::{StepKind, StepReadStop, read_step};
use log_checker::{StepStop, check_step};
use std::alloc::Global;

/// Why a line is not taken in.
#[derive(Clone, Copy, Debug, PartialEq, Eq)]
pub enum TakeStop {
    /// It is no step line.
    Form,
    /// It is a step line that is not right here.
    Step,
    /// There was no memory left.
    NoMemory,
}

/// Whether each variable is one of so many.
fn are_within(lits: &[Lit], vars: u32) -> bool
    ensures { result ≡ list_all (λ lit. nat_le lit.var vars) lits.now }
{
    for lit in lits {
        if lit.var > vars {
            return false;
        }
    }
    true
}

/// Takes a step line in: its step's clause joins the known clauses. A line is taken exactly where
/// it is right next: its step has the next number, its literals rise and are over the known
/// variables, and it follows. A refusal changes nothing.
pub fn take_step(alloc: Global, known: &mut ClauseList, line: &[u8]) -> Result<StepKind, TakeStop>
    ensures taken { IsTaken known.old line.now known.new result }
    ensures err { OnErr result (known.new ≡ known.old) }
{
    let (number, step) = match read_step(alloc, line) {
        Ok(read) => read,
        Err(StepReadStop::Form) => return Err(TakeStop::Form),
        Err(StepReadStop::TooBig) => return Err(TakeStop::Step),
        Err(StepReadStop::Unsorted) => return Err(TakeStop::Step),
        Err(StepReadStop::NoMemory) => return Err(TakeStop::NoMemory),
    };
    if number != known.len() {
        return Err(TakeStop::Step);
    }
    if !are_within(step.clause.lits(), known.vars()) {
        return Err(TakeStop::Step);
    }
    match check_step(alloc, known, &step) {
        Ok(()) => {}
        Err(StepStop::NoMemory) => return Err(TakeStop::NoMemory),
        Err(StepStop::NoSuchClause) => return Err(TakeStop::Step),
        Err(StepStop::NoPivot(_)) => return Err(TakeStop::Step),
        Err(StepStop::OtherClause) => return Err(TakeStop::Step),
    }
    match known.add_clause(&step.clause) {
        Ok(_number) => Ok(step.kind),
        Err(_) => Err(TakeStop::NoMemory),
    }
}

/// A step without a verdict against it follows, and the step of the line that a step is written as
/// is that step.
pub fn step_law()
    ensures follows { FollowsLaw }
    ensures narrow { NarrowLaw }
{}
