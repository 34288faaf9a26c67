ghost use Rattle.std.specs.Prelude.{◌≡◌, IfOk, IfErr};
ghost use Rattle.problem_reading.specs.Spelling.{IsProblemOf, EndsAt};
ghost use Rattle.problem_reading.specs.Views.{draft_of};

use crate::declarations::Declarations;
use crate::stop::{TextFault, TextKind, TextStop};
use formulas::Formula;
use merge_model::{Problem, Sequence};

/// The fault of the end that is of this kind.
fn end_fault(kind: TextKind) -> TextStop
    ensures { result ≡ TextStop.Fault (record { line = 0; kind = kind }) }
{
    TextStop::Fault(TextFault { line: 0, kind })
}

impl Declarations {
    /// The problem that is declared, or the fault of line 0: no atom, or else no agent.
    pub fn finish(self) -> Result<Problem, TextStop>
        ensures problem { IfOk result (IsProblemOf (draft_of self)) }
        ensures stop { IfErr result (EndsAt (draft_of self)) }
    {
        if self.atoms.len() == 0 {
            return Err(end_fault(TextKind::NoAtoms));
        }
        if self.agents.is_empty() {
            return Err(end_fault(TextKind::NoAgent));
        }
        let Declarations {
            alloc: _,
            atoms,
            constraint,
            agents,
            asks,
            constraint_nodes: _,
            other_nodes: _,
            times: _,
        } = self;
        let constraint = constraint.unwrap_or(Formula::Top);
        Ok(Problem::new(
            atoms,
            constraint,
            Sequence::from_vec(agents),
            Sequence::from_vec(asks),
        ))
    }
}
